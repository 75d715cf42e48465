// The children of each entry, chained in increasing number: first children, and next siblings.
ghost use Rattle.std.specs.Prelude.{◌≡◌, ◌≤◌, ◌<◌, length, IfSome};
ghost use Rattle.base.specs.Limits.{most_entries};
ghost use Rattle.judge.specs.Regions.{NoStray, Linked, chain};

use base::Node;
use base::limits::TOP_MARK;

// Links the entries, and hands back the first top, where there is one.
pub(crate) fn link(parents: &[u32], heads: &mut [u32], nexts: &mut [u32]) -> Option<Node>
    requires { (length parents.now ≤ most_entries) × (length heads.old ≡ length parents.now) × (length nexts.old ≡ length parents.now) × NoStray parents.now }
    ensures linked { Linked parents.now 0 heads.new nexts.new (chain result) }
    ensures within { IfSome result (λ v. v.0 < length parents.now) }
{
    let n = parents.len();
    heads.fill(TOP_MARK);
    let mut first = None;
    for v in (0..n).rev() {
        let over = parents[v] as usize;
        if over < n {
            nexts[v] = heads[over];
            heads[over] = v as u32;
        } else {
            nexts[v] = chain_word(first);
            first = Some(Node(v as u32));
        }
    }
    first
}

// The word of a chain that starts with an entry, or of an empty one.
fn chain_word(first: Option<Node>) -> u32
    ensures { result ≡ chain first }
{
    first.map_or(TOP_MARK, |v| v.0)
}
