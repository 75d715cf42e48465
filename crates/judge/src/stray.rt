// A word that is neither the top mark nor an entry.
ghost use Rattle.std.specs.Prelude.{◌≡◌, ◌≤◌, length};
ghost use Rattle.base.specs.Limits.{most_entries};
ghost use Rattle.tree.specs.Faults.{lowest, is_stray};
ghost use Rattle.judge.specs.Regions.{found};

use base::Node;
use base::limits::TOP_MARK;

// The lowest entry whose word is stray, where there is one.
pub(crate) fn first_stray(parents: &[u32]) -> Option<Node>
    requires { length parents.now ≤ most_entries }
    ensures { found result ≡ lowest parents.now (is_stray parents.now) }
{
    let n = parents.len();
    let v = parents
        .iter()
        .position(|over| *over != TOP_MARK && n <= *over as usize)?;
    Some(Node(v as u32))
}
