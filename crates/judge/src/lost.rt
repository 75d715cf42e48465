// The entries that hang from no top.
ghost use Rattle.std.specs.Prelude.{◌≡◌, not, ◌≤◌, length};
ghost use Rattle.base.specs.Limits.{most_entries};
ghost use Rattle.tree.specs.Forest as forest;
ghost use Rattle.tree.specs.Faults.{lowest, meets_top};
ghost use Rattle.judge.specs.Regions.{found, Marked};

use base::Node;

// The lowest entry whose climb never meets the top, where there is one. In a preorder of all entries each climb does.
pub(crate) fn first_lost(parents: &[u32], order: &[u32], marks: &mut [u32]) -> Option<Node>
    requires { (length parents.now ≤ most_entries) × (order.now ≡ forest.order parents.now) × (length marks.old ≡ length parents.now) }
    ensures { found result ≡ lowest parents.now (λ v. not (meets_top parents.now v)) }
{
    if order.len() == parents.len() {
        return None;
    }
    mark(parents, order, marks);
    let v = marks.iter().position(|x| *x == 0)?;
    Some(Node(v as u32))
}

// Marks the entries of the preorder.
fn mark(parents: &[u32], order: &[u32], marks: &mut [u32])
    requires { (length parents.now ≤ most_entries) × (order.now ≡ forest.order parents.now) × (length marks.old ≡ length parents.now) }
    ensures { Marked parents.now marks.new }
{
    marks.fill(0);
    for v in order {
        marks[*v as usize] = 1;
    }
}
