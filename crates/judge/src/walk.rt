// The preorder of what hangs from the top, with the depth of each entry.
ghost use Rattle.std.specs.Prelude.{◌≡◌, ◌≤◌, length};
ghost use Rattle.base.specs.Limits.{most_entries};
ghost use Rattle.base.specs.Lists.{view};
ghost use Rattle.tree.specs.Forest as forest;
ghost use Rattle.judge.specs.Regions.{Linked};

use base::Node;

// The preorder and the depths; hands back how many entries there are. The loop goes along the chains, by no index.
// `pending` holds the pending chains of later siblings, the latest first, up to its end: as many as the current entry has entries above it.
pub(crate) fn walk(
    parents: &[u32],
    first: Node,
    heads: &[u32],
    nexts: &[u32],
    pending: &mut [u32],
    order: &mut [u32],
    depths: &mut [u32],
) -> usize
    requires few { length parents.now ≤ most_entries }
    requires linked { Linked parents.now 0 heads.now nexts.now first.0 }
    requires chains { (length heads.now ≡ length parents.now) × (length nexts.now ≡ length parents.now) }
    requires room { (length pending.old ≡ length parents.now) × (length order.old ≡ length parents.now) × (length depths.old ≡ length parents.now) }
    ensures { (result ≡ length (forest.order parents.now)) × (view 0 result order.new ≡ forest.order parents.now) × (view 0 result depths.new ≡ forest.levels 0 (forest.whole parents.now)) }
{
    let n = parents.len();
    let mut count = 0;
    let mut sp = n;
    let mut cur = first;
    loop {
        if (cur.0 as usize) < n {
            // Both words are read before any is stored: judging else takes 1.2 times as long.
            let next = Node(nexts[cur.0 as usize]);
            let child = Node(heads[cur.0 as usize]);
            order[count] = cur.0;
            depths[count] = (n - sp) as u32;
            count += 1;
            sp -= 1;
            pending[sp] = next.0;
            cur = child;
        } else {
            if sp == n {
                return count;
            }
            cur = Node(pending[sp]);
            sp += 1;
        }
    }
}
