// KIND.
ghost use Rattle.std.specs.Prelude.{◌≡◌, length};
ghost use Rattle.base.specs.Limits.{group_limit};
ghost use Rattle.base.specs.Lists.{below};
ghost use Rattle.table.specs.Groups.{group_roots, jump_nodes, kind};
ghost use Rattle.prepare.specs.Arrays.{sizes_of};

use crate::order::Preorder;
use base::limits::{GROUP_LIMIT, LOCAL_SPAN, MICRO_MARK};
use base::{Node, Position};

// How many groups there are, and how many jump entries.
#[derive(Clone, Copy)]
pub(crate) struct KindCounts {
    pub(crate) groups: u32,
    pub(crate) jumps: u32,
}

// KIND, each word in its entry's cell. A position of size 7 or less starts a group just where the last one has ended. The last position of a size over 7 is a
// jump entry's just where the next such position lies past its family.
pub(crate) fn kinds(tree: Preorder, sizes: &[u32], cells: &mut [u32]) -> KindCounts
    requires { (sizes.now ≡ sizes_of tree.parents.now) × (length cells.old ≡ length tree.parents.now) }
    ensures counts { (result.groups ≡ length (group_roots group_limit tree.entry.parents.now)) × (result.jumps ≡ length (jump_nodes group_limit tree.entry.parents.now)) }
    ensures laid { cells.new ≡ below (length tree.entry.parents.now) (kind group_limit tree.entry.parents.now) }
{
    let mut groups: u32 = 0;
    let mut jumps: u32 = 0;
    let mut root = Position(0);
    let mut end = Position(0);
    let mut last = Position(0);
    for (i, v) in tree.order.iter().enumerate() {
        let at = Position(i as u32);
        let v = Node(*v);
        let entries = sizes[i];
        if entries <= GROUP_LIMIT {
            if end.0 <= at.0 {
                groups += 1;
                root = at;
                end = Position(at.0 + entries);
            }
            cells[v.0 as usize] = MICRO_MARK + LOCAL_SPAN * (groups - 1) + (at.0 - root.0);
        } else {
            if last.0 + sizes[last.0 as usize] <= at.0 {
                jumps += 1;
            }
            cells[v.0 as usize] = jumps;
            last = at;
        }
    }
    if GROUP_LIMIT < sizes[0] {
        jumps += 1;
    }
    KindCounts { groups, jumps }
}
