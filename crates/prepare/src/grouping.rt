// GROUPS.
ghost use Rattle.std.specs.Prelude.{◌≡◌, ◌*◌, ◌<◌, length};
ghost use Rattle.std.proofs.Math.Option.{get_or};
ghost use Rattle.base.specs.Limits.{top_mark};
ghost use Rattle.tree.specs.Parents.{parent};
ghost use Rattle.table.specs.Table.{group_cells};
ghost use Rattle.prepare.specs.Arrays.{entry_at, sizes_of};

use crate::order::Preorder;
use crate::places::GROUP_WORDS;
use base::Position;
use base::limits::{GROUP_LIMIT, TOP_MARK};

// GROUPS: each group's position, shape and parent, in preorder, and zeros behind. A position of size 7 or less, past the groups before it, starts the next: no `for`, since
// the step is a group's size.
pub(crate) fn groups(tree: Preorder, sizes: &[u32], cells: &mut [u32])
    requires { (sizes.now ≡ sizes_of tree.parents.now) × (length cells.old ≡ 3 * length tree.parents.now) }
    ensures { cells.new ≡ group_cells tree.entry.parents.now }
{
    let mut cell: usize = 0;
    let mut next = Position(0);
    while (next.0 as usize) < sizes.len() {
        let at = next;
        let entries = sizes[at.0 as usize];
        if entries <= GROUP_LIMIT {
            cells[cell] = at.0;
            cells[cell + 1] = shapes::number(tree.depths, at, entries as usize);
            cells[cell + 2] = parent_word(tree, at);
            cell += GROUP_WORDS;
            next = Position(at.0 + entries);
        } else {
            next = Position(at.0 + 1);
        }
    }
    cells[cell..].fill(0);
}

// The entry above the one at a position, or the top mark: no `Option`, since it is a word of the table.
fn parent_word(tree: Preorder, at: Position) -> u32
    requires { at.0 < length tree.parents.now }
    ensures { result ≡ get_or (parent tree.entry.parents.now (entry_at tree.entry.parents.now at.0)) top_mark }
{
    if at.0 == 0 {
        return TOP_MARK;
    }
    let over = Position(tree.aboves[at.0 as usize]);
    tree.order[over.0 as usize]
}
