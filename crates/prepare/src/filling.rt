// The table of a list that forms one tree: its sections, each lent on as a part of it.
ghost use Rattle.std.specs.Prelude.{◌≡◌, length};
ghost use Rattle.base.specs.Limits.{table_words};
ghost use Rattle.table.specs.Table.{table_of};
ghost use Rattle.prepare.specs.Stages.{Walked};

use crate::measure::{above, measures};
use crate::order::Preorder;
use crate::records::jump_section;
use crate::sections::{header_cells, sections};

// The table of a list, from its preorder and its depths in the first two regions of the space. The other regions have a word for each position too: the sizes,
// the positions of the entries above, the heights and the positions of the long children. The positions on a climb stand before the heights in their place;
// LADPOS by position, and then the list of the jump entries, take that of the sizes.
pub(crate) fn fill_table(parents: &[u32], table: &mut [u32], space: &mut [u32])
    requires { Walked parents.now space.old × (length table.old ≡ table_words (length parents.now)) }
    ensures { table.new ≡ table_of parents.now }
{
    let n = parents.len();
    let (order, space) = space.split_at_mut(n);
    let (depths, space) = space.split_at_mut(n);
    let (sizes, space) = space.split_at_mut(n);
    let (aboves, space) = space.split_at_mut(n);
    let (heights, longs) = space.split_at_mut(n);
    above(parents, depths, aboves, heights);
    measures(parents, aboves, sizes, heights, longs);
    let tree = Preorder {
        parents,
        order,
        depths,
        aboves,
    };
    let counts = sections(tree, sizes, heights, longs, table);
    jump_section(tree, counts.jumps, sizes, table);
    header_cells(n, counts, table);
}
