// The sections of the table, each lent on as a part of it.
ghost use Rattle.std.specs.Prelude.{◌≡◌, [], ◌∷◌, ◌≤◌, length};
ghost use Rattle.base.specs.Lists.{put};
ghost use Rattle.base.specs.Limits.{table_words, group_limit, most_entries, header_of};
ghost use Rattle.tree.specs.Forest.{height};
ghost use Rattle.table.specs.Groups.{group_roots, jump_nodes};
ghost use Rattle.table.specs.Ladders.{path_tops};
ghost use Rattle.prepare.specs.Arrays.{by_position, sizes_of, long_position};
ghost use Rattle.prepare.specs.Stages.{Sectioned};

use crate::grouping::groups;
use crate::kinds::kinds;
use crate::laying::paths;
use crate::order::Preorder;
use crate::places::{GROUP_WORDS, HEADER_CELLS, LADDER_WORDS};
use crate::spread::{copy, positions, scatter};
use base::limits::header_of;

// The groups, the jump entries and the long paths.
#[derive(Clone, Copy)]
pub(crate) struct Counts {
    pub(crate) groups: u32,
    pub(crate) jumps: u32,
    pub(crate) paths: u32,
}

// The sections between the header and JUMPS, from the arrays by position. The sizes stand beside `tree`, since LADPOS by position is laid over them. That the table
// has W words is a clause: a type that holds a `&mut` keeps no fact of what it lends.
pub(crate) fn sections(
    tree: Preorder,
    sizes: &mut [u32],
    heights: &[u32],
    longs: &[u32],
    table: &mut [u32],
) -> Counts
    requires arrays { (sizes.old ≡ sizes_of tree.parents.now) × (heights.now ≡ by_position tree.parents.now (height tree.parents.now)) × (longs.now ≡ by_position tree.parents.now (long_position tree.parents.now)) }
    requires room { length table.old ≡ table_words (length tree.parents.now) }
    ensures groups { result.groups ≡ length (group_roots group_limit tree.entry.parents.now) }
    ensures jumps { result.jumps ≡ length (jump_nodes group_limit tree.entry.parents.now) }
    ensures paths { result.paths ≡ length (path_tops tree.entry.parents.now) }
    ensures laid { Sectioned tree.entry.parents.now table.new }
{
    let n = tree.parents.len();
    let (_, table) = table.split_at_mut(HEADER_CELLS);
    let (depth, table) = table.split_at_mut(n);
    let (kind, table) = table.split_at_mut(n);
    let (ladpos, table) = table.split_at_mut(n);
    let (order, table) = table.split_at_mut(n);
    let (pre, table) = table.split_at_mut(n);
    let (size, table) = table.split_at_mut(n);
    let (ladders, table) = table.split_at_mut(LADDER_WORDS * n);
    let (group, _) = table.split_at_mut(GROUP_WORDS * n);
    let numbered = kinds(tree, sizes, kind);
    scatter(tree, sizes, size);
    groups(tree, sizes, group);
    let paths = paths(tree, heights, longs, sizes, ladders);
    scatter(tree, sizes, ladpos);
    scatter(tree, tree.depths, depth);
    copy(tree.order, order);
    positions(tree, pre);
    Counts {
        groups: numbered.groups,
        jumps: numbered.jumps,
        paths,
    }
}

// Cells 0 to 3, for n entries.
pub(crate) fn header_cells(n: usize, counts: Counts, table: &mut [u32])
    requires { (n ≤ most_entries) × (4 ≤ length table.old) }
    ensures { table.new ≡ put table.old 0 (header_of n ∷ counts.jumps ∷ counts.groups ∷ counts.paths ∷ []) }
{
    let cells = [
        header_of(n as u32) as u32,
        counts.jumps,
        counts.groups,
        counts.paths,
    ];
    table[..HEADER_CELLS].copy_from_slice(&cells);
}
