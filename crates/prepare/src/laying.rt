// LADPOS and LADDERS.
ghost use Rattle.std.specs.Prelude.{◌≡◌, false, ℕ, ◌+◌, ◌*◌, ◌≤◌, ◌<◌, min, length, get_or, set};
ghost use Rattle.base.specs.Limits.{most_entries};
ghost use Rattle.tree.specs.Parents.{depth};
ghost use Rattle.tree.specs.Forest.{height, path_top};
ghost use Rattle.table.specs.Ladders.{path_tops, lad_pos};
ghost use Rattle.table.specs.Table.{ladder_cells};
ghost use Rattle.prepare.specs.Arrays.{entry_at, by_position, long_position, Risen};

use crate::order::Preorder;
use base::Position;

// LADPOS by position, and LADDERS: each path's top behind all ladders so far and its own nearest ancestors, each other entry behind the one above, and zeros
// behind all. Hands back how many long paths there are.
pub(crate) fn paths(
    tree: Preorder,
    heights: &[u32],
    longs: &[u32],
    places: &mut [u32],
    cells: &mut [u32],
) -> u32
    requires paths { (heights.now ≡ by_position tree.parents.now (height tree.parents.now)) × (longs.now ≡ by_position tree.parents.now (long_position tree.parents.now)) }
    requires room { (length places.old ≡ length tree.parents.now) × (length cells.old ≡ 2 * length tree.parents.now) }
    ensures paths { result ≡ length (path_tops tree.entry.parents.now) }
    ensures places { places.new ≡ by_position tree.entry.parents.now (lad_pos tree.entry.parents.now) }
    ensures laid { cells.new ≡ ladder_cells tree.entry.parents.now }
{
    let mut paths: u32 = 0;
    let mut words: u32 = 0;
    for i in 0..heights.len() {
        let at = Position(i as u32);
        if path_top(tree, longs, at) {
            let own = top_place(tree, heights[i], at, words, cells);
            settle(tree, at, own, places, cells);
            words = own + heights[i];
            paths += 1;
        } else {
            let place = next_place(tree, places, at);
            settle(tree, at, place, places, cells);
        }
    }
    cells[words as usize..].fill(0);
    paths
}

// Whether a long path starts at a position.
fn path_top(tree: Preorder, longs: &[u32], at: Position) -> bool
    requires { (longs.now ≡ by_position tree.parents.now (long_position tree.parents.now)) × (at.0 < length tree.parents.now) }
    ensures { result ≡ path_top tree.entry.parents.now (entry_at tree.entry.parents.now at.0) }
{
    if at.0 == 0 {
        return true;
    }
    let over = Position(tree.aboves[at.0 as usize]);
    longs[over.0 as usize] != at.0
}

// The place of a path's top of that height, behind so many words and its nearest ancestors, which are written there.
fn top_place(tree: Preorder, high: u32, top: Position, words: u32, cells: &mut [u32]) -> u32
    requires { (high ≡ height tree.parents.now (entry_at tree.parents.now top.0)) × (words + min high (depth tree.parents.now (entry_at tree.parents.now top.0)) < length cells.old) × (top.0 < length tree.parents.now) × (length cells.old ≤ 2 * most_entries) }
    ensures place { result ≡ words + min high (depth tree.entry.parents.now (entry_at tree.entry.parents.now top.0)) }
    ensures written { Risen tree.entry.parents.now (entry_at tree.entry.parents.now top.0) result (min high (depth tree.entry.parents.now (entry_at tree.entry.parents.now top.0))) cells.old cells.new }
{
    let count = high.min(tree.depths[top.0 as usize]);
    let place = words + count;
    rise(tree, top, place, count, cells);
    place
}

// The nearest ancestors of the entry at a position, so many, into the words before a place.
fn rise(tree: Preorder, top: Position, place: u32, count: u32, cells: &mut [u32])
    requires { (count ≤ depth tree.parents.now (entry_at tree.parents.now top.0)) × (top.0 < length tree.parents.now) × (count ≤ place) × (place ≤ length cells.old) }
    ensures { Risen tree.entry.parents.now (entry_at tree.entry.parents.now top.0) place count cells.old cells.new }
{
    let mut at = top;
    for cell in (place - count..place).rev() {
        at = Position(tree.aboves[at.0 as usize]);
        cells[cell as usize] = tree.order[at.0 as usize];
    }
}

// The place of an entry that its path goes on to, behind that of the entry above.
fn next_place(tree: Preorder, places: &[u32], at: Position) -> u32
    requires { (path_top tree.parents.now (entry_at tree.parents.now at.0) ≡ false) × ((k : ℕ) → k < at.0 → get_or places.now k 0 ≡ lad_pos tree.parents.now (entry_at tree.parents.now k)) × (at.0 < length tree.parents.now) × (length places.now ≡ length tree.parents.now) }
    ensures { result ≡ lad_pos tree.entry.parents.now (entry_at tree.entry.parents.now at.0) }
{
    let over = Position(tree.aboves[at.0 as usize]);
    places[over.0 as usize] + 1
}

// The entry at a position into its place, and the place into the position's word.
fn settle(tree: Preorder, at: Position, place: u32, places: &mut [u32], cells: &mut [u32])
    requires { (at.0 < length tree.parents.now) × (length places.old ≡ length tree.parents.now) × (place < length cells.old) }
    ensures { (places.new ≡ set places.old at.0 place) × (cells.new ≡ set cells.old place (entry_at tree.entry.parents.now at.0)) }
{
    cells[place as usize] = tree.order[at.0 as usize];
    places[at.0 as usize] = place;
}
