// The tree, its table and the level that a sheet is tried with, from a seed. Each function that is public takes a kind by the number of its line, as its clauses do.
ghost use Rattle.std.specs.Prelude.{◌≡◌, ◌≤◌};

use crate::kinds::Kind;
use samples::cases::{Case, GROWN, KINDS, case_at, count_at};
use samples::climbing::climbs;
use samples::seeds::{next, pick};
use samples::words::{TOP, put};

// Which of the lists: of any kind with up to 40 entries, or for the longest sheets with up to 512; or a small tree.
fn list_of(kind: Kind, line: usize, seed: usize) -> usize {
    if line == GROWN {
        pick(seed, count_at(GROWN))
    } else if kind.is_full() {
        pick(seed, 212)
    } else {
        pick(seed, 160)
    }
}

// The line of the lists that it is on: a kind of trees, or the small ones every other time.
fn line_of(kind: Kind, seed: usize) -> usize {
    if !kind.is_full() && pick(seed, 2) == 0 {
        return GROWN;
    }
    pick(next(seed), KINDS)
}

// A tree, whose list is left in `parents`.
pub fn tree(kind: usize, seed: usize, parents: &mut [u32]) -> Case
    ensures { result.n ≤ 512 }
{
    let kind = Kind::at(kind);
    let line = line_of(kind, seed);
    case_at(line, list_of(kind, line, next(next(seed))), parents)
}

// The level that the lines are for: that of an entry, or the one above it where a deeper entry is wanted.
pub fn level(kind: usize, parents: &[u32], n: usize, seed: usize) -> usize
    ensures { result ≤ n }
{
    let depth = climbs(parents, n, pick(next(seed.wrapping_add(1)), n));
    match Kind::at(kind) {
        Kind::Depth => depth.saturating_sub(1),
        _ => depth,
    }
}

// The next level nearer the top, or the second where d is the first.
fn nearer(d: usize) -> usize {
    d.checked_sub(1).unwrap_or(1)
}

// The level that is asked for: for some kinds one below every entry, or another than the lines are for.
pub fn asked_level(kind: usize, n: usize, d: usize, seed: usize) -> usize
    ensures { (kind ≡ 26 → ⊥) → (kind ≡ 27 → ⊥) → result ≡ d }
{
    match Kind::at(kind) {
        Kind::EmptyBelow => n.wrapping_add(pick(next(seed), 2)),
        Kind::OtherLevel => match pick(seed, 4) {
            0 => TOP,
            1 => d.wrapping_add(2),
            2 => d.wrapping_add(1),
            _ => nearer(d),
        },
        _ => d,
    }
}

// Cell 0 of no entries.
const HEADER: usize = 1073741824;

// A cell 0 that step 1 calls broken in a table of n entries: an older table's among them.
fn broken_count(n: usize, seed: usize) -> usize {
    match pick(seed, 6) {
        0 => 0,
        1 => n,
        2 => HEADER,
        3 => HEADER + 1048577,
        4 => TOP,
        _ => n.wrapping_add(1).wrapping_add(HEADER),
    }
}

// Breaks the table for the kind of broken ones: cell 0, or its length. Answers the length.
pub fn break_table(kind: usize, n: usize, t: usize, seed: usize, table: &mut [u32]) -> usize
    ensures { (kind ≡ 28 → ⊥) → result ≡ t }
{
    if Kind::at(kind) != Kind::Broken {
        return t;
    }
    match pick(seed, 4) {
        0 => pick(next(seed), 4),
        1 => t.saturating_sub(pick(next(seed), 5).wrapping_add(4)),
        _ => {
            put(table, 0, broken_count(n, next(seed)));
            t
        }
    }
}
