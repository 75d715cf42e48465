// Ancestry and branch.
ghost use Rattle.std.specs.Prelude.{◌+◌, ◌<◌, ◌≤◌};

use crate::cells::Cells;
use crate::steps::look;
use crate::table::{Table, below, entries};
use crate::walking::Walk;
use samples::refusals::Refusal;

// Whether u is at or above v: PRE u ≤ PRE v < PRE u + SIZE u.
fn related(table: &[u32], u: usize, v: usize, cells: &mut Cells) -> Result<bool, Refusal>
    ensures { cells.new.count ≤ cells.old.count + 4 }
{
    let t = Table::open(table, cells)?;
    let u = t.known(u)?;
    let v = t.known(v)?;
    let pre = t.read(4 + 4 * t.n + u, cells);
    let size = t.read(4 + 5 * t.n + u, cells);
    let other = t.read(4 + 4 * t.n + v, cells);
    Ok(pre <= other && other < pre + size)
}

// The level lookup of v one deeper than u, whose DEPTH is read first. An 8 of it is given as 9.
fn deeper(
    table: &[u32],
    strings: &[u32],
    u: usize,
    v: usize,
    cells: &mut Cells,
) -> Result<usize, Refusal>
    requires { u < 4294967296 }
    ensures { cells.new.count ≤ cells.old.count + 11 }
{
    let word = cells.read(table, 4 + u);
    let n = entries(table).ok_or(Refusal::Broken)?;
    let depth = below(word, n)?;
    match look(table, strings, v, depth + 1, cells) {
        Err(Refusal::TooDeep(_)) => Err(Refusal::Broken),
        found => found,
    }
}

// The child of u on the way to v.
fn child(
    table: &[u32],
    strings: &[u32],
    u: usize,
    v: usize,
    cells: &mut Cells,
) -> Result<usize, Refusal>
    requires { u < 4294967296 }
    ensures { cells.new.count ≤ cells.old.count + 15 }
{
    if !related(table, u, v, cells)? || u == v {
        return Err(Refusal::NotAbove(u));
    }
    deeper(table, strings, u, v, cells)
}

// Whether u is at or above v.
pub fn ancestry(table: &[u32], u: u32, v: u32) -> Walk
    ensures { result.count ≤ 4 }
{
    let mut cells = Cells::new();
    let found = related(table, u as usize, v as usize, &mut cells);
    Walk::end(cells, found.map(|yes| usize::from(yes)))
}

// The child of u on the way to v. `strings` has the shapes.
pub fn branch(table: &[u32], strings: &[u32], u: u32, v: u32) -> Walk
    ensures { result.count ≤ 15 }
{
    let mut cells = Cells::new();
    let found = child(table, strings, u as usize, v as usize, &mut cells);
    Walk::end(cells, found)
}
