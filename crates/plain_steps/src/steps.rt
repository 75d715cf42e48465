// The level lookup, step by step.
ghost use Rattle.std.specs.Prelude.{◌+◌, ◌<◌, ◌≤◌};

use crate::cells::Cells;
use crate::local::{local_ancestor, local_depth};
use crate::power::largest;
use crate::table::{Table, below};
use crate::walking::Walk;
use samples::refusals::Refusal;
use samples::words::get;

// From here on a KIND is that of a micro entry.
const MICRO: usize = 2147483648;

impl<'a> Table<'a> {
    // The end of step 4: from w, with so many climbs still missing.
    fn land(&self, w: usize, missing: usize, cells: &mut Cells) -> Result<usize, Refusal>
        requires { w < self.now.n }
        ensures { cells.new.count ≤ cells.old.count + 2 }
    {
        let place = self.read(4 + 2 * self.n + w, cells);
        let index = place.checked_sub(missing).ok_or(Refusal::Broken)?;
        let rung = below(index, 2 * self.n)?;
        below(self.read(4 + 6 * self.n + rung, cells), self.n)
    }

    // Step 4 from a jump entry, by its number.
    fn jump(&self, number: usize, d: usize, cells: &mut Cells) -> Result<usize, Refusal>
        ensures { cells.new.count ≤ cells.old.count + 4 }
    {
        let j = below(number, self.n / 8)?;
        let first = 4 + 11 * self.n + 21 * j;
        let depth = below(self.read(first, cells), self.n)?;
        if depth <= d {
            return Err(Refusal::Broken);
        }
        let far = depth - d;
        let leap = largest(far);
        let w = below(self.read(first + 1 + leap.exponent, cells), self.n)?;
        self.land(w, far - leap.value, cells)
    }

    // Step 3 where the climb ends in the group: ORDER at the group's position plus a local number.
    fn in_group(&self, first: usize, local: usize, cells: &mut Cells) -> Result<usize, Refusal>
        requires { (first < 4294967296) × (local < 8) }
        ensures { cells.new.count ≤ cells.old.count + 2 }
    {
        let index = below(self.read(first, cells) + local, self.n)?;
        below(self.read(4 + 3 * self.n + index, cells), self.n)
    }

    // Step 3 where it does not: the group's parent, at the depth `above`.
    fn over_group(
        &self,
        first: usize,
        above: usize,
        d: usize,
        cells: &mut Cells,
    ) -> Result<usize, Refusal>
        requires { first < 4294967296 }
        ensures { cells.new.count ≤ cells.old.count + 6 }
    {
        let p = below(self.read(first + 2, cells), self.n)?;
        if above == d {
            return Ok(p);
        }
        let kind = self.read(4 + self.n + p, cells);
        self.jump(below(kind, MICRO)?, d, cells)
    }

    // Step 3 from a micro entry of a depth, by the rest of its KIND.
    fn group(
        &self,
        strings: &[u32],
        rest: usize,
        depth: usize,
        d: usize,
        cells: &mut Cells,
    ) -> Result<usize, Refusal>
        requires { d < depth }
        ensures { cells.new.count ≤ cells.old.count + 7 }
    {
        let g = below(rest / 8, self.n)?;
        let local = rest % 8;
        let first = 4 + 8 * self.n + 3 * g;
        let shape = below(self.read(first + 1, cells), 197)?;
        let string = get(strings, shape);
        let k = local_depth(string, local).ok_or(Refusal::Broken)?;
        let far = depth - d;
        if far <= k {
            let reached = local_ancestor(string, local, k - far);
            return self.in_group(first, reached, cells);
        }
        self.over_group(first, depth - k - 1, d, cells)
    }
}

// Steps 1 to 4 for v and d, behind what was read before.
pub(crate) fn look(
    table: &[u32],
    strings: &[u32],
    v: usize,
    d: usize,
    cells: &mut Cells,
) -> Result<usize, Refusal>
    ensures { cells.new.count ≤ cells.old.count + 10 }
{
    let t = Table::open(table, cells)?;
    let v = t.known(v)?;
    let depth = below(t.read(4 + v, cells), t.n)?;
    if depth < d {
        return Err(Refusal::TooDeep(v));
    }
    if depth == d {
        return Ok(v);
    }
    let kind = t.read(4 + t.n + v, cells);
    match kind.checked_sub(MICRO) {
        Some(rest) => t.group(strings, rest, depth, d, cells),
        None => t.jump(kind, d, cells),
    }
}

// The level lookup of v at depth d.
fn walked(table: &[u32], strings: &[u32], v: usize, d: usize) -> Walk
    ensures { result.count ≤ 10 }
{
    let mut cells = Cells::new();
    let found = look(table, strings, v, d, &mut cells);
    Walk::end(cells, found)
}

// The level lookup of v at depth d. `strings` has the shapes.
pub fn level(table: &[u32], strings: &[u32], v: u32, d: u32) -> Walk
    ensures { result.count ≤ 10 }
{
    walked(table, strings, v as usize, d as usize)
}

// The rating lookup: the level lookup at the rating level, or at the entry's own depth where that is less.
pub fn rating(table: &[u32], strings: &[u32], v: u32, d: u32) -> Walk
    ensures { result.count ≤ 10 }
{
    let depth = get(table, 4 + v as usize);
    walked(table, strings, v as usize, depth.min(d as usize))
}

// Climbing k up from v: the level lookup at its depth less k, or, where k is more, at a depth that it does not have.
pub fn climb(table: &[u32], strings: &[u32], v: u32, k: u32) -> Walk
    ensures { result.count ≤ 10 }
{
    let depth = get(table, 4 + v as usize);
    let d = depth.checked_sub(k as usize).unwrap_or(depth + 1);
    walked(table, strings, v as usize, d)
}
