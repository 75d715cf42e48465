// The lines of a sheet in words, four to a line: class, from, to and rate. `part` and `set_part` take a field by its number, as their clauses do.
ghost use Rattle.std.specs.Prelude.{◌≡◌, ◌+◌, ◌*◌, ◌%◌, ◌≤◌, get_or, set};
ghost use Rattle.samples.specs.Words.{narrowed};

use samples::words::{get, put};

pub const CLASS: usize = 0;

pub const FROM: usize = 1;

pub const TO: usize = 2;

pub const RATE: usize = 3;

pub const MOST_LINES: usize = 4096;

// The words of the longest sheet that is tried, with lines to spare.
pub const ROOM: usize = 16416;

// The place of a line's field.
fn place(line: usize, field: usize) -> usize
    ensures { result ≡ line % 8192 * 4 + field % 4 }
{
    line % 8192 * 4 + field % 4
}

pub fn part(lines: &[u32], line: usize, field: usize) -> usize
    ensures { (result ≡ get_or lines.now (line % 8192 * 4 + field % 4) 0) × (result ≤ 4294967295) }
{
    get(lines, place(line, field))
}

pub fn set_part(lines: &mut [u32], line: usize, field: usize, x: usize)
    ensures { lines.new ≡ set lines.old (line % 8192 * 4 + field % 4) (narrowed x) }
{
    put(lines, place(line, field), x);
}
