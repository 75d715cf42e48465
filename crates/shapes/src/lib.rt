// The shape table: where the climbs within a small group lead. And the number of a shape.
#![tactic(auto)]

mod numbering;
mod packed;

ghost use Rattle.std.specs.Prelude.{◌≡◌, ◌<◌};
ghost use Rattle.base.specs.Limits.{group_limit};
ghost use Rattle.shapes.specs.Climbs.{row_of, rows_of, Rule};
ghost use Rattle.shapes.specs.Packed.{cell_in, out_in, Packs};

use base::limits::{GROUP_LIMIT, LOCAL_NUMBERS, LOCAL_SPAN, NO_LOCAL};
pub use numbering::number;
use packed::{OUT_SPAN, PATH_SPAN, byte, climbs_along, field, fields};

// A shape's part of the shape table: a row of seven climbs (0 to 6) for each of seven local numbers, 255 where there is none. There are 197 shapes; any other
// number has only 255.
pub fn rows(shape: u32) -> [[u8; LOCAL_NUMBERS]; LOCAL_NUMBERS]
    ensures table { result ≡ rows_of group_limit shape }
    ensures rule { Rule group_limit shape result }
{
    let mut rows = [[NO_LOCAL; LOCAL_NUMBERS]; LOCAL_NUMBERS];
    for (local, cells) in rows.iter_mut().enumerate() {
        *cells = row(shape, local as u32);
    }
    rows
}

// The row of climbs of one local number of a shape, for every number of either.
pub fn row(shape: u32, local: u32) -> [u8; LOCAL_NUMBERS]
    ensures { result ≡ row_of group_limit shape local }
{
    let climbs = climbs_of(shape, local);
    let mut row = [NO_LOCAL; LOCAL_NUMBERS];
    for (k, cell) in row.iter_mut().enumerate() {
        *cell = climbs.reached(k as u32);
    }
    row
}

// The field of one local number in its shape's word: a lookup takes one cell of the row by it without building the row.
#[derive(Clone, Copy)]
pub struct Climbs(pub u32);

// The field of one local number of a shape, for every number of either. A field of 0 stands for none, as `out_in` and `Packs` promise.
pub fn climbs_of(shape: u32, local: u32) -> Climbs
    ensures { Packs shape local result.0 }
{
    if LOCAL_SPAN <= local {
        return Climbs(0);
    }
    Climbs(field(fields(shape), local))
}

impl Climbs {
    // The local number that so many climbs reach, 255 where there is none: no Option, since the shape table's cells are promised (`cell_in`, `Packs`; docs/DEMANDS).
    pub fn reached(self, climbs: u32) -> u8
        ensures { result ≡ cell_in self.0 climbs }
    {
        if GROUP_LIMIT <= climbs {
            return NO_LOCAL;
        }
        if self.out() == 0 {
            return NO_LOCAL;
        }
        let path = ((self.0 / OUT_SPAN) % PATH_SPAN) as u8;
        byte(climbs_along(path), climbs)
    }

    // How many climbs lead out of the group, 0 where the shape has no such local number: no Option, since the field's digit is promised (`out_in`, `Packs`).
    pub fn out(self) -> u32
        ensures { result ≡ out_in self.0 }
    {
        self.0 % OUT_SPAN
    }
}
