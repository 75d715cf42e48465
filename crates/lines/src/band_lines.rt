// A line of a sheet with bands, read in one pass over its bytes.
ghost use Rattle.std.specs.Prelude.{◌<◌};
ghost use Rattle.lines.specs.Results.{FieldAt, BandAt};

use crate::reading::MOST_DIGITS;
use base::Node;

// The band that a line states: a class, its first amount and its last, and their rate.
#[derive(Clone, Copy, PartialEq, Eq)]
pub struct Band {
    pub class: Node,
    pub from: u32,
    pub to: u32,
    pub rate: u32,
}

// The line `class,from,to,rate` that begins at a place of a text, and the place behind the line feed that ends it.
pub fn read_band(text: &[u8], at: usize) -> Option<(Band, usize)>
    ensures { BandAt text.now at result }
{
    let (class, at) = read_field(text, at, b',')?;
    let (from, at) = read_field(text, at, b',')?;
    let (to, at) = read_field(text, at, b',')?;
    let (rate, at) = read_field(text, at, b'\n')?;
    let class = Node(class);
    let band = Band {
        class,
        from,
        to,
        rate,
    };
    Some((band, at))
}

// The number of one to ten digits that begins at a place of a text and ends in a stated byte below the digits, and the place behind that.
fn read_field(text: &[u8], at: usize, end: u8) -> Option<(u32, usize)>
    requires { end < 48 }
    ensures { FieldAt text.now end at result }
{
    let mut value: u64 = 0;
    for (digits, b) in text.get(at..)?.iter().enumerate() {
        if !b.is_ascii_digit() {
            if *b != end || digits == 0 {
                return None;
            }
            return Some((u32::try_from(value).ok()?, at + digits + 1));
        }
        if digits == MOST_DIGITS {
            return None;
        }
        value = 10 * value + u64::from(*b - b'0');
    }
    None
}
