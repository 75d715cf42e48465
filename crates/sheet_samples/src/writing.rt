// The text of a sheet's lines: each number with no leading zeros, but for one field that may have another form.
ghost use Rattle.std.specs.Prelude.{◌≡◌};

use plain_sheets::line_words::{CLASS, FROM, RATE, TO, part};
use samples::seeds::{next, pick};

// The form of a field: a plain number, digits of another number or too many or too few of them, or a byte more before the number or behind it.
#[derive(Clone, Copy)]
pub(crate) enum Form {
    Plain,
    Padded,
    Eleven,
    NoDigits,
    OverWord,
    Before(u8),
    Behind(u8),
}

impl Form {
    fn before(self) -> Option<u8> {
        match self {
            Form::Before(b) => Some(b),
            _ => None,
        }
    }

    fn behind(self) -> Option<u8> {
        match self {
            Form::Behind(b) => Some(b),
            _ => None,
        }
    }

    // How many digits of x it writes.
    fn width(self, x: usize) -> usize {
        match self {
            Form::Padded | Form::OverWord => 10,
            Form::Eleven => 11,
            Form::NoDigits => 0,
            _ => digits(x),
        }
    }

    // The least number over a word, or x.
    fn value(self, x: usize) -> usize {
        match self {
            Form::OverWord => 4294967296,
            _ => x,
        }
    }
}

// A field of a line, and its form.
#[derive(Clone, Copy)]
pub(crate) struct Odd {
    pub(crate) line: usize,
    pub(crate) field: usize,
    pub(crate) form: Form,
}

// The number of x's digits.
fn digits(x: usize) -> usize {
    x.checked_ilog10()
        .map_or(1, |power| (power as usize).saturating_add(1))
}

// A byte behind so many; each of these answers how many bytes there are then, since no text can grow without a heap.
pub(crate) fn byte(text: &mut [u8], at: usize, b: u8) -> usize {
    if at < text.len() {
        text[at] = b;
    }
    at.wrapping_add(1)
}

fn some_byte(text: &mut [u8], at: usize, b: Option<u8>) -> usize {
    match b {
        Some(b) => byte(text, at, b),
        None => at,
    }
}

// The last `width` digits of x.
fn number(text: &mut [u8], at: usize, width: usize, x: usize) -> usize {
    let mut rest = x;
    for i in (0..width).rev() {
        byte(text, at.wrapping_add(i), b'0' + (rest % 10) as u8);
        rest /= 10;
    }
    at.wrapping_add(width)
}

// A number in its form, and the byte that ends its field.
fn field(text: &mut [u8], at: usize, x: usize, form: Form, end: u8) -> usize {
    let first = some_byte(text, at, form.before());
    let last = number(text, first, form.width(x), form.value(x));
    let more = some_byte(text, last, form.behind());
    byte(text, more, end)
}

// The form of a line's field.
fn form_of(line: usize, which: usize, odd: Option<Odd>) -> Form {
    match odd {
        Some(odd) if odd.line == line && odd.field == which => odd.form,
        _ => Form::Plain,
    }
}

fn write_line(text: &mut [u8], at: usize, lines: &[u32], line: usize, odd: Option<Odd>) -> usize {
    let mut next = at;
    for (which, end) in [(CLASS, b','), (FROM, b','), (TO, b','), (RATE, b'\n')] {
        let x = part(lines, line, which);
        next = field(text, next, x, form_of(line, which, odd), end);
    }
    next
}

// A prime above every number of lines: steps of one length among so many places come to each of them once.
const PLACES: usize = 4099;

// The line of a place, where it is one of m.
fn some_line(
    text: &mut [u8],
    at: usize,
    lines: &[u32],
    m: usize,
    line: usize,
    odd: Option<Odd>,
) -> usize
    ensures { m ≡ 0 → result ≡ at }
{
    if m <= line {
        return at;
    }
    write_line(text, at, lines, line, odd)
}

// The text of m lines, in an order that the seed gives.
pub(crate) fn write(
    text: &mut [u8],
    lines: &[u32],
    m: usize,
    odd: Option<Odd>,
    seed: usize,
) -> usize
    ensures { m ≡ 0 → result ≡ 0 }
{
    let step = pick(seed, 4098).wrapping_add(1);
    let mut place = pick(next(seed), PLACES);
    let mut at = 0;
    for _ in 0..PLACES {
        at = some_line(text, at, lines, m, place, odd);
        place = place.wrapping_add(step) % PLACES;
    }
    at
}
