// The text of a sheet of each kind, from a seed. Each function that is public takes a kind by the number of its line, as its clauses do.
ghost use Rattle.std.specs.Prelude.{◌≡◌};
ghost use Rattle.sheet_samples.specs.declared.kinds.Kind.TheVariants.{Empty, EmptyBelow};

use crate::kinds::Kind;
use crate::laying::Lines;
use crate::writing::{Form, Odd, byte, write};
use plain_sheets::classes::Classes;
use plain_sheets::line_words::{CLASS, RATE};
use samples::seeds::{next, pick};

// One of two.
fn either(a: Form, b: Form, seed: usize) -> Form {
    if pick(seed, 2) == 0 { a } else { b }
}

// The form that one field has; blanks, signs and line feeds have two each.
fn form_of(kind: Kind, seed: usize) -> Form {
    match kind {
        Kind::TenDigits => Form::Padded,
        Kind::ElevenDigits => Form::Eleven,
        Kind::NoDigits => Form::NoDigits,
        Kind::OverWord => Form::OverWord,
        Kind::Return => Form::Behind(b'\r'),
        Kind::Blank => either(Form::Before(b' '), Form::Behind(b' '), seed),
        Kind::Sign => either(Form::Before(b'-'), Form::Before(b'+'), seed),
        Kind::Comma => Form::Behind(b','),
        Kind::Feed => either(Form::Before(b'\n'), Form::Behind(b'\n'), seed),
        _ => Form::Plain,
    }
}

// Which field that is: every other time the last.
fn field_of(seed: usize) -> usize {
    if pick(seed, 2) == 0 {
        return RATE;
    }
    pick(next(seed), 4)
}

fn odd_of(kind: Kind, m: usize, seed: usize) -> Odd {
    Odd {
        line: pick(seed, m),
        field: field_of(next(seed)),
        form: form_of(kind, next(next(next(seed)))),
    }
}

// A byte of a text, or one that no line has.
fn any_byte(seed: usize) -> u8 {
    match pick(seed, 8) {
        0 => b',',
        1 => b'\n',
        2 => b'0',
        3 => b'9',
        4 => b'/',
        5 => b':',
        6 => 0,
        _ => 255,
    }
}

// The text of so many bytes, changed as a kind wants it. Answers how many bytes it has then.
fn change(kind: Kind, text: &mut [u8], count: usize, seed: usize) -> usize
    ensures empty { kind ≡ Empty → result ≡ 0 }
    ensures empty_below { kind ≡ EmptyBelow → result ≡ 0 }
{
    match kind {
        Kind::Empty | Kind::EmptyBelow => 0,
        Kind::NoFeed | Kind::OverfullCut => count.saturating_sub(1),
        Kind::Cut => pick(seed, count),
        Kind::Changed => {
            byte(text, pick(seed, count), any_byte(next(seed)));
            count
        }
        Kind::FullByte => byte(text, count, any_byte(seed)),
        _ => count,
    }
}

// The lines of a sheet of a kind. One kind leaves out the class of a line that it has at first.
fn lay_lines(kind: Kind, lines: &mut Lines, classes: Classes, seed: usize) {
    let total = kind.total();
    lines.make(total, classes, None, seed);
    if kind == Kind::LeftOut {
        let class = lines.part(pick(seed, lines.count), CLASS);
        lines.make(total, classes, Some(class), seed);
    }
    lines.spoil(kind, classes, next(seed));
}

// The text of a sheet of a kind, for classes. Answers how many bytes it has.
pub fn make_text(kind: usize, text: &mut [u8], classes: Classes, seed: usize) -> usize
    ensures { (kind ≡ 25 → result ≡ 0) × (kind ≡ 26 → result ≡ 0) }
{
    let kind = Kind::at(kind);
    let mut lines = Lines::new();
    lay_lines(kind, &mut lines, classes, seed);
    let odd = odd_of(kind, lines.count, next(next(seed)));
    let count = write(text, &lines.words, lines.count, Some(odd), seed);
    change(kind, text, count, next(seed))
}

// The text of m lines as they are, in an order that the seed gives; the clause names m beside the words. Answers how many bytes it has.
pub fn write_lines(text: &mut [u8], lines: &[u32], m: usize, seed: usize) -> usize
    ensures { m ≡ 0 → result ≡ 0 }
{
    write(text, lines, m, None, seed)
}
