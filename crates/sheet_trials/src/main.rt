// Tries the check of sheets with bands and the questions with them: sheets of every kind of fault, and without one, for the levels of many trees. Each answer
// is held to a plain reading of the text, a plain count of the lines that hold each amount where that count can change, a plain climb of the parent list and
// plain arithmetic; and the cells to those of the printed steps.
#![tactic(auto)]

mod asking;
mod kinds;
mod printed;
mod questions;

use crate::asking::{check, check_into};
use crate::kinds::{count_of, number_of};
use crate::printed::say;
use crate::questions::Sheet;
use plain_sheets::classes::Classes;
use plain_sheets::judging;
use plain_sheets::line_words::ROOM;
use plain_steps::shape_strings;
use samples::refusals::{Refusal, numbers};
use samples::seeds::next;
use samples::tally::Tally;
use samples::words::narrow;
use sheet_samples::kinds::{KINDS, Kind};
use sheet_samples::texts::make_text;
use sheet_samples::trees::{asked_level, break_table, level, tree};
use sheets::SHEET_WORDS;
use std::io;

// What stands in the words for a checked sheet before.
const WORD: u64 = 18446744073709551557;

// The table of a list. So in each of the programs, which share no crate above the engine.
fn lay(parents: &[u32], table: &mut [u32]) {
    let mut space = [0u32; 3075];
    let _ = prepare::prepare(parents, table, &mut space);
}

// What the check is to answer.
fn wanted(kind: Kind, text: &[u8], lines: &mut [u32], classes: Classes) -> Result<usize, Refusal> {
    match kind {
        Kind::Broken => Err(Refusal::Broken),
        _ => judging::check(text, lines, classes),
    }
}

// Whether a kind of sheets has the answer that it is made for: a difference more where it has not.
fn expected(kind: Kind, want: Result<usize, Refusal>) -> Tally {
    let (given, _) = numbers(want);
    match number_of(kind) {
        Some(number) if number != given => Tally::wrong(),
        _ => Tally::new(),
    }
}

// The check of a text, and questions with it.
fn try_text(
    kind: Kind,
    table: &[u32],
    text: &[u8],
    classes: Classes,
    strings: &[u32],
    seed: usize,
) -> Tally {
    let mut lines = [0u32; ROOM];
    let mut words = [WORD; SHEET_WORDS];
    let d = narrow(classes.level);
    let checked = wanted(kind, text, &mut lines, classes);
    let first = check(table, text, d, checked);
    let second = check_into(table, text, d, checked, WORD, &mut words);
    let sheet = Sheet {
        table,
        text,
        words: &words,
        lines: &lines,
        checked,
        classes,
        strings,
    };
    expected(kind, checked)
        .plus(first)
        .plus(second)
        .plus(sheet.questions(seed))
}

// A sheet of the kind of a line, made and tried.
fn try_sheet(line: usize, strings: &[u32], seed: usize) -> Tally {
    let mut parents = [0u32; 512];
    let mut cells = [0u32; 6983];
    let mut bytes = [0u8; 196608];
    let case = tree(line, seed, &mut parents);
    lay(&parents[..case.n], &mut cells);
    let d = level(line, &parents, case.n, seed);
    let laid = Classes {
        parents: &parents,
        n: case.n,
        level: d,
    };
    let count = make_text(line, &mut bytes, laid, seed);
    let t = break_table(line, case.n, case.table, seed, &mut cells);
    let asked = Classes {
        parents: &parents,
        n: case.n,
        level: asked_level(line, case.n, d, seed),
    };
    match (cells.get(..t), bytes.get(..count)) {
        (Some(table), Some(text)) => try_text(Kind::at(line), table, text, asked, strings, seed),
        _ => Tally::wrong(),
    }
}

// All sheets of the kind of a line.
fn try_kind(line: usize, strings: &[u32]) -> Tally {
    let mut tally = Tally::new();
    for i in 0..count_of(Kind::at(line)) {
        let seed = next(next(line.wrapping_mul(1000).wrapping_add(i)));
        tally = tally.plus(try_sheet(line, strings, seed));
    }
    tally
}

fn main(rt: HostRuntime) -> io::Result<()> {
    let strings = shape_strings();
    let mut total = Tally::new();
    for line in 0..KINDS {
        let tally = try_kind(line, &strings);
        say(&rt, line, tally)?;
        total = total.plus(tally);
    }
    say(&rt, KINDS, total)
}
