// Questions with one sheet: entries of every kind, and sums of both signs about the ends of its bands and of the range.
use crate::asking::Question;
use plain_sheets::classes::Classes;
use plain_sheets::judging;
use plain_sheets::line_words::{FROM, TO, part};
use samples::amounts::drawn;
use samples::refusals::{Refusal, numbers};
use samples::seeds::{next, pick};
use samples::tally::Tally;
use samples::words::{TOP, narrow};
use sheets::SHEET_WORDS;

// How many questions are asked with a sheet that is refused, and with one that is accepted.
const FEW: usize = 4;

const MANY: usize = 40;

// A sheet as a text and in checked words, its lines and what the check is to answer; and the table, the classes and the shapes' strings that it is tried with.
#[derive(Clone, Copy)]
pub(crate) struct Sheet<'a> {
    pub(crate) table: &'a [u32],
    pub(crate) text: &'a [u8],
    pub(crate) words: &'a [u64; SHEET_WORDS],
    pub(crate) lines: &'a [u32],
    pub(crate) checked: Result<usize, Refusal>,
    pub(crate) classes: Classes<'a>,
    pub(crate) strings: &'a [u32],
}

// An entry, or a number that is none.
fn entry_at(n: usize, seed: usize) -> usize {
    match pick(seed, 16) {
        0 => n,
        1 => TOP,
        _ => pick(next(seed), n),
    }
}

impl<'a> Sheet<'a> {
    // A size: at the ends of the band of a line, drawn by the word that the check answers, or beside them, at the ends of the range or beyond, or any.
    fn size_at(&self, seed: usize) -> usize {
        let (_, word) = numbers(self.checked);
        let line = pick(next(seed), word);
        let from = part(self.lines, line, FROM);
        let to = part(self.lines, line, TO);
        match pick(seed, 14) {
            0 => 0,
            1 => 2000000000,
            2 => 2000000001,
            3 => 4294967296,
            4 => 9223372036854775807,
            5 => 9223372036854775808,
            6 => drawn(next(seed)),
            7 | 8 => from,
            9 | 10 => to,
            11 => from.saturating_sub(1),
            _ => to.wrapping_add(1),
        }
    }

    // One question: with the text, and with the checked sheet where it is accepted.
    fn question(&self, seed: usize) -> Tally {
        let classes = self.classes;
        let v = entry_at(classes.n, seed);
        let size = self.size_at(next(next(seed)));
        let sound = !matches!(self.checked, Err(Refusal::Broken));
        let looked = judging::look(sound, classes, v);
        let question = Question {
            v,
            d: classes.level,
            size,
            looked,
            want: judging::price(looked, self.checked, self.lines, size),
            walk: plain_steps::rating(self.table, self.strings, narrow(v), narrow(classes.level)),
        };
        let priced = question.price(self.table, self.text);
        if self.checked.is_err() {
            return priced;
        }
        priced.plus(question.quotation(self.table, self.words))
    }

    // Questions with the sheet: more with an accepted one.
    pub(crate) fn questions(&self, seed: usize) -> Tally {
        let count = if self.checked.is_ok() { MANY } else { FEW };
        let mut tally = Tally::new();
        let mut s = seed;
        for _ in 0..count {
            s = next(s);
            tally = tally.plus(self.question(s));
        }
        tally
    }
}
