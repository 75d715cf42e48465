// A sheet at two offices: its bands renumbered, its lines in another order.
use crate::asking::{Offices, SUMS, sum_at};
use crate::comparing::{Count, Pair, total};
use crate::numbering::renumber_lines;
use base::{Node, Refusal, Sum};
use plain_sheets::classes::Classes;
use plain_sheets::judging;
use plain_sheets::line_words::ROOM;
use pricing::price;
use samples::seeds::next;
use samples::words::narrow;
use sheet_samples::texts::write_lines;
use sheets::check;

// How many lines a text has.
fn lines_in(text: &[u8]) -> usize {
    text.iter().filter(|b| **b == b'\n').count()
}

// The text of the same lines with their classes renumbered, in another order. Answers how many bytes it has.
fn rewrite(
    text: &[u8],
    other_text: &mut [u8],
    numbers: &[u32],
    classes: Classes,
    seed: usize,
) -> usize {
    let mut lines = [0u32; ROOM];
    let _ = judging::check(text, &mut lines, classes);
    let m = lines_in(text);
    renumber_lines(m, numbers, &mut lines);
    write_lines(other_text, &lines, m, next(seed))
}

// One sheet is accepted just where the other is, and neither has a bad line.
fn alike(first: Result<u32, Refusal>, second: Result<u32, Refusal>) -> bool {
    !matches!(first, Err(Refusal::BadLine(_)))
        && !matches!(second, Err(Refusal::BadLine(_)))
        && first.is_ok() == second.is_ok()
}

// Two offices with sheets for a level.
#[derive(Clone, Copy)]
struct Sheets<'a> {
    offices: Offices<'a>,
    text: &'a [u8],
    other_text: &'a [u8],
    level: usize,
}

impl<'a> Sheets<'a> {
    // The price of a sum for v.
    fn price_of(&self, v: usize, sum: Sum) -> Count {
        let offices = self.offices;
        let depth = narrow(self.level);
        let entry = Node(narrow(v));
        let other = offices.other_node(v);
        let given = price(offices.table, self.text, entry, depth, sum);
        let other_given = price(offices.other_table, self.other_text, other, depth, sum);
        if given.amount != other_given.amount {
            return Count::without_cells(false);
        }
        let pair = Pair {
            first: given.answer,
            second: other_given.answer,
        };
        offices.premiums(pair, given.cents, other_given.cents)
    }

    // The prices of all entries, and of numbers that are none.
    fn all_prices(&self, seed: usize) -> Count {
        let offices = self.offices;
        total(offices.asked(), |i| {
            let v = offices.asked_at(i);
            total(SUMS, |i| self.price_of(v, sum_at(i, seed, v, self.level)))
        })
    }

    // Both checks, of which one is to accept just where the other does, and the prices by sheets that are accepted.
    fn tried(&self, seed: usize) -> Count {
        let offices = self.offices;
        let depth = narrow(self.level);
        let first = check(offices.table, self.text, depth);
        let second = check(offices.other_table, self.other_text, depth);
        let accepted = Count::without_cells(alike(first, second));
        if first.is_err() {
            return accepted;
        }
        accepted.plus(self.all_prices(seed))
    }
}

// A text by the first table, and its renumbered one by the other.
pub(crate) fn try_text(offices: Offices, text: &[u8], level: usize, seed: usize) -> Count {
    let mut bytes = [0u8; 32768];
    let classes = Classes {
        parents: offices.parents,
        n: offices.parents.len(),
        level,
    };
    let count = rewrite(text, &mut bytes, offices.numbers, classes, seed);
    let Some(other_text) = bytes.get(..count) else {
        return Count::without_cells(false);
    };
    let sheets = Sheets {
        offices,
        text,
        other_text,
        level,
    };
    sheets.tried(seed)
}
