// Tries another office's numbering: trees of every kind renumbered at random, each entry at each level, with lists of rates and sheets renumbered alike. It counts the answers
// that differ in number, class or premium, and the questions whose cells differ, which they may.
#![tactic(auto)]

ghost use Rattle.std.specs.Prelude.{◌≤◌, length};

mod asking;
mod band_sheets;
mod comparing;
mod numbering;
mod printed;
mod trees;

use crate::asking::Offices;
use crate::band_sheets::try_text;
use crate::comparing::{Count, total};
use crate::numbering::{lay_numbers, renumber_list, renumber_rates};
use crate::printed::say;
use crate::trees::{Rated, lay_rates};
use base::{Refusal, reply_words};
use plain_sheets::classes::Classes;
use samples::cases::{ANY, GROWN, KINDS, case_at, count_at};
use samples::seeds::next;
use sheet_samples::texts::make_text;
use sheet_samples::trees::{level, tree};
use std::io;

// The lines of the output: lists with a fault, and all small ones; each kind of trees and the small ones twice, for classes and for premiums; and the kinds of sheets without a
// bad line.
const LISTS: usize = 5;

const CLASSES: usize = 13;

const PREMIUMS: usize = 21;

const LINES: usize = 29;

// How many of each kind of trees are tried, of up to 512 entries, and of each kind of sheets.
const OF_KIND: usize = 212;

const OF_SHEETS: usize = 80;

// Prepares the table of a list.
fn lay(parents: &[u32], table: &mut [u32]) -> Result<u32, Refusal> {
    let mut space = [0u32; 3075];
    prepare::prepare(parents, table, &mut space)
}

// The table of a list that is renumbered.
fn lay_other(parents: &[u32], numbers: &[u32], table: &mut [u32]) -> Result<u32, Refusal>
    requires { length parents.now ≤ 512 }
{
    let mut words = [0u32; 512];
    renumber_list(numbers, parents, &mut words);
    lay(&words[..parents.len()], table)
}

// The k-th list of a line: preparing gives both the same number.
fn try_list(line: usize, k: usize) -> Count {
    let mut words = [0u32; 512];
    let mut all_numbers = [0u32; 512];
    let mut table = [0u32; 6983];
    let case = case_at(line, k, &mut words);
    let parents = &words[..case.n];
    let numbers = &mut all_numbers[..case.n];
    lay_numbers(next(k), numbers);
    let first = lay(parents, &mut table);
    let second = lay_other(parents, numbers, &mut table);
    Count::without_cells(reply_words(first)[0] == reply_words(second)[0])
}

// Two offices' tables of a tree, of which both lists are accepted, and what is asked at both.
fn at_both<F: Fn(Offices) -> Count>(parents: &[u32], seed: usize, ask: F) -> Count
    requires short { length parents.now ≤ 512 }
    requires asked { F.IsAlwaysCallable ask }
{
    let mut all_numbers = [0u32; 512];
    let mut table = [0u32; 6983];
    let mut other_table = [0u32; 6983];
    let numbers = &mut all_numbers[..parents.len()];
    lay_numbers(next(seed), numbers);
    let first = lay(parents, &mut table);
    let second = lay_other(parents, numbers, &mut other_table);
    let offices = Offices {
        table: &table,
        other_table: &other_table,
        numbers,
        parents,
    };
    Count::without_cells(first.is_ok() && second.is_ok()).plus(ask(offices))
}

// The premiums of a tree, by lists of rates.
fn premiums(offices: Offices, seed: usize) -> Count {
    let n = offices.parents.len();
    let mut all_rates = [0u32; 512];
    let mut other_rates = [0u32; 512];
    let rates = &mut all_rates[..n];
    lay_rates(next(next(seed)), rates);
    renumber_rates(offices.numbers, rates, &mut other_rates);
    let rated = Rated {
        offices,
        rates,
        other_rates: &other_rates[..n],
    };
    rated.all_premiums(seed)
}

// The line of `samples` that has a kind of trees, and how many of them are tried.
fn kind_of(line: usize) -> (usize, usize) {
    if line < KINDS {
        (line, OF_KIND)
    } else {
        (GROWN, count_at(GROWN))
    }
}

// The k-th tree of a kind: both lists are accepted, and every answer is the same.
fn try_tree<F: Fn(Offices) -> Count>(kind: usize, k: usize, ask: F) -> Count
    requires { F.IsAlwaysCallable ask }
{
    let mut words = [0u32; 512];
    let case = case_at(kind, k, &mut words);
    at_both(&words[..case.n], k, ask)
}

// A sheet of a kind, for the level of a tree.
fn try_sheet(kind: usize, seed: usize) -> Count {
    let mut words = [0u32; 512];
    let mut bytes = [0u8; 32768];
    let case = tree(kind, seed, &mut words);
    let parents = &words[..case.n];
    let d = level(kind, parents, case.n, seed);
    let classes = Classes {
        parents,
        n: case.n,
        level: d,
    };
    let count = make_text(kind, &mut bytes, classes, seed);
    let Some(text) = bytes.get(..count) else {
        return Count::without_cells(false);
    };
    at_both(parents, seed, |offices| try_text(offices, text, d, seed))
}

// The classes of the trees of a kind.
fn try_classes(line: usize) -> Count {
    let (kind, count) = kind_of(line);
    total(
        count,
        |k| try_tree(kind, k, |offices| offices.all_classes()),
    )
}

// And their premiums.
fn try_premiums(line: usize) -> Count {
    let (kind, count) = kind_of(line);
    total(count, |k| try_tree(kind, k, |offices| premiums(offices, k)))
}

// The lists of a line of `samples`: with a fault, or all small ones.
fn try_lists(line: usize) -> Count {
    total(count_at(line), |k| try_list(line, k))
}

fn try_sheets(kind: usize) -> Count {
    total(OF_SHEETS, |i| {
        let seed = next(next(kind.wrapping_mul(1000).wrapping_add(i)));
        try_sheet(kind, seed)
    })
}

// Each line has a function of its own arguments: a table of closures would hold the same calls. A kind is a line of `samples` or of `sheet_samples`, whose clauses take it as a number.
fn try_line(line: usize) -> Count {
    match line {
        0..=3 => try_lists(KINDS + line),
        4 => try_lists(ANY),
        _ if line < CLASSES => try_classes(line - LISTS),
        _ if line < PREMIUMS => try_premiums(line - CLASSES),
        _ => try_sheets(line - PREMIUMS),
    }
}

fn main(rt: HostRuntime) -> io::Result<()> {
    let mut sum = Count::new();
    for line in 0..LINES {
        let count = try_line(line);
        say(&rt, line, count)?;
        sum = sum.plus(count);
    }
    say(&rt, LINES, sum)
}
