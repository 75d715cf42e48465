// Tries the premium: every small tree with lists of rates and sums of every kind, and every rest about half a cent. Each quote is held to a plain climb of
// the parent list, to the cells of the printed steps, and to plain arithmetic.
#![tactic(auto)]

mod asking;
mod halves;
mod printed;
mod trees;

use crate::asking::Trial;
use crate::printed::say;
use crate::trees::List;
use plain_steps::shape_strings;
use samples::cases::{GROWN, case_at, count_at};
use samples::tally::Tally;
use samples::words::{TOP, narrow};
use std::io;

// The lines of the output: the lists of rates, and the rests of a cent, from 4,998 parts on.
const LINES: usize = 10;

// The table of a list. So in each of the programs, which share no crate above the engine.
fn lay(parents: &[u32], table: &mut [u32]) {
    let mut space = [0u32; 3075];
    let _ = prepare::prepare(parents, table, &mut space);
}

// The k-th small tree with a kind of list of rates.
fn small_tree(list: List, k: usize, strings: &[u32]) -> Tally {
    let mut words = [0u32; 512];
    let mut cells = [0u32; 6983];
    let mut all_rates = [0u32; 512];
    let case = case_at(GROWN, k, &mut words);
    let parents = &words[..case.n];
    let rates = &mut all_rates[..list.count(case.n)];
    lay(parents, &mut cells);
    list.lay(k, rates);
    let trial = Trial {
        table: &cells[..case.table],
        strings,
        rates,
        parents,
    };
    trial.entries(k)
}

// Every small tree.
fn small_trees(list: List, strings: &[u32]) -> Tally {
    (0..count_at(GROWN)).fold(
        Tally::new(),
        |sum, k| sum.plus(small_tree(list, k, strings)),
    )
}

// The sums whose parts leave that rest, in a tree of the top alone.
fn rest_tally(rest: usize, strings: &[u32]) -> Tally {
    let parents = [narrow(TOP)];
    let mut table = [0u32; 6983];
    lay(&parents, &mut table);
    let trial = Trial {
        table: &table,
        strings,
        rates: &[],
        parents: &parents,
    };
    trial.rests(rest)
}

fn line_tally(line: usize, strings: &[u32]) -> Tally {
    match line {
        0 => small_trees(List::One, strings),
        1 => small_trees(List::Over, strings),
        2 => small_trees(List::Empty, strings),
        3 => small_trees(List::Half, strings),
        4 => small_trees(List::Drawn, strings),
        _ => rest_tally(line.wrapping_add(4993), strings),
    }
}

fn main(rt: HostRuntime) -> io::Result<()> {
    let strings = shape_strings();
    let mut total = Tally::new();
    for line in 0..LINES {
        let tally = line_tally(line, &strings);
        say(&rt, line, tally)?;
        total = total.plus(tally);
    }
    say(&rt, LINES, total)
}
