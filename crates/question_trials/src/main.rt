// Tries the five questions on the prepared tables of many trees: each answer against a plain climb of the parent list, and whole against a walk of the
// printed steps. Then tries them on damaged tables, against that walk. With them the two questions about what entries share: against two plain climbs, on forks too, and on a
// damaged table against step 1 and bounds.
#![tactic(auto)]

mod asking;
mod common;
mod damaged;
mod forks;
mod levels;
mod pairs;
mod printed;

ghost use Rattle.std.specs.Prelude.{◌≤◌};

use crate::asking::Trial;
use crate::damaged::Damaged;
use crate::forks::lay_fork;
use crate::printed::say;
use plain_steps::shape_strings;
use samples::cases::{GROWN, KINDS, case_at, count_at};
use samples::tally::Tally;
use std::io;

// The lines of the output: the kinds, all small trees, forks, and the kinds with damaged tables.
const FORKED: usize = 8;

const DAMAGED: usize = 9;

const LINES: usize = 16;

// The entries of the forks' stems.
const STEMS: [usize; 6] = [1, 2, 50, 200, 400, 480];

// Which lists of a line have their tables damaged: those of 1, 7, 13, 20, 33 and 64 entries, every other one with permuted numbers.
const TO_DAMAGE: [usize; 6] = [0, 25, 48, 77, 128, 161];

// The table of a list. So in each of the programs, which share no crate above the engine.
fn lay(parents: &[u32], table: &mut [u32]) {
    let mut space = [0u32; 3075];
    let _ = prepare::prepare(parents, table, &mut space);
}

// Every question on the k-th list of a kind: here and below a kind is a line of `samples`, which `count_of` and `Lengths` take as a number.
fn list(kind: usize, k: usize, strings: &[u32]) -> Tally {
    let mut words = [0u32; 512];
    let mut cells = [0u32; 6983];
    let case = case_at(kind, k, &mut words);
    let parents = &words[..case.n];
    lay(parents, &mut cells);
    let trial = Trial {
        table: &cells[..case.table],
        strings,
        parents,
    };
    trial.levels().plus(trial.pairs())
}

// Every question on two lists of each size of a kind, which has four of each in a row: the numbers of every other one are permuted.
fn lists(kind: usize, strings: &[u32]) -> Tally {
    (0..count_at(kind) / 2).fold(Tally::new(), |sum, i| {
        sum.plus(list(kind, (i / 2).wrapping_mul(2).wrapping_add(i), strings))
    })
}

// Every question on every small tree.
fn small_trees(strings: &[u32]) -> Tally {
    (0..count_at(GROWN)).fold(Tally::new(), |sum, k| sum.plus(list(GROWN, k, strings)))
}

// What two entries share in a fork with a stem of so many entries.
fn fork(stem: usize, strings: &[u32]) -> Tally
    requires { stem ≤ 512 }
{
    let mut words = [0u32; 512];
    let mut cells = [0u32; 6983];
    let n = lay_fork(&mut words, stem);
    let parents = &words[..n];
    lay(parents, &mut cells);
    let trial = Trial {
        table: &cells,
        strings,
        parents,
    };
    trial.fork_pairs(stem)
}

// The damaged tables of the k-th list of a kind.
fn damage(kind: usize, k: usize, strings: &[u32]) -> Tally {
    let mut words = [0u32; 512];
    let mut cells = [0u32; 6983];
    let case = case_at(kind, k, &mut words);
    let parents = &words[..case.n];
    lay(parents, &mut cells);
    let mut damaged = Damaged {
        table: &mut cells[..case.table],
        strings,
        parents,
    };
    damaged.tried()
}

// The damaged tables of some lists of a kind: random and deep trees have a large one more.
fn damaged_lists(kind: usize, strings: &[u32]) -> Tally {
    let count = if kind % 4 == 2 { 6 } else { 5 };
    let mut sum = Tally::new();
    for k in TO_DAMAGE.iter().take(count) {
        sum = sum.plus(damage(kind, *k, strings));
    }
    sum
}

// Every fork.
fn all_forks(strings: &[u32]) -> Tally {
    let mut sum = Tally::new();
    for stem in STEMS {
        sum = sum.plus(fork(stem, strings));
    }
    sum
}

// Each line has a function of its own arguments: a table of closures would hold the same calls.
fn line_tally(line: usize, strings: &[u32]) -> Tally {
    match line {
        FORKED => all_forks(strings),
        _ if DAMAGED <= line => damaged_lists(line - DAMAGED, strings),
        _ if line < KINDS => lists(line, strings),
        _ => small_trees(strings),
    }
}

fn main(rt: HostRuntime) -> io::Result<()> {
    let strings = shape_strings();
    let mut total = Tally::new();
    for line in 0..LINES {
        let tally = line_tally(line, &strings);
        say(&rt, line, tally)?;
        total = total.plus(tally);
    }
    say(&rt, LINES, total)
}
