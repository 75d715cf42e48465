// Tries preparing on lists of many kinds: answer, table and space against a table laid by plain definitions.
#![tactic(auto)]

mod book;
mod codes;
mod compare;
mod groups;
mod laid;
mod paths;
mod plain;
mod printed;
mod verdict;
mod words;

use crate::compare::{Loan, trial};
use crate::printed::say;
use samples::cases::{LINES, count_at};
use std::io;

// The differences in so many trials of a line.
fn line_differences(line: usize, count: usize, loan: &mut Loan) -> usize {
    let mut sum: usize = 0;
    for k in 0..count {
        sum = sum.wrapping_add(trial(line, k, loan));
    }
    sum
}

fn main(rt: HostRuntime) -> io::Result<()> {
    let mut loan = Loan::new();
    let mut trials: usize = 0;
    let mut differences: usize = 0;
    for line in 0..LINES {
        let count = count_at(line);
        let unlike = line_differences(line, count, &mut loan);
        say(&rt, line, count, unlike)?;
        trials = trials.wrapping_add(count);
        differences = differences.wrapping_add(unlike);
    }
    say(&rt, LINES, trials, differences)
}
