// Forks: a stem, and two branches as long as each other that share its last entry and what is above it.
ghost use Rattle.std.specs.Prelude.{◌≤◌};

use crate::asking::Trial;
use samples::seeds::{next, pick};
use samples::tally::Tally;
use samples::words::{TOP, put};

const MOST: usize = 512;

// The entries of each branch.
fn branch(stem: usize) -> usize {
    MOST.saturating_sub(stem) / 2
}

fn parent(stem: usize, i: usize) -> usize {
    if i == 0 {
        return TOP;
    }
    if i == stem.wrapping_add(branch(stem)) {
        return stem.saturating_sub(1);
    }
    i - 1
}

// Lays a fork, and gives its number of entries.
pub(crate) fn lay_fork(parents: &mut [u32], stem: usize) -> usize
    requires { stem ≤ 512 }
    ensures { result ≤ 512 }
{
    let n = stem + MOST.saturating_sub(stem) / 2 * 2;
    for i in 0..n {
        put(parents, i, parent(stem, i));
    }
    n
}

impl<'a> Trial<'a> {
    // Pairs of which one is on each branch, each both ways.
    pub(crate) fn fork_pairs(&self, stem: usize) -> Tally {
        let entries = branch(stem);
        let mut sum = Tally::new();
        let mut seed = stem;
        for _ in 0..400 {
            seed = next(seed);
            let u = stem.wrapping_add(pick(seed, entries));
            let v = stem
                .wrapping_add(entries)
                .wrapping_add(pick(next(seed), entries));
            sum = sum.plus(self.common(u, v)).plus(self.common(v, u));
        }
        sum
    }
}
