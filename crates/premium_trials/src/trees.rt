// Every entry of a tree at every level, with sums of every kind.
ghost use Rattle.std.specs.Prelude.{◌≤◌};

use crate::asking::{Looked, Trial};
use samples::amounts::drawn;
use samples::climbing::{above, climbs};
use samples::refusals::Refusal;
use samples::seeds::{next, pick};
use samples::tally::Tally;
use samples::words::{TOP, put};

// The kinds of lists of rates: one rate for all, one over the limit, none, half as many as entries, and rates from a seed with both limits among them.
#[derive(Clone, Copy, PartialEq, Eq)]
pub(crate) enum List {
    One,
    Over,
    Empty,
    Half,
    Drawn,
}

impl<'a> Trial<'a> {
    // Small sums and those at the limits, then two from a seed, each with both signs, where the lookup is to answer the same.
    fn sums(&self, seed: usize, v: usize, d: usize, looked: Looked) -> Tally {
        let draw = next(next(seed.wrapping_add(v)).wrapping_add(d));
        let sizes: [usize; 9] = [
            0,
            25,
            2000000000,
            2000000001,
            4294967296,
            9223372036854775807,
            9223372036854775808,
            pick(draw, 1000),
            drawn(draw),
        ];
        let mut tally = Tally::new();
        for size in sizes {
            tally = tally.plus(self.both(v, d, size, looked));
        }
        tally
    }

    // An entry at every level to two below its own, where it is the class itself.
    fn levels(&self, seed: usize, v: usize) -> Tally {
        let depth = climbs(self.parents, self.parents.len(), v);
        let mut tally = Tally::new();
        for d in 0..depth.wrapping_add(3) {
            let class = above(self.parents, v, depth.saturating_sub(d));
            tally = tally.plus(self.sums(seed, v, d, Ok(class)));
        }
        tally
    }

    // The first words of the table alone.
    fn cut(&self, words: usize, seed: usize) -> Tally {
        if self.table.len() < words {
            return Tally::wrong();
        }
        let trial = Trial {
            table: &self.table[..words],
            strings: self.strings,
            rates: self.rates,
            parents: self.parents,
        };
        trial.sums(seed, 0, 0, Err(Refusal::Broken))
    }

    // A table of no words, and one of four, which has a cell 0 and no more; a number that is no entry; and every entry.
    pub(crate) fn entries(&self, seed: usize) -> Tally {
        let n = self.parents.len();
        let cuts = self.cut(0, seed).plus(self.cut(4, seed));
        let mut tally = cuts.plus(self.sums(seed, n, 0, Err(Refusal::Unknown(n))));
        for v in 0..n {
            tally = tally.plus(self.levels(seed, v));
        }
        tally
    }
}

impl List {
    // The rate of an entry.
    fn rate(self, v: usize, seed: usize) -> usize {
        match self {
            List::Over => 1000001,
            List::Drawn => {
                let draw = next(seed.wrapping_add(v));
                match pick(draw, 8) {
                    0 => 0,
                    1 => 1000000,
                    2 => 1000001,
                    3 => TOP,
                    _ => pick(next(draw), 1000001),
                }
            }
            _ => 1000,
        }
    }

    // How many rates there are for n entries.
    pub(crate) fn count(self, n: usize) -> usize
        ensures { result ≤ n }
    {
        match self {
            List::Empty => 0,
            List::Half => n / 2,
            _ => n,
        }
    }

    // Lays the rates.
    pub(crate) fn lay(self, seed: usize, rates: &mut [u32]) {
        for v in 0..rates.len() {
            put(rates, v, self.rate(v, next(seed)));
        }
    }
}
