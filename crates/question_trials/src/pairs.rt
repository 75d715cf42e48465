// Ancestry and branch of pairs of entries, what they share, and the climbs between them.
use crate::asking::{Outcome, Trial};
use crate::common::apart;
use samples::climbing::{above, climbs};
use samples::refusals::Refusal;
use samples::seeds::{next, pick};
use samples::tally::Tally;
use samples::words::TOP;

// An entry by number, then n, then the highest number.
fn any(n: usize, i: usize) -> usize {
    if n < i { TOP } else { i }
}

impl<'a> Trial<'a> {
    // Ancestry and branch of u and v.
    fn two(&self, u: usize, v: usize, related: Outcome, child: Outcome) -> Tally {
        self.ancestry(u, v)
            .gives(related)
            .plus(self.branch(u, v).gives(child))
    }

    // What both are to give.
    fn relation(&self, u: usize, v: usize) -> Tally {
        let n = self.parents.len();
        if n <= u || n <= v {
            let unknown = Refusal::Unknown(if n <= u { u } else { v });
            return self.two(u, v, Err(unknown), Err(unknown));
        }
        let not_above = Err(Refusal::NotAbove(u));
        match apart(self.parents, u, v) {
            None => self.two(u, v, Ok(0), not_above),
            Some(0) => self.two(u, v, Ok(1), not_above),
            Some(k) => self.two(u, v, Ok(1), Ok(above(self.parents, v, k - 1))),
        }
    }

    // All four questions of a pair.
    fn pair(&self, u: usize, v: usize) -> Tally {
        self.relation(u, v).plus(self.common(u, v))
    }

    // u with every v.
    fn with_all(&self, u: usize) -> Tally {
        let n = self.parents.len();
        (0..n.wrapping_add(2)).fold(Tally::new(), |sum, i| sum.plus(self.pair(u, any(n, i))))
    }

    fn all_pairs(&self) -> Tally {
        let n = self.parents.len();
        (0..n.wrapping_add(2)).fold(Tally::new(), |sum, i| sum.plus(self.with_all(any(n, i))))
    }

    // A number to ask about with v: often an entry above it.
    fn other(&self, v: usize, seed: usize) -> usize {
        let n = self.parents.len();
        match pick(seed, 8) {
            0 => v,
            1 => n,
            2 => TOP,
            3 => pick(next(seed), n),
            _ => {
                let most = climbs(self.parents, n, v).wrapping_add(1);
                above(self.parents, v, pick(next(seed), most))
            }
        }
    }

    // Some pairs, each both ways.
    fn some_pairs(&self) -> Tally {
        let n = self.parents.len();
        let mut sum = Tally::new();
        let mut seed = n;
        for _ in 0..200 {
            seed = next(seed);
            let v = pick(seed, n);
            let u = self.other(v, next(seed));
            sum = sum.plus(self.pair(u, v)).plus(self.pair(v, u));
        }
        sum
    }

    // Every pair of a small tree, and some of a larger one.
    pub(crate) fn pairs(&self) -> Tally {
        if self.parents.len() <= 24 {
            self.all_pairs()
        } else {
            self.some_pairs()
        }
    }
}
