// Level lookup, climb and rating of every entry.
use crate::asking::{Outcome, Trial};
use samples::climbing::climbs;
use samples::refusals::Refusal;
use samples::tally::Tally;
use samples::words::{TOP, get};

// What a rating is to give where a level lookup gives that: v, its word, where it is too deep.
fn rated(want: Outcome) -> Outcome {
    match want {
        Err(Refusal::TooDeep(v)) => Ok(v),
        other => other,
    }
}

impl<'a> Trial<'a> {
    // The class of v at depth d, its rating, and the entry k climbs above v, where all are to give the same.
    fn three(&self, v: usize, d: usize, k: usize, want: Outcome) -> Tally {
        self.level(v, d)
            .gives(want)
            .plus(self.rating(v, d).gives(rated(want)))
            .plus(self.climb(v, k).gives(want))
    }

    // Questions of v that a level lookup refuses: from a depth on, and at the highest.
    fn too_deep(&self, v: usize, from: usize, refusal: Refusal) -> Tally {
        let mut sum = Tally::new();
        for d in [from, from.wrapping_add(1), 2147483648, TOP] {
            sum = sum.plus(self.three(v, d, d, Err(refusal)));
        }
        sum
    }

    // An entry at every depth from its own to the top's, as its climb meets them, and deeper.
    fn entry(&self, v: usize) -> Tally {
        let depth = climbs(self.parents, self.parents.len(), v);
        let levels = depth.wrapping_add(1);
        let mut sum = self.too_deep(v, levels, Refusal::TooDeep(v));
        let mut at = v;
        for k in 0..levels {
            sum = sum.plus(self.three(v, depth.saturating_sub(k), k, Ok(at)));
            at = get(self.parents, at);
        }
        sum
    }

    // Every entry, and numbers that are none.
    pub(crate) fn levels(&self) -> Tally {
        let n = self.parents.len();
        let mut sum = Tally::new();
        for v in [n, TOP] {
            sum = sum.plus(self.too_deep(v, 0, Refusal::Unknown(v)));
        }
        self.entries(sum)
    }

    fn entries(&self, sum: Tally) -> Tally {
        (0..self.parents.len()).fold(sum, |sum, v| sum.plus(self.entry(v)))
    }
}
