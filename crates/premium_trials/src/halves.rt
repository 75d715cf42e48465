// Sums about half a cent, and at both ends of sums and rates, in a tree of the top alone.
use crate::asking::Trial;
use samples::amounts::product;
use samples::tally::Tally;
use samples::words::narrow;

const RATES: [usize; 14] = [
    1, 3, 7, 125, 999, 1000, 1001, 4999, 5000, 9999, 10001, 333333, 999999, 1000000,
];

impl<'a> Trial<'a> {
    // A sum of that size, of the top at level 0.
    fn top(&self, rate: usize, size: usize) -> Tally {
        let rates = [narrow(rate)];
        let trial = Trial {
            table: self.table,
            strings: self.strings,
            rates: &rates,
            parents: self.parents,
        };
        trial.both(0, 0, size, Ok(0))
    }

    // The sums of a run of 20,000 whose product leaves that rest of a cent.
    fn run(&self, rate: usize, from: usize, rest: usize) -> Tally {
        let mut tally = Tally::new();
        for size in from..from.wrapping_add(20000) {
            if product(size, rate) % 10000 == rest {
                tally = tally.plus(self.top(rate, size));
            }
        }
        tally
    }

    // The least sums and the greatest, at every rate.
    pub(crate) fn rests(&self, rest: usize) -> Tally {
        let mut tally = Tally::new();
        for rate in RATES {
            let least = self.run(rate, 0, rest);
            tally = tally.plus(least).plus(self.run(rate, 1999980001, rest));
        }
        tally
    }
}
