// A tree at two offices: every entry at every level, and pairs of entries.
use crate::asking::{Offices, SUMS, sum_at};
use crate::comparing::{Count, Pair, total};
use base::{Node, Sum};
use premiums::premium;
use samples::amounts::{MOST_RATE, drawn_rate};
use samples::seeds::{next, pick};
use samples::words::{narrow, put};

// The most entries of a tree of which every pair is asked.
const PAIRED: usize = 24;

impl<'a> Offices<'a> {
    // The classes of v at every level.
    fn levels(&self, v: usize) -> Count {
        total(self.levels_of(v), |d| self.lookups(v, d))
    }

    // The pairs of u with every entry and with numbers that are none, in a small tree.
    fn pairs(&self, u: usize) -> Count {
        if PAIRED < self.parents.len() {
            return Count::new();
        }
        total(self.asked(), |i| self.pair(u, self.asked_at(i)))
    }

    // The classes of all entries, and of numbers that are none.
    pub(crate) fn all_classes(&self) -> Count {
        total(self.asked(), |i| {
            let v = self.asked_at(i);
            self.levels(v).plus(self.pairs(v))
        })
    }
}

// Two offices with lists of rates for the same entries.
#[derive(Clone, Copy)]
pub(crate) struct Rated<'a> {
    pub(crate) offices: Offices<'a>,
    pub(crate) rates: &'a [u32],
    pub(crate) other_rates: &'a [u32],
}

impl<'a> Rated<'a> {
    // The premium of a sum for v at level d.
    fn premium_of(&self, v: usize, d: usize, sum: Sum) -> Count {
        let offices = self.offices;
        let depth = narrow(d);
        let entry = Node(narrow(v));
        let other = offices.other_node(v);
        let given = premium(offices.table, self.rates, entry, depth, sum);
        let other_given = premium(offices.other_table, self.other_rates, other, depth, sum);
        let pair = Pair {
            first: given.answer,
            second: other_given.answer,
        };
        offices.premiums(pair, given.cents, other_given.cents)
    }

    // The premiums of v at every level.
    fn premiums_of(&self, v: usize, seed: usize) -> Count {
        total(self.offices.levels_of(v), |d| {
            total(SUMS, |i| self.premium_of(v, d, sum_at(i, seed, v, d)))
        })
    }

    // The premiums of all entries, and of numbers that are none.
    pub(crate) fn all_premiums(&self, seed: usize) -> Count {
        let offices = self.offices;
        total(
            offices.asked(),
            |i| self.premiums_of(offices.asked_at(i), seed),
        )
    }
}

// Lays the rates of entries.
pub(crate) fn lay_rates(seed: usize, rates: &mut [u32]) {
    let mut s = seed;
    for v in 0..rates.len() {
        s = next(s);
        put(rates, v, drawn_rate(s, MOST_RATE + 1));
    }
}
