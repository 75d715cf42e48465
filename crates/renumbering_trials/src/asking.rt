// Questions of one entry or of two, at two offices.
ghost use Rattle.std.specs.Prelude.{◌≤◌, length};

use crate::comparing::{Count, Pair};
use crate::numbering::renumbered;
use answers::Answer;
use base::{Cents, Node, Sum};
use query::{ancestry, branch, climb, level, rating};
use samples::amounts::{drawn, signed};
use samples::climbing::climbs;
use samples::seeds::next;
use samples::words::{TOP, narrow, wide};

pub(crate) const SUMS: usize = 6;

// The tables of a list and of that of the same tree under new numbers, the numbers, and the list.
#[derive(Clone, Copy)]
pub(crate) struct Offices<'a> {
    pub(crate) table: &'a [u32],
    pub(crate) other_table: &'a [u32],
    pub(crate) numbers: &'a [u32],
    pub(crate) parents: &'a [u32],
    ghost short: { length parents.now ≤ 512 },
}

// The i-th sum that is asked of v at level d: small sums and those at the limits come first, and any.
pub(crate) fn sum_at(i: usize, seed: usize, v: usize, d: usize) -> Sum {
    let draw = next(seed.wrapping_add(v.wrapping_add(d)));
    Sum(match i {
        0 => signed(false, 25),
        1 => signed(true, 25),
        2 => signed(true, 2000000000),
        3 => signed(false, 2000000001),
        4 => signed(false, drawn(draw)),
        _ => signed(true, drawn(next(draw))),
    })
}

impl<'a> Offices<'a> {
    // How many numbers are asked: each entry, n and the last of 32 bits.
    pub(crate) fn asked(&self) -> usize {
        self.parents.len().wrapping_add(2)
    }

    pub(crate) fn asked_at(&self, i: usize) -> usize {
        if i <= self.parents.len() { i } else { TOP }
    }

    // How many levels are asked of a number: to two below the entry's own.
    pub(crate) fn levels_of(&self, v: usize) -> usize {
        let n = self.parents.len();
        if v < n {
            return climbs(self.parents, n, v).wrapping_add(3);
        }
        1
    }

    // An entry by its number in the other list.
    pub(crate) fn other_node(&self, v: usize) -> Node {
        Node(narrow(renumbered(self.numbers, v)))
    }

    // Whether what the first answer names is renumbered in the second.
    fn is_renumbered(&self, pair: &Pair) -> bool {
        let first = pair.first;
        let second = pair.second;
        wide(second.word) == renumbered(self.numbers, wide(first.word))
    }

    // The same number, and what the first names renumbered.
    fn classes(&self, pair: Pair, most: u32) -> Count {
        pair.counted(pair.is_few(most) && pair.has_one_number() && self.is_renumbered(&pair))
    }

    // The same number, the same cents, and the class renumbered or the same name.
    pub(crate) fn premiums(&self, pair: Pair, cents: Cents, other_cents: Cents) -> Count {
        let first = pair.first;
        let same_word = if first.number == 0 {
            self.is_renumbered(&pair)
        } else {
            pair.has_one_word()
        };
        let same_cents = cents.0 == other_cents.0;
        pair.counted(pair.has_one_number() && same_cents && pair.is_few(10) && same_word)
    }

    // A lookup of v, by both tables.
    fn lookup<F: Fn(&[u32], Node) -> Answer>(&self, v: usize, ask: F) -> Count
        requires { F.IsAlwaysCallable ask }
    {
        let first = ask(self.table, Node(narrow(v)));
        let second = ask(self.other_table, self.other_node(v));
        self.classes(Pair { first, second }, 10)
    }

    // The level lookup, the rating lookup and the climb of v by d.
    pub(crate) fn lookups(&self, v: usize, d: usize) -> Count {
        let depth = narrow(d);
        let at_level = self.lookup(v, |table, entry| level(table, entry, depth));
        let rated = self.lookup(v, |table, entry| rating(table, entry, depth));
        let above = self.lookup(v, |table, entry| climb(table, entry, depth));
        at_level.plus(rated).plus(above)
    }

    // Ancestry and branch of u and v.
    pub(crate) fn pair(&self, u: usize, v: usize) -> Count {
        let (upper, lower) = (Node(narrow(u)), Node(narrow(v)));
        let (other_upper, other_lower) = (self.other_node(u), self.other_node(v));
        let related = Pair {
            first: ancestry(self.table, upper, lower),
            second: ancestry(self.other_table, other_upper, other_lower),
        };
        let below = Pair {
            first: branch(self.table, upper, lower),
            second: branch(self.other_table, other_upper, other_lower),
        };
        let same = related.has_one_number() && related.is_few(4) && related.has_one_word();
        related.counted(same).plus(self.classes(below, 15))
    }
}
