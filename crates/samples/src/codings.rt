// Every small list, by number.
ghost use Rattle.std.specs.Prelude.{◌<◌, ◌≤◌};

use crate::words::{TOP, put};

// A list among those of 1 to some entries.
#[derive(Clone, Copy)]
pub(crate) struct Coded {
    pub(crate) n: usize,
    pub(crate) code: usize,
}

// The k-th of the lists of 1 to `most` entries, of which there are so many of each length.
fn nth_list<F: Fn(usize) -> usize>(k: usize, most: usize, count: F) -> Coded
    requires few { most < 100 }
    requires counted { F.IsAlwaysCallable count }
    ensures { result.n ≤ most }
{
    let mut rest = k;
    for n in 1..most + 1 {
        let here = count(n);
        if rest < here {
            return Coded { n, code: rest };
        }
        rest -= here;
    }
    Coded { n: 0, code: 0 }
}

// The lists of n words that are an entry, the stray word n or the top mark.
fn any_count(n: usize) -> usize {
    (0..n).fold(1, |count: usize, _| count.wrapping_mul(n.wrapping_add(2)))
}

// The lists of n entries with each parent's number lower than its child's.
fn grown_count(n: usize) -> usize {
    (1..n).fold(1, |count: usize, i| count.wrapping_mul(i))
}

// The k-th of those lists of any words of 1 to 4 entries.
pub(crate) fn any_coded(k: usize) -> Coded
    ensures { result.n ≤ 4 }
{
    nth_list(k, 4, any_count)
}

// The k-th of the grown lists of 1 to 8 entries, the least with an entry that is in no group among them.
pub(crate) fn grown_coded(k: usize) -> Coded
    ensures { result.n ≤ 8 }
{
    nth_list(k, 8, grown_count)
}

// A list of any words: they are the digits of a number in base n + 2, the lowest first, with n + 1 for the top mark.
pub(crate) fn any_list(c: Coded, parents: &mut [u32])
    requires { c.n ≤ 4 }
{
    let base = c.n + 2;
    let mut rest = c.code;
    for i in 0..c.n {
        let digit = rest % base;
        put(parents, i, if c.n < digit { TOP } else { digit });
        rest /= base;
    }
}

// A grown list: the parent of entry i is a digit in base i.
pub(crate) fn grown_list(c: Coded, parents: &mut [u32]) {
    put(parents, 0, TOP);
    let mut rest = c.code;
    for i in 1..c.n {
        put(parents, i, rest % i);
        rest /= i;
    }
}
