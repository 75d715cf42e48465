// Parent lists: entry 0 is the top and a parent has a lower number than its child, until the numbers are permuted.
ghost use Rattle.std.specs.Prelude.{◌≤◌};

use crate::seeds::{next, pick};
use crate::words::{TOP, get, put};

// The kinds of lists, by what the parent of an entry is.
#[derive(Clone, Copy)]
pub(crate) enum Kind {
    Chain,
    Star,
    Random,
    Caterpillar,
    Binary,
    Broom,
    // one of the three entries before
    Deep,
}

impl From<usize> for Kind {
    // The kinds in the order of the lines; any line behind them is of the last.
    fn from(line: usize) -> Kind {
        match line {
            0 => Kind::Chain,
            1 => Kind::Star,
            2 => Kind::Random,
            3 => Kind::Caterpillar,
            4 => Kind::Binary,
            5 => Kind::Broom,
            _ => Kind::Deep,
        }
    }
}

// The parent of entry i, over 0, in a list of n entries of a kind. A broom is a chain of half the entries, with the rest below its end.
fn parent(kind: Kind, i: usize, n: usize, seed: usize) -> usize {
    let last = i.saturating_sub(1);
    match kind {
        Kind::Chain => last,
        Kind::Star => 0,
        Kind::Random => pick(seed, i),
        Kind::Caterpillar => last.saturating_sub(i.wrapping_add(1) % 2),
        Kind::Binary => last / 2,
        Kind::Broom => last.min((n / 2).saturating_sub(1)),
        Kind::Deep => last.saturating_sub(pick(seed, 3)),
    }
}

// A list of n entries of a kind.
pub(crate) fn make(kind: Kind, n: usize, seed: usize, parents: &mut [u32]) {
    put(parents, 0, TOP);
    let mut s = seed;
    for i in 1..n {
        s = next(s);
        put(parents, i, parent(kind, i, n, s));
    }
}

// The numbers of the places, in increasing order.
fn count_up(names: &mut [u32]) {
    for i in 0..names.len() {
        put(names, i, i);
    }
}

// The numbers of the places, in an order that the seed gives.
fn shuffle(seed: usize, names: &mut [u32]) {
    count_up(names);
    let mut s = seed;
    for i in 0..names.len() {
        s = next(s);
        names.swap(i, pick(s, i + 1));
    }
}

// The name of an entry; the top mark stays.
fn named(names: &[u32], p: usize) -> usize {
    if p == TOP { TOP } else { get(names, p) }
}

// A list with each entry i called names[i].
fn rename(parents: &[u32], names: &[u32], renamed: &mut [u32]) {
    for (i, name) in names.iter().enumerate() {
        put(renamed, *name as usize, named(names, get(parents, i)));
    }
}

// As many words as both have: `copy_from_slice` wants one length.
fn copy(from: &[u32], to: &mut [u32]) {
    for (word, new) in to.iter_mut().zip(from) {
        *word = *new;
    }
}

// Permutes the numbers of a list.
pub(crate) fn permute(n: usize, seed: usize, parents: &mut [u32])
    requires { n ≤ 512 }
{
    let mut names = [0u32; 512];
    let mut renamed = [0u32; 512];
    shuffle(seed, &mut names[..n]);
    rename(parents, &names[..n], &mut renamed);
    copy(&renamed[..n], parents);
}
