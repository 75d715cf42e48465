// Lists that do not form one tree.
use crate::climbing::{above, climbs};
use crate::seeds::{next, pick};
use crate::words::{TOP, put};

#[derive(Clone, Copy)]
pub(crate) enum Fault {
    Stray,
    Tops,
    Topless,
    Looped,
}

impl Fault {
    // The four faults in the order of their lines; none behind them.
    pub(crate) fn at(k: usize) -> Option<Fault> {
        match k {
            0 => Some(Fault::Stray),
            1 => Some(Fault::Tops),
            2 => Some(Fault::Topless),
            3 => Some(Fault::Looped),
            _ => None,
        }
    }
}

// A word that is neither an entry nor the top mark: n, the highest such word, or one between.
fn stray_word(n: usize, seed: usize) -> usize {
    match pick(seed, 3) {
        0 => n,
        1 => TOP - 1,
        _ => n.wrapping_add(pick(seed, 1000000)),
    }
}

fn second_top(n: usize, seed: usize, parents: &mut [u32]) {
    if pick(seed, 2) == 0 {
        put(parents, pick(next(seed), n), TOP);
    }
}

// One or two stray words, and sometimes a second top mark.
fn stray(n: usize, seed: usize, parents: &mut [u32]) {
    let other = next(seed);
    second_top(n, other, parents);
    put(parents, pick(seed, n), stray_word(n, other));
    put(parents, pick(other, n), stray_word(n, seed));
}

// Up to two top marks more.
fn tops(n: usize, seed: usize, parents: &mut [u32]) {
    let other = next(seed);
    put(parents, pick(seed, n), TOP);
    put(parents, pick(other, n), TOP);
}

// No top mark: the top's word is an entry.
fn topless(n: usize, seed: usize, parents: &mut [u32]) {
    let v = pick(seed, n);
    let top = above(parents, v, climbs(parents, n, v));
    put(parents, top, pick(next(seed), n));
}

// A loop: an entry gets itself or one below it as its parent. What was below it hangs below the loop.
fn looped(n: usize, seed: usize, parents: &mut [u32]) {
    let v = pick(seed, n);
    let u = above(parents, v, pick(next(seed), climbs(parents, n, v)));
    put(parents, u, v);
}

// A list gets a fault: a match on an enum, which stands for a number.
pub(crate) fn damage(fault: Fault, n: usize, seed: usize, parents: &mut [u32]) {
    match fault {
        Fault::Stray => stray(n, seed, parents),
        Fault::Tops => tops(n, seed, parents),
        Fault::Topless => topless(n, seed, parents),
        Fault::Looped => looped(n, seed, parents),
    }
}
