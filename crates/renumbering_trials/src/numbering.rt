// A renumbering from a seed, and what is renumbered by it: a list, a list of rates, the lines of a sheet.
use plain_sheets::line_words::{CLASS, part, set_part};
use samples::seeds::{next, pick};
use samples::words::{put, wide};

// The key of an entry.
fn key(seed: usize, v: usize) -> usize {
    let draw = next(seed.wrapping_add(v));
    next(pick(draw, 65536).wrapping_add(draw))
}

// The new number of an entry: how many of n come before it, by keys, and by numbers where these are equal.
fn rank(n: usize, seed: usize, v: usize) -> usize {
    let own = (key(seed, v), v);
    (0..n).filter(|u| (key(seed, *u), *u) < own).count()
}

// The new numbers of as many entries.
pub(crate) fn lay_numbers(seed: usize, numbers: &mut [u32]) {
    let n = numbers.len();
    for v in 0..n {
        put(numbers, v, rank(n, seed, v));
    }
}

// The new number of a word: one that is no entry's stays.
pub(crate) fn renumbered(numbers: &[u32], v: usize) -> usize {
    numbers.get(v).map_or(v, |number| wide(*number))
}

// The list of the same tree.
pub(crate) fn renumber_list(numbers: &[u32], parents: &[u32], others: &mut [u32]) {
    for (number, parent) in numbers.iter().zip(parents) {
        put(others, wide(*number), renumbered(numbers, wide(*parent)));
    }
}

// The rates of the same entries.
pub(crate) fn renumber_rates(numbers: &[u32], rates: &[u32], others: &mut [u32]) {
    for (number, rate) in numbers.iter().zip(rates) {
        put(others, wide(*number), wide(*rate));
    }
}

// The classes of m lines.
pub(crate) fn renumber_lines(m: usize, numbers: &[u32], lines: &mut [u32]) {
    for i in 0..m {
        let class = part(lines, i, CLASS);
        set_part(lines, i, CLASS, renumbered(numbers, class));
    }
}
