// Sheets without a fault, from a seed: the amounts of each class are split into bands.
use crate::laying::Lines;
use plain_sheets::classes::Classes;
use samples::amounts::{MOST_SUM, drawn, drawn_rate};
use samples::seeds::{next, pick};

// A rate at which every odd sum leaves half a cent.
const HALVES: usize = 5000;

// How many amounts a band has behind its first: none, a few, or so many that a class with so many bands has all its amounts in a few of them.
fn width(bands: usize, seed: usize) -> usize {
    match pick(seed, 4) {
        0 => 0,
        1 => pick(next(seed), 100),
        _ if bands < 9 => drawn(next(seed)) / 4,
        _ => drawn(next(seed)) / 2048,
    }
}

// Where a band ends that has so many bands of its class behind it: each of them has an amount left.
fn end(from: usize, behind: usize, bands: usize, seed: usize) -> usize {
    if behind == 0 {
        return MOST_SUM;
    }
    from.wrapping_add(width(bands, seed))
        .min(MOST_SUM.saturating_sub(behind))
}

// How many bands a class gets: up to eight, but the last class all the lines that are left of a stated number.
fn bands_of(lines: usize, left: usize, total: Option<usize>, seed: usize) -> usize {
    match total {
        Some(total) if left == 1 && lines < total => total - lines,
        _ => pick(seed, 8).wrapping_add(1),
    }
}

impl Lines {
    // A class's amounts in so many bands.
    fn split(&mut self, class: usize, bands: usize, seed: usize) {
        let mut s = seed;
        let mut from = 0;
        for i in 0..bands {
            s = next(s.wrapping_add(i));
            let to = end(from, bands - i - 1, bands, next(s));
            self.push(class, from, to, drawn_rate(s, HALVES));
            from = to.wrapping_add(1);
        }
    }

    // A sheet for classes, of a stated number of lines or of any; one class may be left out.
    pub(crate) fn make(
        &mut self,
        total: Option<usize>,
        classes: Classes,
        skip: Option<usize>,
        seed: usize,
    ) {
        self.count = 0;
        let mut left = (0..classes.n).filter(|v| classes.has(*v)).count();
        for v in 0..classes.n {
            if classes.has(v) && skip != Some(v) {
                let s = next(seed.wrapping_add(v));
                let bands = bands_of(self.count, left, total, s);
                self.split(v, bands, next(s));
                left = left.saturating_sub(1);
            }
        }
    }
}
