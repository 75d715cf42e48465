// Faults of a sheet's lines: each spoils one thing.
use crate::kinds::Kind;
use crate::laying::Lines;
use plain_sheets::classes::Classes;
use plain_sheets::line_words::{CLASS, FROM, RATE, TO};
use samples::amounts::{MOST_RATE, MOST_SUM, drawn};
use samples::climbing::climbs;
use samples::seeds::{next, pick};
use samples::words::TOP;

// A number from a to b: either end, or one between.
fn between(a: usize, b: usize, seed: usize) -> usize {
    let most = b.saturating_sub(a);
    match pick(seed, 4) {
        0 => a,
        1 => b,
        2 => a.wrapping_add(pick(next(seed), 100).min(most)),
        _ => a.wrapping_add(drawn(next(seed)).min(most)),
    }
}

// A number over a limit.
fn over(limit: usize, seed: usize) -> usize {
    match pick(seed, 3) {
        0 => TOP,
        1 => limit.wrapping_add(1),
        _ => TOP.min(limit.wrapping_add(drawn(next(seed)).wrapping_add(1))),
    }
}

// An entry below the level, or a number that is no entry where there is none. `pick` goes by the higher digits, so 1,024 more is the next entry.
fn deeper(classes: Classes, seed: usize) -> usize {
    let n = classes.n;
    let mut s = seed;
    for _ in 0..n {
        let v = pick(s, n);
        if classes.level < climbs(classes.parents, n, v) {
            return v;
        }
        s = s.wrapping_add(1024);
    }
    n
}

// The field that makes a line bad, and its number then, where the line ends at `to`.
fn bad_field(kind: Kind, to: usize, classes: Classes, seed: usize) -> (usize, usize) {
    match kind {
        Kind::Unknown => (CLASS, over(classes.n.saturating_sub(1), seed)),
        Kind::Depth => (CLASS, deeper(classes, seed)),
        Kind::Above => (FROM, to.wrapping_add(1)),
        Kind::HighTo => (TO, over(MOST_SUM, seed)),
        _ => (RATE, over(MOST_RATE, seed)),
    }
}

impl Lines {
    // A line loses its first amount or its last; a line of one amount goes.
    fn lose(&mut self, seed: usize) {
        let j = pick(seed, self.count);
        let from = self.part(j, FROM);
        let to = self.part(j, TO);
        if from == to {
            self.drop_line(j);
        } else if pick(next(seed), 2) == 0 {
            self.set(j, FROM, from.wrapping_add(1));
        } else {
            self.set(j, TO, to.saturating_sub(1));
        }
    }

    // A band more of a line's class, from x to y.
    fn more(&mut self, j: usize, x: usize, y: usize) {
        let class = self.part(j, CLASS);
        self.push(class, x, y, 77);
    }

    // A line gets the amount behind its last; or an amount of it a line of its own.
    fn share(&mut self, seed: usize) {
        let j = pick(seed, self.count);
        let to = self.part(j, TO);
        if pick(next(seed), 2) == 0 && to < MOST_SUM {
            self.set(j, TO, to.wrapping_add(1));
            return;
        }
        let x = between(self.part(j, FROM), to, next(next(seed)));
        self.more(j, x, x);
    }

    // An amount of a line gets two lines of its own.
    fn share_twice(&mut self, seed: usize) {
        let j = pick(seed, self.count);
        let x = between(self.part(j, FROM), self.part(j, TO), next(seed));
        self.more(j, x, x);
        self.more(j, x, x);
    }

    // A line gets another inside it.
    fn nest(&mut self, seed: usize) {
        let j = pick(seed, self.count);
        let to = self.part(j, TO);
        let x = between(self.part(j, FROM), to, next(seed));
        let y = between(x, to, next(next(seed)));
        self.more(j, x, y);
    }

    // One fault of the amounts and another.
    fn spoil_twice(&mut self, seed: usize) {
        let other = next(next(next(seed)));
        if pick(seed, 2) == 0 {
            self.nest(seed);
            self.lose(other);
        } else {
            self.lose(seed);
            self.share(other);
        }
    }

    // A line gets a field that makes it bad.
    fn spoil_line(&mut self, kind: Kind, classes: Classes, seed: usize) {
        let j = pick(seed, self.count);
        let (field, x) = bad_field(kind, self.part(j, TO), classes, next(seed));
        self.set(j, field, x);
    }

    // Spoils what a kind of sheets names.
    pub(crate) fn spoil(&mut self, kind: Kind, classes: Classes, seed: usize) {
        match kind {
            Kind::Missing => self.lose(seed),
            Kind::Shared => self.share(seed),
            Kind::Three => self.share_twice(seed),
            Kind::Inside => self.nest(seed),
            Kind::Two | Kind::FullFault => self.spoil_twice(seed),
            // a gap, and a bad line before it or behind it
            Kind::Behind => {
                self.lose(seed);
                self.spoil_line(Kind::HighRate, classes, next(seed));
            }
            Kind::Unknown | Kind::Depth | Kind::Above | Kind::HighTo | Kind::HighRate => {
                self.spoil_line(kind, classes, seed);
            }
            _ => {}
        }
    }
}
