// Questions on damaged tables, held to the printed steps, and to step 1 and bounds where they list no cells: what a wrong word leads to has no plain climb to be
// compared with.
ghost use Rattle.std.specs.Prelude.{◌≤◌, length};

use crate::asking::Trial;
use samples::climbing::{above, climbs};
use samples::seeds::{next, pick};
use samples::tally::Tally;
use samples::words::{TOP, get, put};

const MICRO: usize = 2147483648;

// Cell 0 of no entries.
const HEADER: usize = 1073741824;

// The shapes of groups.
const SHAPES: usize = 197;

const WRONG_WORDS: usize = 15;

// The i-th wrong word for a cell: what the tests of the steps stand on, and some by seed.
fn wrong_word(i: usize, word: usize, n: usize, seed: usize) -> usize {
    match i {
        0 => 0,
        1 => word.wrapping_add(1),
        2 => word.saturating_sub(1),
        3 => n,
        4 => n.saturating_sub(1),
        5 => n.wrapping_mul(2),
        6 => TOP,
        7 => MICRO,
        8 => n.wrapping_mul(8).wrapping_add(MICRO),
        9 => MICRO.wrapping_add(pick(seed, n.wrapping_mul(8))),
        10 => pick(seed, n.wrapping_mul(2)),
        11 => SHAPES,
        12 => SHAPES - 1,
        13 => pick(seed, SHAPES),
        _ => seed.wrapping_mul(2),
    }
}

impl<'a> Trial<'a> {
    // Questions about v: at some depths, with an entry that was above it, and with another.
    fn about(&self, v: usize, seed: usize) -> Tally {
        let n = self.parents.len();
        let other = pick(seed, n);
        let most = climbs(self.parents, n, v).wrapping_add(1);
        let u = above(self.parents, v, pick(next(seed), most));
        self.level(v, 0)
            .compared()
            .plus(self.rating(v, 1).compared())
            .plus(self.level(v, other).compared())
            .plus(self.rating(v, other).compared())
            .plus(self.rating(v, TOP).compared())
            .plus(self.climb(v, 1).compared())
            .plus(self.ancestry(u, v).compared())
            .plus(self.branch(u, v).compared())
            .plus(self.branch(v, other).compared())
            .plus(self.common_any(v, other))
    }

    // Questions about every entry that there was, and about n.
    fn probe(&self, seed: usize) -> Tally {
        let mut sum = Tally::new();
        let mut s = seed;
        for v in 0..self.parents.len().wrapping_add(1) {
            s = next(s);
            sum = sum.plus(self.about(v, s));
        }
        sum
    }
}

// A table that is damaged, the shapes' strings, and the list that the table is of.
#[derive(Drop)]
pub(crate) struct Damaged<'a> {
    pub(crate) table: &'a mut [u32],
    pub(crate) strings: &'a [u32],
    pub(crate) parents: &'a [u32],
}

impl<'a> Damaged<'a> {
    // Questions on its first words.
    fn probe(&self, words: usize, seed: usize) -> Tally
        requires { words ≤ length self.now.table.now }
    {
        let trial = Trial {
            table: &self.table[..words],
            strings: self.strings,
            parents: self.parents,
        };
        trial.probe(seed)
    }

    // With one wrong word after another in a cell, which gets its own back.
    fn cell_wrong(&mut self, cell: usize) -> Tally {
        let word = get(self.table, cell);
        let mut sum = Tally::new();
        let mut seed = cell;
        for i in 0..WRONG_WORDS {
            seed = next(seed);
            put(
                self.table,
                cell,
                wrong_word(i, word, self.parents.len(), seed),
            );
            sum = sum.plus(self.probe(self.table.len(), seed));
        }
        put(self.table, cell, word);
        sum
    }

    // With a wrong word in each cell in turn.
    fn each_wrong(&mut self) -> Tally {
        let mut sum = Tally::new();
        for cell in 0..self.table.len() {
            sum = sum.plus(self.cell_wrong(cell));
        }
        sum
    }

    // With other numbers of entries claimed, so that the sections stand elsewhere, and with cell 0 as an older table has it.
    fn claims(&mut self) -> Tally {
        let n = self.parents.len();
        let mut sum = Tally::new();
        for claim in 0..n.wrapping_add(3) {
            put(self.table, 0, claim);
            sum = sum.plus(self.probe(self.table.len(), claim));
            put(self.table, 0, claim.wrapping_add(HEADER));
            sum = sum.plus(self.probe(self.table.len(), claim));
        }
        put(self.table, 0, n.wrapping_add(HEADER));
        sum
    }

    // Cut short at every length.
    fn cuts(&self) -> Tally {
        let mut sum = Tally::new();
        for words in 0..self.table.len() {
            sum = sum.plus(self.probe(words, words));
        }
        sum
    }

    // With more and more wrong words, past cell 0.
    fn decay(&mut self) -> Tally {
        let n = self.parents.len();
        let cells = self.table.len();
        let mut sum = Tally::new();
        let mut seed = n;
        for _ in 0..200 {
            seed = next(seed);
            let cell = pick(seed, cells.saturating_sub(1)).wrapping_add(1);
            let which = pick(next(seed), WRONG_WORDS);
            let word = get(self.table, cell);
            put(
                self.table,
                cell,
                wrong_word(which, word, n, next(next(seed))),
            );
            sum = sum.plus(self.probe(cells, seed));
        }
        sum
    }

    // Every way to damage the table.
    pub(crate) fn tried(&mut self) -> Tally {
        let short = self.cuts();
        let other = self.claims();
        let one = self.each_wrong();
        let many = self.decay();
        short.plus(other).plus(one).plus(many)
    }
}
