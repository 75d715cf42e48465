// Depth, size, height, preorder and long paths, each by its definition: by climbs from every entry.
ghost use Rattle.std.specs.Prelude.{◌≤◌, length};

use crate::book::Book;
use samples::climbing::climbs;
use samples::words::{TOP, get, put};

impl<'a> Book<'a> {
    // Counts in the entry `at` one that is k below it.
    fn count_in(&mut self, at: usize, k: usize) {
        let size = get(&self.size, at);
        put(&mut self.size, at, size.wrapping_add(1));
        if get(&self.height, at) <= k {
            put(&mut self.height, at, k.wrapping_add(1));
        }
    }

    // Counts v in the size and the height of itself and of every entry above it.
    fn count_above(&mut self, v: usize) {
        let mut at = v;
        for k in 0..self.parents.len() {
            self.count_in(at, k);
            match self.parent(at) {
                Some(p) => at = p,
                None => return,
            }
        }
    }

    fn measure(&mut self) {
        let n = self.parents.len();
        for v in 0..n {
            put(&mut self.depth, v, climbs(self.parents, n, v));
            self.count_above(v);
        }
    }

    // How far v comes behind its parent in preorder: its lower siblings and all below them come first.
    fn far(&self, v: usize) -> usize {
        let Some(p) = self.parent(v) else {
            return 0;
        };
        let mut sum: usize = 1;
        for (u, word) in self.parents.iter().take(v).enumerate() {
            if *word as usize == p {
                sum = sum.wrapping_add(get(&self.size, u));
            }
        }
        sum
    }

    fn offsets(&mut self) {
        for v in 0..self.parents.len() {
            let far = self.far(v);
            put(&mut self.offset, v, far);
        }
    }

    // v's position: the offsets of itself and of every entry above it.
    fn place(&self, v: usize) -> usize {
        let mut sum: usize = 0;
        let mut at = v;
        for _ in self.parents {
            sum = sum.wrapping_add(get(&self.offset, at));
            match self.parent(at) {
                Some(p) => at = p,
                None => return sum,
            }
        }
        sum
    }

    fn places(&mut self) {
        for v in 0..self.parents.len() {
            let i = self.place(v);
            put(&mut self.pre, v, i);
            put(&mut self.order, i, v);
        }
    }

    // The child of greatest height, the lowest number on a tie.
    fn tallest(&self, v: usize) -> Option<usize> {
        let mut best = None;
        let mut most = 0;
        for (u, word) in self.parents.iter().enumerate() {
            if *word as usize == v {
                let height = get(&self.height, u);
                if most < height {
                    most = height;
                    best = Some(u);
                }
            }
        }
        best
    }

    fn long_children(&mut self) {
        for v in 0..self.parents.len() {
            // In words, where the top mark stands for none.
            let child = self.tallest(v);
            put(&mut self.long, v, child.unwrap_or(TOP));
        }
    }

    // The book of a list that forms one tree.
    pub(crate) fn of(parents: &'a [u32]) -> Book<'a>
        requires { length parents.now ≤ 512 }
    {
        let mut book = Book::new(parents);
        book.measure();
        book.offsets();
        book.places();
        book.long_children();
        book
    }
}
