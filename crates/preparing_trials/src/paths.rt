// LADDERS and LADPOS.
use crate::book::Book;
use crate::words::start;
use samples::climbing::above;
use samples::words::{get, put};

impl<'a> Book<'a> {
    // Whether a long path starts at v.
    fn is_path_top(&self, v: usize) -> bool {
        self.parent(v).is_none_or(|p| self.long_child(p) != Some(v))
    }

    // The nearest ancestors of v, so many, from the top down, into the cells from `at` on.
    fn ancestors(&self, v: usize, count: usize, at: usize, want: &mut [u32]) {
        for k in 0..count {
            put(want, at.wrapping_add(k), above(self.parents, v, count - k));
        }
    }

    // The path from v down, from an index of LADDERS on, and the LADPOS of its entries.
    fn path(&self, v: usize, index: usize, want: &mut [u32]) {
        let n = self.parents.len();
        let ladders = start(6, n);
        let ladpos = start(2, n);
        let mut u = v;
        for i in index..index.wrapping_add(n) {
            put(want, ladders.wrapping_add(i), u);
            put(want, ladpos.wrapping_add(u), i);
            match self.long_child(u) {
                Some(child) => u = child,
                None => return,
            }
        }
    }

    // The ladder of the path from v, if one starts there, from an index of LADDERS on. Answers the index behind it.
    fn ladder(&self, v: usize, index: usize, want: &mut [u32]) -> usize {
        if !self.is_path_top(v) {
            return index;
        }
        let height = get(&self.height, v);
        let count = height.min(get(&self.depth, v));
        let at = start(6, self.parents.len()).wrapping_add(index);
        self.ancestors(v, count, at, want);
        let own = index.wrapping_add(count);
        self.path(v, own, want);
        own.wrapping_add(height)
    }

    // Every ladder, in preorder of the paths' tops.
    pub(crate) fn lay_ladders(&self, want: &mut [u32]) {
        let mut index = 0;
        for i in 0..self.parents.len() {
            index = self.ladder(get(&self.order, i), index, want);
        }
    }

    pub(crate) fn count_paths(&self) -> usize {
        (0..self.parents.len())
            .filter(|v| self.is_path_top(*v))
            .count()
    }
}
