// KIND, GROUPS and JUMPS.
ghost use Rattle.std.specs.Prelude.{◌≤◌};

use crate::book::Book;
use crate::codes::shape;
use crate::words::start;
use samples::climbing::above;
use samples::words::{TOP, get, put};

// A list of up to 512 entries, in an array with its count: there is no heap.
#[derive(Clone, Copy)]
pub(crate) struct Entries {
    at: [u32; 512],
    count: usize,
    ghost few: { count ≤ 512 },
}

impl Entries {
    // The entries of which something holds, in preorder.
    pub(crate) fn of<F: Fn(usize) -> bool>(book: &Book, holds: F) -> Entries
        requires { F.IsAlwaysCallable holds }
    {
        let mut at = [0u32; 512];
        let mut count = 0;
        for i in 0..book.parents.len() {
            let v = get(&book.order, i);
            if holds(v) && count < 512 {
                put(&mut at, count, v);
                count += 1;
            }
        }
        Entries { at, count }
    }

    pub(crate) fn all(&self) -> &[u32] {
        &self.at[..self.count]
    }
}

impl<'a> Book<'a> {
    fn is_micro(&self, v: usize) -> bool {
        get(&self.size, v) <= 7
    }

    pub(crate) fn is_root(&self, v: usize) -> bool {
        self.is_micro(v) && self.parent(v).is_none_or(|p| !self.is_micro(p))
    }

    // Whether v has a child that is not micro.
    fn has_large_child(&self, v: usize) -> bool {
        self.parents
            .iter()
            .enumerate()
            .any(|(u, word)| *word as usize == v && !self.is_micro(u))
    }

    pub(crate) fn is_jump(&self, v: usize) -> bool {
        !self.is_micro(v) && !self.has_large_child(v)
    }

    // KIND of v: its group and its local number there, or the first jump entry at or below it. The top mark would show a slip.
    fn kind(&self, roots: &[u32], jumps: &[u32], v: usize) -> usize {
        if !self.is_micro(v) {
            let j = jumps.iter().position(|j| self.holds(v, *j as usize));
            return j.unwrap_or(TOP);
        }
        let Some(g) = roots.iter().position(|r| self.holds(*r as usize, v)) else {
            return TOP;
        };
        let local = get(&self.pre, v).saturating_sub(get(&self.pre, get(roots, g)));
        g.wrapping_mul(8)
            .wrapping_add(2147483648)
            .wrapping_add(local)
    }

    pub(crate) fn lay_kinds(&self, roots: &[u32], jumps: &[u32], want: &mut [u32]) {
        let n = self.parents.len();
        let cells = start(1, n);
        for v in 0..n {
            put(want, cells.wrapping_add(v), self.kind(roots, jumps, v));
        }
    }

    // GROUPS, zeros behind left as they are.
    pub(crate) fn lay_groups(&self, roots: &[u32], want: &mut [u32]) {
        let mut at = start(8, self.parents.len());
        for r in roots {
            let root = *r as usize;
            put(want, at, get(&self.pre, root));
            put(want, at.wrapping_add(1), shape(self, root));
            put(want, at.wrapping_add(2), get(self.parents, root));
            at = at.wrapping_add(3);
        }
    }

    // The ancestor so far above v, or 0 where v is less deep.
    fn reached(&self, v: usize, far: usize) -> usize {
        if get(&self.depth, v) < far {
            return 0;
        }
        above(self.parents, v, far)
    }

    // A jump entry's record, from a cell on.
    fn record(&self, v: usize, at: usize, want: &mut [u32]) {
        put(want, at, get(&self.depth, v));
        for e in 0..20 {
            put(
                want,
                at.wrapping_add(1).wrapping_add(e),
                self.reached(v, 1 << e),
            );
        }
    }

    // JUMPS, zeros behind left as they are.
    pub(crate) fn lay_jumps(&self, jumps: &[u32], want: &mut [u32]) {
        let mut at = start(11, self.parents.len());
        for v in jumps {
            self.record(*v as usize, at, want);
            at = at.wrapping_add(21);
        }
    }
}
