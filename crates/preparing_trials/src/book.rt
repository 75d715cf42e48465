// What is known of each entry of a list of up to 512 that forms one tree.
ghost use Rattle.std.specs.Prelude.{◌≤◌, length};

use samples::words::{TOP, get};

// A word for each entry, by number, but `order`, which has the entry at each position.
#[derive(Drop)]
pub(crate) struct Book<'a> {
    pub(crate) parents: &'a [u32],
    pub(crate) depth: [u32; 512],
    pub(crate) size: [u32; 512],
    pub(crate) height: [u32; 512],
    // how far behind its parent an entry comes in preorder
    pub(crate) offset: [u32; 512],
    pub(crate) pre: [u32; 512],
    pub(crate) order: [u32; 512],
    // the child to which the long path continues, or the top mark
    pub(crate) long: [u32; 512],
    ghost short: { length parents.now ≤ 512 },
}

// The entry of a word, where that is not the top mark.
fn entry(word: usize) -> Option<usize> {
    if word == TOP { None } else { Some(word) }
}

impl<'a> Book<'a> {
    pub(crate) fn new(parents: &'a [u32]) -> Book<'a>
        requires { length parents.now ≤ 512 }
    {
        Book {
            parents,
            depth: [0; 512],
            size: [0; 512],
            height: [0; 512],
            offset: [0; 512],
            pre: [0; 512],
            order: [0; 512],
            long: [0; 512],
        }
    }

    pub(crate) fn parent(&self, v: usize) -> Option<usize> {
        entry(get(self.parents, v))
    }

    // The child to which the long path continues.
    pub(crate) fn long_child(&self, v: usize) -> Option<usize> {
        entry(get(&self.long, v))
    }

    // Whether u is v or below it.
    pub(crate) fn holds(&self, v: usize, u: usize) -> bool {
        let first = get(&self.pre, v);
        let i = get(&self.pre, u);
        first <= i && i < first.wrapping_add(get(&self.size, v))
    }
}
