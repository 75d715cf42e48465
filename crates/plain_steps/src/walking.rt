// A walk at its end: the cells read, in the order read, how many, and the answer's number and word.
ghost use Rattle.std.specs.Prelude.{◌≡◌, true};
ghost use Rattle.samples.specs.Refusals.{numbers_of};
ghost use Rattle.plain_steps.specs.Same.{Same};

use crate::cells::Cells;
use samples::refusals::{Refusal, numbers};

// The number stands for a refusal, or 0 for none, as `Same` compares it with an answer's. The cells are an array with its count: there is no heap.
#[derive(Clone, Copy)]
pub struct Walk {
    pub(crate) number: usize,
    pub(crate) word: usize,
    pub(crate) count: usize,
    pub(crate) cells: [u32; 15],
}

impl Walk {
    pub(crate) fn end(cells: Cells, found: Result<usize, Refusal>) -> Walk
        ensures count { result.count ≡ cells.count }
        ensures told { (result.number, result.word) ≡ numbers_of found }
    {
        let (number, word) = numbers(found);
        let at = cells.at;
        Walk {
            number,
            word,
            count: cells.count,
            cells: at,
        }
    }

    // Whether an answer is the walk's, in its number, its result word, its count and all fifteen places.
    pub fn same(self, number: u32, word: u32, count: u32, cells: [u32; 15]) -> bool
        ensures { (result ≡ true → Same self number word count cells) × (Same self number word count cells → result ≡ true) }
    {
        if self.number != number as usize
            || self.word != word as usize
            || self.count != count as usize
        {
            return false;
        }
        self.cells == cells
    }
}
