// A table that has passed step 1, and reading a section of it, with the cell listed.
ghost use Rattle.std.specs.Prelude.{◌≡◌, ◌+◌, ◌^◌, ◌<◌, [], length};
ghost use Rattle.base.specs.Limits.{Sized};
ghost use Rattle.base.specs.Refusals.{outcome_of};
ghost use Rattle.answers.specs.Answers.{listed, pushed, answer_of};
ghost use Rattle.query.specs.Reads.{Held, Reads};

use answers::{Answer, Cells};
use base::{Node, Refusal};
use std::num::wrapping_add_u32;

// A table of n entries: step 1 has passed its words.
#[derive(Clone, Copy)]
pub struct Table<'a> {
    pub words: &'a [u32],
    pub n: u32,
    ghost sized: { Sized words.now n },
}

// A depth asked in a table, less than its number of entries.
#[derive(Clone, Copy)]
pub struct Asked<'a> {
    pub table: Table<'a>,
    pub d: u32,
    ghost within: { d < table.n },
}

// An entry v of a table, with the word of its DEPTH, less than the number of entries.
#[derive(Clone, Copy)]
pub struct Entry<'a> {
    pub table: Table<'a>,
    pub v: Node,
    pub depth: u32,
    ghost known: { v.0 < table.n },
    ghost within: { depth < table.n },
}

// The cells read so far, of which there are K.
#[derive(Clone, Copy)]
pub struct Listed<const K: u32> {
    pub cells: Cells,
    ghost held: { Held K cells },
}

// A word that was read, and the cells read so far.
#[derive(Clone, Copy)]
pub struct Got<const K: u32> {
    pub word: u32,
    pub cells: Listed<K>,
}

impl Listed<0> {
    pub(crate) fn new() -> Listed<0>
        ensures { result.cells ≡ listed [] }
    {
        Listed {
            cells: Cells::new(),
        }
    }
}

impl<const K: u32> Listed<K> {
    // The list with one cell more.
    pub(crate) fn push<const L: u32>(self, cell: u32) -> Listed<L>
        requires { (L ≡ K + 1) × (K < 15) }
        ensures { result.cells ≡ pushed self.entry.cells cell }
    {
        Listed {
            cells: self.cells.push(cell),
        }
    }

    // The answer of what was found or refused after these reads.
    pub(crate) fn answer(self, reply: Result<u32, Refusal>) -> Answer
        ensures { result ≡ answer_of (outcome_of reply) self.entry.cells }
    {
        Answer::new(reply, self.cells)
    }
}

impl Table<'_> {
    // The word at a place of a section, which starts at a cell. The sum may wrap by its type, so that the compiler makes it once: for the list, and for the address.
    pub(crate) fn read<const K: u32, const L: u32>(
        self,
        start: u32,
        place: u32,
        cells: Listed<K>,
    ) -> Got<L>
        requires { (start + place < length self.words.now) × (start + place < 2 ^ 32) × (L ≡ K + 1) × (K < 15) }
        ensures { Reads self.entry.words.now (start + place) cells.entry.cells result.word result.cells.cells }
    {
        let cell = wrapping_add_u32(start, place);
        let at = cell as usize;
        let word = self.words[at];
        let more = cells.push(cell);
        Got { word, cells: more }
    }
}
