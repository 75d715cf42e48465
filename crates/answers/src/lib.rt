// Answers: the cells read by value, and the answer that carries them.
#![tactic(auto)]

ghost use Rattle.std.specs.Prelude.{◌≡◌, [], ◌+◌, ◌<◌, set};
ghost use Rattle.base.specs.Refusals.{outcome_of};
ghost use Rattle.answers.specs.Answers.{pushed, listed, answer_of, answer_words};

use base::Refusal;
use base::numbers::ACCEPTED;

// The places of a list of cells, and the words of an answer: its number, its result word, those places and their count.
pub const PLACES: usize = 15;

pub const ANSWER_WORDS: usize = PLACES + 3;

// The cells read, in the order read. Places past the count are 0. An array with its count, as document 01 and the C interface have them.
#[derive(Clone, Copy, PartialEq, Eq)]
pub struct Cells {
    pub at: [u32; PLACES],
    pub count: u32,
}

// An answer: its number and result word, up to fifteen cell numbers and their count. A number and a word, and no Result, as document 01 and the C interface have them.
#[derive(Clone, Copy, PartialEq, Eq)]
pub struct Answer {
    pub number: u32,
    pub word: u32,
    pub cells: Cells,
}

impl Cells {
    pub fn new() -> Cells
        ensures { result ≡ listed [] }
    {
        Cells {
            at: [0; PLACES],
            count: 0,
        }
    }

    // The list with a cell at place i, which becomes its last.
    fn put(mut self, i: u32, cell: u32) -> Cells
        requires { i < 15 }
        ensures { result ≡ record { at = set self.at i cell; count = i + 1 } }
    {
        self.at[i as usize] = cell;
        self.count = i + 1;
        self
    }

    // The list with one cell more. A full list stays as it is. Each arm stores at a constant place, so that the compiler can hold a list whose count it
    // knows in registers: stored at the count, a level lookup takes 128 instructions in place of 124, and ancestry 114 in place of 59.
    pub fn push(self, cell: u32) -> Cells
        ensures { result ≡ pushed self cell }
    {
        let count = self.count;
        match count {
            0 => self.put(0, cell),
            1 => self.put(1, cell),
            2 => self.put(2, cell),
            3 => self.put(3, cell),
            4 => self.put(4, cell),
            5 => self.put(5, cell),
            6 => self.put(6, cell),
            7 => self.put(7, cell),
            8 => self.put(8, cell),
            9 => self.put(9, cell),
            10 => self.put(10, cell),
            11 => self.put(11, cell),
            12 => self.put(12, cell),
            13 => self.put(13, cell),
            14 => self.put(14, cell),
            _ => self,
        }
    }
}

impl Answer {
    // The answer of what was found or refused, with the cells read.
    pub fn new(reply: Result<u32, Refusal>, cells: Cells) -> Answer
        ensures { result ≡ answer_of (outcome_of reply) cells }
    {
        let (number, word) = match reply {
            Ok(word) => (ACCEPTED, word),
            Err(refusal) => (refusal.number(), refusal.word()),
        };
        Answer {
            number,
            word,
            cells,
        }
    }
}

// In words, as an answer is handed to other languages.
impl From<Answer> for [u32; ANSWER_WORDS] {
    ghost from_gives = { λ answer words. words ≡ answer_words answer };

    fn from(answer: Answer) -> [u32; ANSWER_WORDS] {
        let cells = answer.cells;
        let at = cells.at;
        [
            answer.number,
            answer.word,
            at[0],
            at[1],
            at[2],
            at[3],
            at[4],
            at[5],
            at[6],
            at[7],
            at[8],
            at[9],
            at[10],
            at[11],
            at[12],
            at[13],
            at[14],
            cells.count,
        ]
    }
}

// The answer that stands in words.
impl From<[u32; ANSWER_WORDS]> for Answer {
    ghost from_gives = { λ words answer. answer_words answer ≡ words };

    fn from(words: [u32; ANSWER_WORDS]) -> Answer {
        let at = [
            words[2], words[3], words[4], words[5], words[6], words[7], words[8], words[9],
            words[10], words[11], words[12], words[13], words[14], words[15], words[16],
        ];
        let cells = Cells {
            at,
            count: words[17],
        };
        Answer {
            number: words[0],
            word: words[1],
            cells,
        }
    }
}
