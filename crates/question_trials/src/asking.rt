// A table that is asked, and one question to the engine, held to what it is to answer.
use answers::Answer;
use base::Node;
use plain_steps::Walk;
use samples::refusals::{Refusal, numbers};
use samples::tally::Tally;
use samples::words::{narrow, wide};

// What a question is to give.
pub(crate) type Outcome = Result<usize, Refusal>;

// A table, the shapes' strings, and the list that the table is of.
#[derive(Clone, Copy)]
pub(crate) struct Trial<'a> {
    pub(crate) table: &'a [u32],
    pub(crate) strings: &'a [u32],
    pub(crate) parents: &'a [u32],
}

// What a question gives, and the printed steps, with the cells that it may list at most.
#[derive(Clone, Copy)]
pub(crate) struct Asked {
    answer: Answer,
    walk: Walk,
    most: u32,
}

impl Asked {
    // Whether the answer is that of the printed steps, and lists no more cells than its question may.
    fn is_walked(&self) -> bool {
        let answer = self.answer;
        let listed = answer.cells;
        let cells = listed.at;
        listed.count <= self.most
            && self
                .walk
                .same(answer.number, answer.word, listed.count, cells)
    }

    // Holds the answer to the printed steps.
    pub(crate) fn compared(&self) -> Tally {
        Tally::of(self.is_walked())
    }

    // Holds it to them, and to what it is to give.
    pub(crate) fn gives(&self, want: Outcome) -> Tally {
        let (number, word) = numbers(want);
        let answer = self.answer;
        let same = wide(answer.number) == number && wide(answer.word) == word;
        Tally::of(same && self.is_walked())
    }
}

// Each question by the engine's function and by the printed steps' of its name: as two parameters of one function they would stand at every place that asks.
impl<'a> Trial<'a> {
    pub(crate) fn level(&self, v: usize, d: usize) -> Asked {
        let (v, d) = (narrow(v), narrow(d));
        Asked {
            answer: query::level(self.table, Node(v), d),
            walk: plain_steps::level(self.table, self.strings, v, d),
            most: 10,
        }
    }

    pub(crate) fn climb(&self, v: usize, k: usize) -> Asked {
        let (v, k) = (narrow(v), narrow(k));
        Asked {
            answer: query::climb(self.table, Node(v), k),
            walk: plain_steps::climb(self.table, self.strings, v, k),
            most: 10,
        }
    }

    pub(crate) fn rating(&self, v: usize, d: usize) -> Asked {
        let (v, d) = (narrow(v), narrow(d));
        Asked {
            answer: query::rating(self.table, Node(v), d),
            walk: plain_steps::rating(self.table, self.strings, v, d),
            most: 10,
        }
    }

    pub(crate) fn ancestry(&self, u: usize, v: usize) -> Asked {
        let (u, v) = (narrow(u), narrow(v));
        Asked {
            answer: query::ancestry(self.table, Node(u), Node(v)),
            walk: plain_steps::ancestry(self.table, u, v),
            most: 4,
        }
    }

    pub(crate) fn branch(&self, u: usize, v: usize) -> Asked {
        let (u, v) = (narrow(u), narrow(v));
        Asked {
            answer: query::branch(self.table, Node(u), Node(v)),
            walk: plain_steps::branch(self.table, self.strings, u, v),
            most: 15,
        }
    }
}
