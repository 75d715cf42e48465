// Two answers to one question, by two offices' tables.
use answers::Answer;
use samples::tally::Tally;

// How many questions were asked, how many answers differ, and of how many questions the cells do, and their count.
#[derive(Clone, Copy)]
pub(crate) struct Count {
    pub(crate) tally: Tally,
    pub(crate) cells: usize,
    pub(crate) counts: usize,
}

impl Count {
    pub(crate) fn new() -> Count {
        Count {
            tally: Tally::new(),
            cells: 0,
            counts: 0,
        }
    }

    // A question without cells.
    pub(crate) fn without_cells(same: bool) -> Count {
        Count {
            tally: Tally::of(same),
            cells: 0,
            counts: 0,
        }
    }

    pub(crate) fn plus(self, other: Count) -> Count {
        let tally = self.tally;
        Count {
            tally: tally.plus(other.tally),
            cells: self.cells.wrapping_add(other.cells),
            counts: self.counts.wrapping_add(other.counts),
        }
    }
}

// What so many questions give together, each by its number.
pub(crate) fn total<F: Fn(usize) -> Count>(count: usize, ask: F) -> Count
    requires { F.IsAlwaysCallable ask }
{
    let mut sum = Count::new();
    for i in 0..count {
        sum = sum.plus(ask(i));
    }
    sum
}

#[derive(Clone, Copy)]
pub(crate) struct Pair {
    pub(crate) first: Answer,
    pub(crate) second: Answer,
}

impl Pair {
    // At most so many cells each.
    pub(crate) fn is_few(&self, most: u32) -> bool {
        let a = self.first.cells;
        let b = self.second.cells;
        a.count <= most && b.count <= most
    }

    pub(crate) fn has_one_number(&self) -> bool {
        self.first.number == self.second.number
    }

    // Whether the same stands for the number and the word.
    pub(crate) fn has_one_word(&self) -> bool {
        self.first.word == self.second.word
    }

    // The question, where its answers are the same or not.
    pub(crate) fn counted(&self, same: bool) -> Count {
        let a = self.first.cells;
        let b = self.second.cells;
        let counts = a.count != b.count;
        Count {
            tally: Tally::of(same),
            cells: usize::from(counts || a.at != b.at),
            counts: usize::from(counts),
        }
    }
}
