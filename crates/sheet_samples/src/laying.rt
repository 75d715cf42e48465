// The lines of a sheet that is made.
use plain_sheets::line_words::{CLASS, FROM, RATE, ROOM, TO, part, set_part};

// Their words, and how many there are: there is no heap.
#[derive(Drop)]
pub(crate) struct Lines {
    pub(crate) words: [u32; ROOM],
    pub(crate) count: usize,
}

impl Lines {
    pub(crate) fn new() -> Lines {
        Lines {
            words: [0; ROOM],
            count: 0,
        }
    }

    pub(crate) fn part(&self, line: usize, field: usize) -> usize {
        part(&self.words, line, field)
    }

    pub(crate) fn set(&mut self, line: usize, field: usize, x: usize) {
        set_part(&mut self.words, line, field, x);
    }

    // A line's four fields.
    fn lay(&mut self, line: usize, class: usize, from: usize, to: usize, rate: usize) {
        self.set(line, CLASS, class);
        self.set(line, FROM, from);
        self.set(line, TO, to);
        self.set(line, RATE, rate);
    }

    // A line behind the others.
    pub(crate) fn push(&mut self, class: usize, from: usize, to: usize, rate: usize) {
        self.lay(self.count, class, from, to, rate);
        self.count = self.count.wrapping_add(1);
    }

    // The last line comes in the place of another.
    pub(crate) fn drop_line(&mut self, line: usize) {
        let last = self.count.saturating_sub(1);
        let class = self.part(last, CLASS);
        let from = self.part(last, FROM);
        let to = self.part(last, TO);
        let rate = self.part(last, RATE);
        self.lay(line, class, from, to, rate);
        self.count = last;
    }
}
