// The bands of a sheet, by plain counting.
use crate::line_words::{CLASS, FROM, RATE, TO, part};
use samples::amounts::MOST_SUM;
use samples::refusals::Refusal;

// The words of so many lines.
#[derive(Clone, Copy)]
pub(crate) struct Bands<'a> {
    pub(crate) words: &'a [u32],
    pub(crate) count: usize,
}

impl<'a> Bands<'a> {
    // Whether a line is a class's and holds an amount.
    fn holds(&self, line: usize, class: usize, x: usize) -> bool {
        part(self.words, line, CLASS) == class
            && part(self.words, line, FROM) <= x
            && x <= part(self.words, line, TO)
    }

    // How many lines hold an amount of a class.
    fn covers(&self, class: usize, x: usize) -> usize {
        (0..self.count).filter(|i| self.holds(*i, class, x)).count()
    }

    // The rate of the first line that holds an amount of a class, or 0.
    pub(crate) fn rate(&self, class: usize, x: usize) -> usize {
        let line = (0..self.count).find(|i| self.holds(*i, class, x));
        line.map_or(0, |i| part(self.words, i, RATE))
    }

    // The lower of an amount at fault and x, where x is an amount at fault.
    fn lower(&self, class: usize, x: usize, best: Option<usize>) -> Option<usize> {
        if MOST_SUM < x || best.is_some_and(|b| b <= x) || self.covers(class, x) == 1 {
            return best;
        }
        Some(x)
    }

    // The lowest amount of a class that is not in one band only: where the count changes, so 0, a line's first amount or the one behind its last.
    fn lowest(&self, class: usize) -> Option<usize> {
        let mut best = self.lower(class, 0, None);
        for i in 0..self.count {
            if part(self.words, i, CLASS) == class {
                best = self.lower(class, part(self.words, i, FROM), best);
                best = self.lower(class, part(self.words, i, TO).wrapping_add(1), best);
            }
        }
        best
    }

    // The fault of a class, if it has one.
    pub(crate) fn judge(&self, class: usize) -> Result<(), Refusal> {
        match self.lowest(class) {
            None => Ok(()),
            Some(x) if self.covers(class, x) == 0 => Err(Refusal::Gap(class, x)),
            Some(x) => Err(Refusal::Shared(class, x)),
        }
    }
}
