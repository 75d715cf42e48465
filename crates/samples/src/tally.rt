// How many questions were asked, and how many answers differ.
ghost use Rattle.std.specs.Prelude.{◌≡◌, ◌+◌, ◌%◌, ◌^◌, cond};

use std::fmt;

#[derive(Clone, Copy)]
pub struct Tally {
    pub asked: usize,
    pub differences: usize,
}

impl Tally {
    pub fn new() -> Tally
        ensures { result ≡ record { asked = 0; differences = 0 } }
    {
        Tally {
            asked: 0,
            differences: 0,
        }
    }

    pub fn right() -> Tally
        ensures { result ≡ record { asked = 1; differences = 0 } }
    {
        Tally {
            asked: 1,
            differences: 0,
        }
    }

    pub fn wrong() -> Tally
        ensures { result ≡ record { asked = 1; differences = 1 } }
    {
        Tally {
            asked: 1,
            differences: 1,
        }
    }

    // One answer, that is as it is to be or not.
    pub fn of(same: bool) -> Tally
        ensures { result ≡ record { asked = 1; differences = cond same 0 1 } }
    {
        if same { Tally::right() } else { Tally::wrong() }
    }

    pub fn plus(self, other: Tally) -> Tally
        ensures { result ≡ record { asked = (self.asked + other.asked) % 2 ^ 64; differences = (self.differences + other.differences) % 2 ^ 64 } }
    {
        Tally {
            asked: self.asked.wrapping_add(other.asked),
            differences: self.differences.wrapping_add(other.differences),
        }
    }
}

// As the programs print it.
impl fmt::Display for Tally {
    fn fmt<W: fmt::Write>(&self, f: &mut fmt::Formatter<W>) -> fmt::Result {
        write!(f, "{},{}", self.asked, self.differences)
    }
}
