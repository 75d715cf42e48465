// The program's state between two pieces of its input.
ghost use Rattle.std.specs.Prelude.{◌≡◌, ◌-◌, leb};
ghost use Rattle.counter_stream.specs.Fitness.{start_state, end_state, is_end, phase_fits, most_line};

use lines::room::MOST_LISTED;

// What the next line is to be.
#[derive(Clone, Copy, PartialEq, Eq)]
pub enum Phase {
    AwaitsCount,
    AwaitsParent,
    AwaitsQuestion,
    AtEnd,
}

// The phase, the next line's number, the entries announced and those read, and how many bytes of an unfinished line are held: in buffers that the
// caller lends to each call, of which `Fed` speaks apart from the state.
#[derive(Clone, Copy, PartialEq, Eq)]
pub struct State {
    pub phase: Phase,
    pub line: u64,
    pub count: u32,
    pub filled: u32,
    pub held: usize,
}

impl State {
    // Before the first byte.
    pub fn start() -> State
        ensures { result ≡ start_state }
    {
        State {
            phase: Phase::AwaitsCount,
            line: 1,
            count: 0,
            filled: 0,
            held: 0,
        }
    }

    // At the end: nothing more is read or printed.
    pub(crate) fn end() -> State
        ensures { result ≡ end_state }
    {
        State {
            phase: Phase::AtEnd,
            line: 0,
            count: 0,
            filled: 0,
            held: 0,
        }
    }

    // Whether nothing more is read or printed.
    pub fn is_at_end(self) -> bool
        ensures { result ≡ is_end self.phase }
    {
        matches!(self.phase, Phase::AtEnd)
    }

    // Whether the lines of so many bytes can all be numbered.
    pub(crate) fn is_numbered(self, bytes: usize) -> bool
        ensures { result ≡ leb bytes (most_line - self.line) }
    {
        bytes as u64 <= u64::MAX - self.line
    }

    // Whether the phase's numbers can be those of a list that the program takes.
    pub(crate) fn phase_fits(self) -> bool
        ensures { result ≡ phase_fits self.phase self }
    {
        match self.phase {
            Phase::AwaitsCount => self.line == 1,
            Phase::AwaitsParent => self.filled < self.count && self.count <= MOST_LISTED,
            Phase::AwaitsQuestion => self.count <= MOST_LISTED,
            Phase::AtEnd => true,
        }
    }
}
