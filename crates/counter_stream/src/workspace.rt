// The buffers that are lent, and which states fit them.
ghost use Rattle.std.specs.Prelude.{◌≡◌};
ghost use Rattle.counter_stream.specs.Fitness.{has_room, fits};
ghost use Rattle.counter_stream.specs.Loans.{lent_by};

use crate::phases::State;
use lines::room::{LINE_ROOM, LIST_ROOM, SPACE_ROOM, TABLE_ROOM};

// The bytes of an unfinished line, the parents, the table and the working space of its preparation.
#[derive(Drop)]
pub struct Workspace<'a> {
    pub line: &'a mut [u8],
    pub parents: &'a mut [u32],
    pub table: &'a mut [u32],
    pub space: &'a mut [u32],
}

impl Workspace<'_> {
    // Whether a state fits the buffers.
    pub(crate) fn is_fit(&self, state: State) -> bool
        ensures { result ≡ fits state (lent_by self.now) }
    {
        if !self.has_room() || LINE_ROOM < state.held {
            return false;
        }
        state.phase_fits() && !self.line[..state.held].contains(&b'\n')
    }

    // Whether the buffers have room for the longest line and the longest list.
    fn has_room(&self) -> bool
        ensures { result ≡ has_room (lent_by self.now) }
    {
        LINE_ROOM <= self.line.len()
            && LIST_ROOM <= self.parents.len()
            && TABLE_ROOM <= self.table.len()
            && SPACE_ROOM <= self.space.len()
    }
}
