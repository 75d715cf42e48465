// Where the sections of the table start, as multiples of n, and the words of an entry in LADDERS, of a group and of a record.
use base::limits;

// The header, and the sections behind it.
pub(crate) const HEADER_CELLS: usize = limits::HEADER_CELLS as usize;

pub(crate) const LADPOS: usize = limits::LADPOS as usize;

pub(crate) const LADDERS: usize = limits::LADDERS as usize;

pub(crate) const JUMPS: usize = limits::JUMPS as usize;

pub(crate) const LADDER_WORDS: usize = limits::LADDER_WORDS as usize;

pub(crate) const GROUP_WORDS: usize = limits::GROUP_WORDS as usize;

pub(crate) const RECORD_WORDS: usize = limits::RECORD_WORDS as usize;
