// The room that the longest list, the longest line and the longest row take.
use base::limits;

// The most entries of a list that the program takes, and the words of its table and of its working space.
pub const MOST_LISTED: u32 = 512;

pub const LIST_ROOM: usize = MOST_LISTED as usize;

pub const TABLE_ROOM: usize = limits::HEADER_CELLS as usize
    + limits::JUMPS as usize * LIST_ROOM
    + limits::RECORD_WORDS as usize * (LIST_ROOM / (limits::GROUP_LIMIT as usize + 1));

pub const SPACE_ROOM: usize = limits::REGIONS as usize * LIST_ROOM;

// The bytes of the longest line of a form that the program knows, and those of a row.
pub const LINE_ROOM: usize = 23;

pub const ROW_ROOM: usize = 64;
