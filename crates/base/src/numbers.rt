// The numbers of the answers, as `specs/Numbers` defines them with what each names.
pub const ACCEPTED: u32 = 0;

pub const COUNT: u32 = 1;

pub const SHORT_TABLE: u32 = 2;

pub const SHORT_SPACE: u32 = 3;

pub const STRAY: u32 = 4;

pub const TOPS: u32 = 5;

pub const LOOP: u32 = 6;

pub const UNKNOWN: u32 = 7;

pub const TOO_DEEP: u32 = 8;

pub const BROKEN: u32 = 9;

pub const NOT_ABOVE: u32 = 10;

pub const BAD_RATE: u32 = 11;

pub const BAD_SUM: u32 = 12;

pub const BAD_LINE: u32 = 13;

pub const GAP: u32 = 14;

pub const OVERLAP: u32 = 15;
