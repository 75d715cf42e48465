// The measures of a prepared table and of the working space, as `specs/Limits` defines them, and the top mark. Each number of the engine's code stands here; the
// limits of rates, sums and sheets in `amounts`, the numbers of the answers in `numbers`, the size of an answer in `answers`, the counter program's own in `lines::room`, those of
// a number in a text in `lines::reading`, the units of a checked sheet's words in `sheets`, the strides of a search in
// `common_ancestors`.
ghost use Rattle.std.specs.Prelude.{◌≡◌};
ghost use Rattle.base.specs.Limits.{header_of, entries_of, jump_room, table_words, space_words};

// The most entries of a parent list.
pub const MOST_ENTRIES: u32 = 1048576;

// The word of an entry that has none above it.
pub const TOP_MARK: u32 = 4294967295;

// The most entries of a group: the size up to which an entry is micro.
pub const GROUP_LIMIT: u32 = 7;

// The shapes of up to so many entries.
pub const SHAPE_COUNT: u32 = 197;

// KIND of a micro entry is at least this, and a group's number counts so much of it.
pub const MICRO_MARK: u32 = 2147483648;

pub const LOCAL_SPAN: u32 = 8;

// What cell 0 holds beside the number of entries.
pub const HEADER_MARK: u32 = 1073741824;

// The words of a jump record.
pub const RECORD_WORDS: u32 = 21;

// The cells before the sections. Behind them DEPTH starts at once and KIND after n cells, and each other section after so many times n.
pub const HEADER_CELLS: u32 = 4;

pub const LADPOS: u32 = 2;

pub const ORDER: u32 = 3;

pub const PRE: u32 = 4;

pub const SIZE: u32 = 5;

pub const LADDERS: u32 = 6;

pub const GROUPS: u32 = 8;

pub const JUMPS: u32 = 11;

// The local numbers of a group, and the climbs within it.
pub const LOCAL_NUMBERS: usize = GROUP_LIMIT as usize;

// A cell of the shape table where there is no climb.
pub const NO_LOCAL: u8 = 255;

// The cells of an entry in LADDERS, and the words of a group in GROUPS.
pub const LADDER_WORDS: u32 = 2;

pub const GROUP_WORDS: u32 = 3;

// The regions of n words of the working space.
pub const REGIONS: u32 = 6;

// Cell 0 for n entries, which is a word for every n that a table can have.
pub fn header_of(n: u32) -> u64
    ensures { result ≡ header_of n }
{
    n as u64 + HEADER_MARK as u64
}

// The number of entries that a cell 0 stands for, 0 where it is below the mark.
pub fn entries_of(word: u32) -> u32
    ensures { result ≡ entries_of word }
{
    if word < HEADER_MARK {
        return 0;
    }
    word - HEADER_MARK
}

// The records that JUMPS has room for.
pub fn jump_room(n: u32) -> u32
    ensures { result ≡ jump_room n }
{
    n / (GROUP_LIMIT + 1)
}

// W: the words of a prepared table of n entries.
pub fn table_words(n: u32) -> usize
    ensures { result ≡ table_words n }
{
    let entries = n as usize;
    HEADER_CELLS as usize + JUMPS as usize * entries + RECORD_WORDS as usize * jump_room(n) as usize
}

// The words of working space that preparing n entries takes.
pub fn space_words(n: u32) -> usize
    ensures { result ≡ space_words n }
{
    REGIONS as usize * n as usize
}
