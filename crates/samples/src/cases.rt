// The lists, line by line of what `preparing_trials` prints: each with its length, and with the words of the table and of the space to try it with.
ghost use Rattle.std.specs.Prelude.{◌≡◌, ◌≤◌};
ghost use Rattle.samples.specs.Cases.{count_of, room, Lengths};

use crate::codings::{any_coded, any_list, grown_coded, grown_list};
use crate::damage::{Fault, damage};
use crate::lists::{Kind, make, permute};
use crate::seeds::{next, pick};

pub const LINES: usize = 16;

// The kinds come first, then a line for each fault, then lengths that are too short, then all small lists. Lines stay numbers, as `count_of` and `Lengths` name them.
pub const KINDS: usize = 7;

const EMPTY: usize = 11;

const TABLE: usize = 12;

const SPACE: usize = 13;

pub const ANY: usize = 14;

pub const GROWN: usize = 15;

// A list's length, and the words of the table and of the space that go with it.
#[derive(Clone, Copy)]
pub struct Case {
    pub n: usize,
    pub table: usize,
    pub space: usize,
}

// 1 to 40, and some up to 512.
fn size_at(k: usize) -> usize
    ensures { result ≤ 512 }
{
    match k {
        0..=39 => k + 1,
        40 => 64,
        41 => 100,
        42 => 127,
        43 => 128,
        44 => 200,
        45 => 255,
        46 => 256,
        47 => 257,
        48 => 300,
        49 => 400,
        50 => 510,
        51 => 511,
        _ => 512,
    }
}

// How many lists a line has. There are 53 sizes: four lists of each for a kind, and one of each kind for a fault or a length.
#[tactic(auto, unfolding(crate::specs::Cases::count_of))]
pub fn count_at(line: usize) -> usize
    ensures { result ≡ count_of line }
{
    match line {
        ANY => 1440,
        GROWN => 11828,
        _ if line < KINDS => 212,
        _ => 371,
    }
}

// Permutes the numbers of a list where k is odd.
fn number(n: usize, k: usize, seed: usize, parents: &mut [u32])
    requires { n ≤ 512 }
{
    if k % 2 == 1 {
        permute(n, next(seed), parents);
    }
}

// A list of a kind, and of a size by its number. Answers its length.
fn kind_list(kind: Kind, size: usize, k: usize, seed: usize, parents: &mut [u32]) -> usize
    ensures { result ≤ 512 }
{
    let n = size_at(size);
    make(kind, n, seed, parents);
    number(n, k, seed, parents);
    n
}

fn any_at(k: usize, parents: &mut [u32]) -> usize
    ensures { result ≤ 512 }
{
    let c = any_coded(k);
    any_list(c, parents);
    c.n
}

fn grown_at(k: usize, seed: usize, parents: &mut [u32]) -> usize
    ensures { result ≤ 512 }
{
    let c = grown_coded(k / 2);
    grown_list(c, parents);
    number(c.n, k, seed, parents);
    c.n
}

// The list of a line, before any fault. Its arms have other arguments each: a table of closures would hold the same calls.
fn list_at(line: usize, k: usize, seed: usize, parents: &mut [u32]) -> usize
    ensures { result ≤ 512 }
{
    match line {
        ANY => any_at(k, parents),
        GROWN => grown_at(k, seed, parents),
        _ if line < KINDS => kind_list(Kind::from(line), k / 4, k, seed, parents),
        _ => kind_list(Kind::from(k % 7), k / 7, k, seed, parents),
    }
}

// W, of a list of up to 512 entries: a clause here and below, as `room` and `Lengths` name n.
fn table_words(n: usize) -> usize
    requires { n ≤ 512 }
    ensures { (result ≡ room n) × (result ≤ 6980) }
{
    4 + 11 * n + 21 * (n / 8)
}

// The lengths of a line's case: table and space have up to three words to spare, or are too short.
fn lengths(line: usize, n: usize, seed: usize) -> Case
    requires { n ≤ 512 }
    ensures { Lengths line result }
{
    let spare = pick(seed, 4);
    let words = table_words(n);
    let table = words + spare;
    let space = 6 * n + spare;
    let missing = pick(seed, n) + 1;
    match line {
        EMPTY => Case { n: 0, table, space },
        TABLE => Case {
            n,
            table: words.saturating_sub(missing),
            space: space.saturating_sub(pick(next(seed), 3)),
        },
        SPACE => Case {
            n,
            table,
            space: (6 * n).saturating_sub(missing),
        },
        _ => Case { n, table, space },
    }
}

// The fault of a line's k-th list. Where a length is too short, the fault is not to be seen.
fn fault_at(line: usize, k: usize) -> Option<Fault> {
    match line {
        7..=10 => Fault::at(line - KINDS),
        EMPTY | TABLE | SPACE => Fault::at(k % 5),
        _ => None,
    }
}

// The k-th case of a line, with its list in `parents`.
pub fn case_at(line: usize, k: usize, parents: &mut [u32]) -> Case
    ensures { Lengths line result }
{
    let seed = next(next(k.wrapping_add(line.wrapping_mul(10000))));
    let n = list_at(line, k, seed, parents);
    if let Some(fault) = fault_at(line, k) {
        damage(fault, n, seed, parents);
    }
    lengths(line, n, seed)
}
