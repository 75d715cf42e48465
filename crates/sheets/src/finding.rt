// The band of an amount in a checked sheet, by halving.
ghost use Rattle.std.specs.Prelude.{◌≡◌, List, ℕ, ◌≤◌, length};
ghost use Rattle.base.specs.Amounts.{most_lines, most_rate};
ghost use Rattle.sorting.specs.Orders.{Ascending};
ghost use Rattle.bands.specs.Bands.{Band, band_of};
ghost use Rattle.sheets.specs.Keys.{key_bands, Legal};
ghost use Rattle.sheets.specs.Checked.{sheet_words, head_level, head_lines, level_in, Single, Checked};
ghost use Rattle.sheets.specs.Parts.{top_bit, Low, Parted, range_at, found_band, Within};

use crate::SHEET_WORDS;
use crate::judging::LEVEL_UNIT;
use crate::keys::{CLASS_UNIT, FROM_UNIT, class_of, from_of, line_of, rate_of, to_of};
use base::Node;
use base::amounts::{MOST_LINES, MOST_RATE, MOST_SUM};
use base::limits::MOST_ENTRIES;

// The top bit of a word of 64 bits, which each key is below, and the bits below it.
const TOP_BIT: u64 = 9223372036854775808;

const LOW_BITS: u64 = TOP_BIT - 1;

// The amounts of a band, and its rate.
#[derive(Clone, Copy)]
pub struct Range {
    pub from: u32,
    pub to: u64,
    pub rate: u32,
}

// The level of a checked sheet.
pub fn level_of(sheet: &[u64; SHEET_WORDS]) -> u32
    ensures { result ≡ level_in sheet.now }
{
    stated_level(sheet[0])
}

// The band that holds an amount of a class. In words that hold no checked sheet it may be any band, with a rate within its limit.
pub fn find(sheet: &[u64; SHEET_WORDS], class: Node, amount: u64) -> Option<Range>
    ensures found { (d : ℕ) (bs : List Band) → Checked sheet.now d bs → found_band class.0 result ≡ band_of bs class.0 amount }
    ensures limit { Within most_rate result }
{
    let m = stated_lines(sheet[0]);
    band_in(
        &sheet[1..1 + m],
        &sheet[1 + MOST_LINES..SHEET_WORDS],
        class,
        amount,
    )
}

// The level and the number of lines that the first word of a checked sheet states; the lines are 4,096 at the most.
fn stated_level(head: u64) -> u32
    ensures { result ≡ head_level head }
{
    (head / LEVEL_UNIT) as u32
}

fn stated_lines(head: u64) -> usize
    ensures { (result ≡ head_lines head) × (result ≤ most_lines) }
{
    let m = (head % LEVEL_UNIT) as usize;
    m.min(MOST_LINES)
}

// The last band that begins at the amount or before it, where it holds it.
fn band_in(keys: &[u64], words: &[u64], class: Node, amount: u64) -> Option<Range>
    requires { length words.now ≡ most_lines }
    ensures found { Legal words.now keys.now → Ascending keys.now → Single (key_bands words.now keys.now) class.0 → found_band class.0 result ≡ band_of (key_bands words.now keys.now) class.0 amount }
    ensures limit { Within most_rate result }
{
    let wanted = class.0;
    if MOST_ENTRIES <= wanted {
        return None;
    }
    if MOST_SUM < amount {
        return None;
    }
    let end = below(
        keys,
        wanted as u64 * CLASS_UNIT + amount * FROM_UNIT + FROM_UNIT,
    );
    if end == 0 {
        return None;
    }
    let key = keys[end - 1];
    range_of(key, words[line_of(key)], class, amount)
}

// The band of a key and its line's word, where it is of a class and reaches an amount.
fn range_of(key: u64, word: u64, class: Node, amount: u64) -> Option<Range>
    ensures { (found_band class.0 result ≡ range_at key word class.0 amount) × Within most_rate result }
{
    let wanted = class.0;
    let to = to_of(word);
    let rate = rate_of(word);
    if class_of(key) != wanted {
        return None;
    }
    if to < amount {
        return None;
    }
    if MOST_RATE < rate {
        return None;
    }
    Some(Range {
        from: from_of(key),
        to,
        rate,
    })
}

// How many keys are below x, where they are in increasing order and each below the top bit. What is below x is told by the top bit of a difference: by a branch, as
// the library's `partition_point` tells it, halving takes three times as long.
fn below(keys: &[u64], x: u64) -> usize
    requires { x ≤ top_bit }
    ensures { (result ≤ length keys.now) × (Ascending keys.now → Low keys.now → Parted keys.now x result) }
{
    let mut low: usize = 0;
    let mut size = keys.len();
    if size == 0 {
        return 0;
    }
    let top = LOW_BITS + x;
    while 1 < size {
        let half = size / 2;
        size -= half;
        let bit = (top - keys[low + half] % TOP_BIT) / TOP_BIT;
        low += half * (bit as usize);
    }
    if keys[low] < x { low + 1 } else { low }
}
