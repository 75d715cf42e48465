// The verdict on a text, by the depths of all entries; an accepted sheet in words of the caller's.
ghost use Rattle.std.specs.Prelude.{◌≡◌, List, ◌∷◌, ◌++◌, ◌+◌, ◌*◌, ◌≤◌, length, take, true};
ghost use Rattle.base.specs.Limits.{most_entries};
ghost use Rattle.base.specs.Amounts.{most_lines};
ghost use Rattle.base.specs.Lists.{every};
ghost use Rattle.bands.specs.Bands.{Band, is_band};
ghost use Rattle.sheets.specs.Texts.{sheet_of, whole};
ghost use Rattle.sheets.specs.Keys.{Legal, Stored};
ghost use Rattle.sheets.specs.Checked.{sheet_words, level_unit};
ghost use Rattle.sheets.specs.Parts.{Judged};

use crate::SHEET_WORDS;
use crate::listing::read_lines;
use crate::sweeping::lowest_fault;
use base::Refusal;
use base::amounts::MOST_LINES;
use sorting::sort;

// What one level counts in the first word of a checked sheet.
pub const LEVEL_UNIT: u64 = 4294967296;

// The verdict on a text.
pub(crate) fn judge_text(
    depths: &[u32],
    text: &[u8],
    d: u32,
    sheet: &mut [u64; SHEET_WORDS],
) -> Result<u32, Refusal>
    requires { length depths.now ≤ most_entries }
    ensures { Judged depths.now d (sheet_of depths.now d text.now) result sheet.old sheet.new }
{
    let mut keys = [0u64; MOST_LINES];
    let mut words = [0u64; MOST_LINES];
    let mut spare = [0u64; MOST_LINES];
    let m = read_lines(text, depths, d, &mut keys, &mut words)?;
    judge_bands(&mut keys, &words, &mut spare, m, depths, d, sheet)
}

// The verdict on the bands of m lines.
fn judge_bands(
    keys: &mut [u64],
    words: &[u64],
    spare: &mut [u64],
    m: usize,
    depths: &[u32],
    d: u32,
    sheet: &mut [u64; SHEET_WORDS],
) -> Result<u32, Refusal>
    requires { (m ≤ most_lines) × (length keys.old ≡ most_lines) × (length words.now ≡ most_lines) × (length spare.old ≡ most_lines) × (length depths.now ≤ most_entries) × Legal words.now (take m keys.old) }
    ensures { (bs : List Band) → length bs ≡ m → every (is_band depths.now d) bs ≡ true → Stored words.now keys.old m bs → Judged depths.now d (whole bs) result sheet.old sheet.new }
{
    sort(&mut keys[..m], &mut spare[..m]);
    lowest_fault(&keys[..m], words, depths, d)?;
    keep(keys, words, m, d, sheet);
    Ok(m as u32)
}

// The words of an accepted sheet.
fn keep(keys: &[u64], words: &[u64], m: usize, d: u32, sheet: &mut [u64])
    requires { (length sheet.old ≡ sheet_words) × (m ≤ most_lines) × (length keys.now ≡ most_lines) × (length words.now ≡ most_lines) }
    ensures { sheet.new ≡ (d * level_unit + m) ∷ (keys.now ++ words.now) }
{
    sheet[1..1 + MOST_LINES].copy_from_slice(keys);
    sheet[1 + MOST_LINES..SHEET_WORDS].copy_from_slice(words);
    sheet[0] = d as u64 * LEVEL_UNIT + m as u64;
}
