// Sheets with bands: the check of a sheet's text, and a checked sheet in words of the caller's, in which the band of an amount is found.
#![tactic(auto)]

mod finding;
mod judging;
mod keys;
mod listing;
mod sweeping;

ghost use Rattle.std.specs.Prelude.{◌≡◌, [], ◌∷◌, IfOk, IfErr};
ghost use Rattle.sheets.specs.Verdicts.{told, check_to, bands_on};
ghost use Rattle.sheets.specs.Promises.{Gives, Right, Accepts};
ghost use Rattle.sheets.specs.Checked.{Checked};

use base::Refusal;
use base::amounts::MOST_LINES;
use base::limits::HEADER_CELLS;
pub use finding::{Range, find, level_of};
use query::entries;

// The words of a checked sheet: one for its level and the number of its lines, a key and a word for each line.
pub const SHEET_WORDS: usize = 1 + MOST_LINES + MOST_LINES;

// The check of a sheet of rating level d: how many lines it has, where it is accepted.
pub fn check(table: &[u32], text: &[u8], d: u32) -> Result<u32, Refusal>
    ensures answer { told result ≡ check_to table.now d text.now }
    ensures numbers { Gives (0 ∷ 9 ∷ 13 ∷ 14 ∷ 15 ∷ []) (told result) }
    ensures right { Right d text.now table.now (told result) }
    ensures accepts { Accepts d text.now table.now (told result) }
{
    let mut sheet = [0u64; SHEET_WORDS];
    check_into(table, text, d, &mut sheet)
}

// As `check`; an accepted sheet is written to words of the caller's, for many quotations. A refusal leaves them as they were.
pub fn check_into(
    table: &[u32],
    text: &[u8],
    d: u32,
    sheet: &mut [u64; SHEET_WORDS],
) -> Result<u32, Refusal>
    ensures answer { told result ≡ check_to table.now d text.now }
    ensures kept { IfErr result (λ e. sheet.new ≡ sheet.old) }
    ensures checked { IfOk result (λ m. Checked sheet.new d (bands_on table.now d text.now)) }
{
    let n = entries(table)?;
    let start = HEADER_CELLS as usize;
    let end = start + n as usize;
    judging::judge_text(&table[start..end], text, d, sheet)
}
