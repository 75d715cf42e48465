// The lines of a sheet, read and stored one by one up to the first bad one.
ghost use Rattle.std.specs.Prelude.{◌≡◌, ◌≤◌, length};
ghost use Rattle.base.specs.Limits.{most_entries};
ghost use Rattle.base.specs.Amounts.{most_lines};
ghost use Rattle.bands.specs.Bands.{is_band};
ghost use Rattle.sheets.specs.Texts.{sheet_of};
ghost use Rattle.sheets.specs.Listings.{LineRead, ListingOf};

use crate::keys::lay;
use crate::sweeping::is_covered;
use base::Refusal;
use base::amounts::{MOST_LINES, MOST_RATE, MOST_SUM};
use lines::band_lines::{Band, read_band};

// All lines of a text.
pub(crate) fn read_lines(
    text: &[u8],
    depths: &[u32],
    d: u32,
    keys: &mut [u64],
    words: &mut [u64],
) -> Result<usize, Refusal>
    requires { (length depths.now ≤ most_entries) × (length keys.old ≡ most_lines) × (length words.old ≡ most_lines) }
    ensures { ListingOf (sheet_of depths.now d text.now) result words.new keys.new }
{
    let mut at: usize = 0;
    let mut k: usize = 0;
    while at < text.len() {
        let Some(next) = read_line(text, at, depths, d, keys, words, k) else {
            return Err(Refusal::BadLine(k as u32 + 1));
        };
        at = next;
        k += 1;
    }
    Ok(k)
}

// Line k + 1, which begins at a place of a text: its band is stored behind the k before it.
fn read_line(
    text: &[u8],
    at: usize,
    depths: &[u32],
    d: u32,
    keys: &mut [u64],
    words: &mut [u64],
    k: usize,
) -> Option<usize>
    requires { (length depths.now ≤ most_entries) × (length keys.old ≡ most_lines) × (length words.old ≡ most_lines) }
    ensures { LineRead depths.now d k text.now at words.old keys.old words.new keys.new result }
{
    if MOST_LINES <= k {
        return None;
    }
    let (band, next) = read_band(text, at)?;
    if !is_band(depths, d, band) {
        return None;
    }
    lay(keys, words, k, band);
    Some(next)
}

// Whether a line of a sheet of level d may state a band.
fn is_band(depths: &[u32], d: u32, band: Band) -> bool
    ensures { result ≡ is_band depths.now d (record { class = band.class.0; from = band.from; to = band.to; rate = band.rate }) }
{
    let at = band.class.0 as usize;
    if depths.len() <= at {
        return false;
    }
    if !is_covered(d, depths[at]) {
        return false;
    }
    if band.to < band.from {
        return false;
    }
    if MOST_SUM < band.to as u64 {
        return false;
    }
    band.rate <= MOST_RATE
}
