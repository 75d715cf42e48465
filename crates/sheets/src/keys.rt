// The parts of keys and words, as `specs/Keys` defines them. Keys and words are two arrays, since only the keys are sorted: a word stays at its line's place.
ghost use Rattle.std.specs.Prelude.{◌≡◌, List, [], ◌∷◌, ◌++◌, ◌+◌, ◌≤◌, ◌<◌, length};
ghost use Rattle.base.specs.Limits.{most_entries};
ghost use Rattle.base.specs.Amounts.{most_lines, most_sum, most_rate};
ghost use Rattle.bands.specs.Bands as bands;
ghost use Rattle.sheets.specs.Keys.{key_class, key_from, key_line, word_to, word_rate, Stored};

use lines::band_lines::Band;

// What one class, one amount and one line count in a key, and one amount in a word.
pub const CLASS_UNIT: u64 = 8796093022208;

pub const FROM_UNIT: u64 = 4096;

const FROM_SPAN: u64 = 2147483648;

const TO_UNIT: u64 = 1048576;

pub(crate) fn class_of(key: u64) -> u32
    ensures { result ≡ key_class key }
{
    (key / CLASS_UNIT) as u32
}

pub(crate) fn from_of(key: u64) -> u32
    ensures { result ≡ key_from key }
{
    (key / FROM_UNIT % FROM_SPAN) as u32
}

pub(crate) fn line_of(key: u64) -> usize
    ensures { result ≡ key_line key }
{
    (key % FROM_UNIT) as usize
}

pub(crate) fn to_of(word: u64) -> u64
    ensures { result ≡ word_to word }
{
    word / TO_UNIT
}

pub(crate) fn rate_of(word: u64) -> u32
    ensures { result ≡ word_rate word }
{
    (word % TO_UNIT) as u32
}

// A line's band behind those that are stored.
pub(crate) fn lay(keys: &mut [u64], words: &mut [u64], at: usize, band: Band)
    requires { (at < most_lines) × (at < length keys.old) × (at < length words.old) × (band.class.0 < most_entries) × (band.from ≤ band.to) × (band.to ≤ most_sum) × (band.rate ≤ most_rate) }
    ensures { (bs : List bands.Band) → Stored words.old keys.old at bs → Stored words.new keys.new (at + 1) (bs ++ (record { class = band.class.0; from = band.from; to = band.to; rate = band.rate } ∷ [])) }
{
    keys[at] = band.class.0 as u64 * CLASS_UNIT + band.from as u64 * FROM_UNIT + at as u64;
    words[at] = band.to as u64 * TO_UNIT + band.rate as u64;
}
