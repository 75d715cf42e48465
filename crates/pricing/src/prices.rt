// The price behind a rating lookup: by a text, and by a checked sheet.
ghost use Rattle.std.specs.Prelude.{◌≡◌, List, ℕ};
ghost use Rattle.bands.specs.Bands.{Band};
ghost use Rattle.sheets.specs.Verdicts.{check_to, bands_on};
ghost use Rattle.sheets.specs.Checked.{Checked};
ghost use Rattle.pricing.specs.Quotes.{refusing, class_price, sheet_price};
ghost use Rattle.pricing.specs.Parts.{Offer, BySheet};

use base::amounts::MOST_SUM;
use base::numbers::{ACCEPTED, BAD_SUM, GAP};
use base::{Cents, Node, Sum};
use money::{priced, size};
use sheets::{SHEET_WORDS, check_into, find};

// The number of an answer, the class or what the refusal names, the amount that 14 and 15 name besides, and the premium. The number is no `Refusal`, as that of `money::Price` is none: it goes
// into an answer's words as it stands.
#[derive(Clone, Copy)]
pub struct SheetPrice {
    pub number: u32,
    pub word: u32,
    pub amount: u32,
    pub cents: Cents,
}

// A refusal's price; the number is no `Refusal`, as in `money::Price`, here and below.
fn refused(number: u32, word: u32, amount: u32) -> SheetPrice
    ensures { result ≡ refusing (record { number = number; word = word; amount = amount }) }
{
    SheetPrice {
        number,
        word,
        amount,
        cents: Cents(0),
    }
}

// The price by a text, where the rating lookup has that number and word.
pub(crate) fn by_text(
    table: &[u32],
    text: &[u8],
    d: u32,
    number: u32,
    word: u32,
    sum: Sum,
) -> SheetPrice
    ensures { result ≡ sheet_price (check_to table.now d text.now) (bands_on table.now d text.now) sum.0 (record { number = number; word = word }) }
{
    if number != ACCEPTED {
        return refused(number, word, 0);
    }
    let mut sheet = [0u64; SHEET_WORDS];
    match check_into(table, text, d, &mut sheet) {
        Ok(_) => by_bands(&sheet, word, sum),
        Err(refusal) => refused(refusal.number(), refusal.word(), refusal.amount()),
    }
}

// The price by a checked sheet, where the rating lookup has that number and word.
pub(crate) fn by_sheet(sheet: &[u64; SHEET_WORDS], number: u32, word: u32, sum: Sum) -> SheetPrice
    ensures { BySheet sheet.now sum.0 (record { number = number; word = word }) result }
{
    if number != ACCEPTED {
        return refused(number, word, 0);
    }
    by_bands(sheet, word, sum)
}

// The price of a class by a checked sheet.
fn by_bands(sheet: &[u64; SHEET_WORDS], class: u32, sum: Sum) -> SheetPrice
    ensures priced { (d : ℕ) (bs : List Band) → Checked sheet.now d bs → result ≡ class_price bs sum.0 class }
    ensures offer { Offer sum.0 class result }
{
    let amount = size(sum);
    if MOST_SUM < amount {
        return refused(BAD_SUM, 0, 0);
    }
    let Some(range) = find(sheet, Node(class), amount) else {
        return refused(GAP, class, amount as u32);
    };
    let price = priced(class, range.rate, sum);
    let cents = price.cents;
    SheetPrice {
        number: price.number,
        word: price.word,
        amount: 0,
        cents,
    }
}
