// The premium of a sum insured by a sheet with bands: the class by the rating lookup, the rate of the band that holds the sum's size, and the cents.
#![tactic(auto)]

mod prices;

ghost use Rattle.std.specs.Prelude.{◌≡◌, [], ◌∷◌, set};
ghost use Rattle.answers.specs.Answers.{answer_words};
ghost use Rattle.answers.specs.Promises.{Gives, Few};
ghost use Rattle.pricing.specs.Quotes.{quoted, money_of, price_to, price_on};
ghost use Rattle.pricing.specs.Promises.{Local, Right, Quotation, QuotationWords};

use crate::prices::{by_sheet, by_text};
use answers::{ANSWER_WORDS, Answer, Cells};
use base::{Cents, Node, Sum};
pub use prices::SheetPrice;
use query::{rating, rating_words};
use sheets::{SHEET_WORDS, level_of};

// An answer with the money: number, class or what the refusal names and the cells of the rating lookup; the amount that 14 and 15 name besides; and the premium.
#[derive(Clone, Copy)]
pub struct BandQuote {
    pub answer: Answer,
    pub amount: u32,
    pub cents: Cents,
}

// The amount that a refusal names beside its word, and the premium.
#[derive(Clone, Copy)]
pub struct Money {
    pub amount: u32,
    pub cents: Cents,
}

// The premium of a sum insured for entry v at rating level d, by the text of a sheet.
pub fn price(table: &[u32], text: &[u8], v: Node, d: u32, sum: Sum) -> BandQuote
    ensures answer { result ≡ price_to table.now text.now v.0 d sum.0 }
    ensures numbers { Gives (0 ∷ 7 ∷ 9 ∷ 12 ∷ 13 ∷ 14 ∷ 15 ∷ []) result.answer }
    ensures few { Few 10 result.answer }
    ensures local { Local text.now v.0 d sum.0 table.now result }
    ensures right { Right (λ ps. price_on ps text.now v.0 d sum.0) table.now result }
{
    let found = rating(table, v, d);
    let cells = found.cells;
    quoted(
        by_text(table, text, d, found.number, found.word, sum),
        cells,
    )
}

// As `price`, the answer in words of the caller's.
pub fn price_words(
    table: &[u32],
    text: &[u8],
    v: Node,
    d: u32,
    sum: Sum,
    words: &mut [u32; ANSWER_WORDS],
) -> Money
    ensures answer { words.new ≡ answer_words (price_to table.now text.now v.0 d sum.0).answer }
    ensures money { result ≡ money_of (price_to table.now text.now v.0 d sum.0) }
{
    rating_words(table, v, d, words);
    let price = by_text(table, text, d, words[0], words[1], sum);
    put_price(price, words)
}

// The premium by a checked sheet, at the level that it was checked for.
pub fn quotation(table: &[u32], sheet: &[u64; SHEET_WORDS], v: Node, sum: Sum) -> BandQuote
    ensures { Quotation sheet.now v.0 sum.0 table.now result }
{
    let found = rating(table, v, level_of(sheet));
    let cells = found.cells;
    quoted(by_sheet(sheet, found.number, found.word, sum), cells)
}

// As `quotation`, the answer in words of the caller's.
pub fn quotation_words(
    table: &[u32],
    sheet: &[u64; SHEET_WORDS],
    v: Node,
    sum: Sum,
    words: &mut [u32; ANSWER_WORDS],
) -> Money
    ensures { QuotationWords sheet.now v.0 sum.0 table.now words.new result }
{
    rating_words(table, v, level_of(sheet), words);
    let price = by_sheet(sheet, words[0], words[1], sum);
    put_price(price, words)
}

// A price with the cells of its lookup.
fn quoted(price: SheetPrice, cells: Cells) -> BandQuote
    ensures { result ≡ quoted price cells }
{
    let answer = Answer {
        number: price.number,
        word: price.word,
        cells,
    };
    let cents = price.cents;
    BandQuote {
        answer,
        amount: price.amount,
        cents,
    }
}

// A price in the words of its lookup's answer, and what stands beside them.
fn put_price(price: SheetPrice, words: &mut [u32; ANSWER_WORDS]) -> Money
    ensures { (words.new ≡ set (set words.old 0 price.number) 1 price.word) × (result ≡ record { amount = price.amount; cents = price.cents }) }
{
    words[0] = price.number;
    words[1] = price.word;
    let cents = price.cents;
    Money {
        amount: price.amount,
        cents,
    }
}
