// The premium of a sum insured: the class by the rating lookup, its rate from a list of rates, and the cents.
#![tactic(auto)]

ghost use Rattle.std.specs.Prelude.{◌≡◌, List, [], ◌∷◌, ℕ, slice_get};
ghost use Rattle.tree.specs.Questions.{rating_of};
ghost use Rattle.answers.specs.Answers.{answer_words};
ghost use Rattle.answers.specs.Promises.{Gives, Few};
ghost use Rattle.premiums.specs.Promises.{Local, Right};
ghost use Rattle.premiums.specs.Quotes.{price_of, quote_to};

use answers::{ANSWER_WORDS, Answer};
use base::numbers::{ACCEPTED, BAD_RATE};
use base::{Cents, Node, Sum};
use money::{Price, priced, refused};
use query::{rating, rating_words};

// An answer with the money: number, class and the cells of the rating lookup, and the premium.
#[derive(Clone, Copy)]
pub struct Quote {
    pub answer: Answer,
    pub cents: Cents,
}

// The premium of a sum insured for entry v at rating level d, by a list of rates, one for each entry.
pub fn premium(table: &[u32], rates: &[u32], v: Node, d: u32, sum: Sum) -> Quote
    ensures answer { result ≡ quote_to table.now rates.now v.0 d sum.0 }
    ensures numbers { Gives (0 ∷ 7 ∷ 9 ∷ 11 ∷ 12 ∷ []) result.answer }
    ensures few { Few 10 result.answer }
    ensures local { Local (λ t. quote_to t rates.now v.0 d sum.0) table.now result }
    ensures right { Right (λ ps. price_of rates.now sum.0 (rating_of ps v.0 d)) table.now result }
{
    let found = rating(table, v, d);
    let cells = found.cells;
    let rate = rate_at(rates, found.word);
    let price = after_lookup(found.number, found.word, rate, sum);
    let answer = Answer {
        number: price.number,
        word: price.word,
        cells,
    };
    let cents = price.cents;
    Quote { answer, cents }
}

// As `premium`, the answer in words of the caller's.
pub fn premium_words(
    table: &[u32],
    rates: &[u32],
    v: Node,
    d: u32,
    sum: Sum,
    words: &mut [u32; ANSWER_WORDS],
) -> Cents
    ensures answer { words.new ≡ answer_words (quote_to table.now rates.now v.0 d sum.0).answer }
    ensures cents { result ≡ (quote_to table.now rates.now v.0 d sum.0).cents }
{
    rating_words(table, v, d, words);
    let rate = rate_at(rates, words[1]);
    let price = after_lookup(words[0], words[1], rate, sum);
    words[0] = price.number;
    words[1] = price.word;
    price.cents
}

// The rate of an entry, if the list has one for it.
fn rate_at(rates: &[u32], entry: u32) -> Option<u32>
    ensures { result ≡ slice_get rates.now entry }
{
    rates.get(entry as usize).copied()
}

// The number is no `Refusal`, as in `money::Price`.
// The price behind a rating lookup of that number and word, whose word has that rate, if the list has one for it.
fn after_lookup(number: u32, word: u32, rate: Option<u32>, sum: Sum) -> Price
    ensures { (rates : List ℕ) → rate ≡ slice_get rates word → result ≡ price_of rates sum.0 (record { number = number; word = word }) }
{
    if number != ACCEPTED {
        return refused(number, word);
    }
    match rate {
        Some(rate) => priced(word, rate, sum),
        None => refused(BAD_RATE, 0),
    }
}
