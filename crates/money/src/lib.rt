// What a sum insured costs at a rate: the premium in cents, or why there is none.
#![tactic(auto)]

mod rounding;
mod signs;

ghost use Rattle.std.specs.Prelude.{◌≡◌};
ghost use Rattle.money.specs.Prices.{refused, priced};

use base::amounts::{MOST_RATE, MOST_SUM};
use base::numbers::{ACCEPTED, BAD_RATE, BAD_SUM};
use base::{Cents, Sum};
pub use signs::size;

// The number of an answer, the class or what the refusal names, and the premium. The number is no `Refusal`: a price goes into an answer's words as it stands (`answer_words`), and a lookup's
// refusal comes in them.
#[derive(Clone, Copy)]
pub struct Price {
    pub number: u32,
    pub word: u32,
    pub cents: Cents,
}

// A refusal's price.
pub fn refused(number: u32, word: u32) -> Price
    ensures { result ≡ refused (record { number = number; word = word }) }
{
    Price {
        number,
        word,
        cents: Cents(0),
    }
}

// What a sum costs in a class at a rate.
pub fn priced(class: u32, rate: u32, sum: Sum) -> Price
    ensures { result ≡ priced class rate sum.0 }
{
    let over = MOST_RATE < rate;
    let outside = MOST_SUM < size(sum);
    if over {
        return refused(BAD_RATE, 0);
    }
    if outside {
        return refused(BAD_SUM, 0);
    }
    let cents = rounding::premium(sum, rate);
    Price {
        number: ACCEPTED,
        word: class,
        cents,
    }
}
