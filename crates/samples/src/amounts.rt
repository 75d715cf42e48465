// Sums by sign and size, and the cents of a premium by plain arithmetic.
ghost use Rattle.std.specs.Prelude.{◌≡◌, ◌<◌, ◌≤◌, max};
ghost use Rattle.samples.specs.Amounts.{signed_of, parts_of, cents_of};

use crate::seeds::{next, pick};

pub const MOST_SUM: usize = 2000000000;

pub const MOST_RATE: usize = 1000000;

// The signed number, or the least that there is where the size is more than one has.
#[tactic(auto, unfolding(crate::specs::Amounts::signed_of))]
pub fn signed(negative: bool, size: usize) -> i64
    ensures { result ≡ signed_of negative size }
{
    match i64::try_from(size) {
        Ok(x) => { if negative { -x } else { x } }
        Err(_) => i64::MIN,
    }
}

// Size times rate, 0 where either is over its limit.
#[tactic(auto, unfolding(crate::specs::Amounts::parts_of))]
pub fn product(size: usize, rate: usize) -> usize
    ensures { result ≡ parts_of size rate }
{
    if MOST_SUM < size || MOST_RATE < rate {
        return 0;
    }
    size * rate
}

// The nearest number of cents, a half up: twice the parts and one cent, by twice a cent's parts.
#[tactic(auto, unfolding(crate::specs::Amounts::cents_of))]
pub fn cents(parts: usize) -> usize
    ensures { result ≡ cents_of parts }
{
    if 2000000000000000 < parts {
        return 0;
    }
    (2 * parts + 10000) / 20000
}

// A class, and the size of its cents.
#[derive(Clone, Copy)]
pub struct Due {
    pub class: usize,
    pub cents: usize,
}

// A rate: at either end, a third one, or any.
pub fn drawn_rate(seed: usize, third: usize) -> usize
    ensures { result ≤ max 1000000 third }
{
    match pick(seed, 8) {
        0 => 0,
        1 => MOST_RATE,
        2 => third,
        _ => pick(next(seed), MOST_RATE + 1),
    }
}

// A size below the greatest, of any number of digits, from two draws.
pub fn drawn(seed: usize) -> usize
    ensures { result < 2000000000 }
{
    let millions = pick(seed, 2000);
    millions * 1000000 + pick(next(seed), 1000000)
}
