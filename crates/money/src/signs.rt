// A signed number as a sign and a size; all else works on sizes.
ghost use Rattle.std.specs.Prelude.{◌≡◌, ◌<◌, ◌^◌, nat_abs};
ghost use Rattle.money.specs.Premium.{negative, with_sign};

use base::{Cents, Sum};

// The size of a sum, also of the least number that there is.
pub fn size(sum: Sum) -> u64
    ensures { result ≡ nat_abs sum.0 }
{
    sum.0.unsigned_abs()
}

// Whether a sum is below zero.
pub(crate) fn negative(sum: Sum) -> bool
    ensures { result ≡ negative sum.0 }
{
    sum.0.is_negative()
}

// A size with a sign.
pub(crate) fn signed(negative: bool, n: u64) -> Cents
    requires { n < 2 ^ 63 }
    ensures { result.0 ≡ with_sign negative n }
{
    let cents = n as i64;
    Cents(if negative { -cents } else { cents })
}
