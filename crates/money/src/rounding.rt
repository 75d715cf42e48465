// The premium, to the nearest cent.
ghost use Rattle.std.specs.Prelude.{◌≡◌, ◌≤◌, nat_abs};
ghost use Rattle.base.specs.Amounts.{most_sum, most_rate};
ghost use Rattle.money.specs.Premium.{nearest, premium};

use crate::signs::{negative, signed, size};
use base::amounts::CENT_PARTS;
use base::{Cents, Sum};

// The premium of a sum in its range, at a rate in its range.
pub(crate) fn premium(sum: Sum, rate: u32) -> Cents
    requires { (nat_abs sum.0 ≤ most_sum) × (rate ≤ most_rate) }
    ensures { result.0 ≡ premium sum.0 rate }
{
    let cents = nearest(size(sum) * rate as u64);
    signed(negative(sum), cents)
}

// x parts of a cent in cents. The last arm is the half rule.
fn nearest(x: u64) -> u64
    ensures { result ≡ nearest x }
{
    let whole = x / CENT_PARTS;
    let twice = 2 * (x % CENT_PARTS);
    if twice < CENT_PARTS {
        return whole;
    }
    if CENT_PARTS < twice {
        return whole + 1;
    }
    whole + 1
}
