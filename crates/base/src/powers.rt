// The largest power of two not above a number.
ghost use Rattle.std.specs.Prelude.{◌≡◌};
ghost use Rattle.base.specs.Options.{option_of};
ghost use Rattle.base.specs.Powers.{exponent};

// The exponent of the largest power of two not above x, by the leading zeros, as 01 names them. There is none for 0.
pub fn exponent(x: u32) -> Option<u32>
    ensures answer { option_of result ≡ exponent x }
{
    if x == 0 {
        return None;
    }
    Some(31 - u32::leading_zeros(x))
}
