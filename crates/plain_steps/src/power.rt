// Powers of two, by doubling: a finder of the walk's own, since it shares nothing with the engine, which counts leading zeros.
ghost use Rattle.std.specs.Prelude.{◌+◌, ◌-◌, ◌<◌, ◌≤◌};

// A power of two, and its exponent.
#[derive(Clone, Copy)]
pub(crate) struct Power {
    pub(crate) exponent: usize,
    pub(crate) value: usize,
}

// The largest power of two not above x; of 0, it is 1.
pub(crate) fn largest(x: usize) -> Power
    ensures power { (result.exponent < result.value) × (result.value ≤ x + (1 - x)) }
    ensures few { result.exponent < 64 }
{
    let mut power = Power {
        exponent: 0,
        value: 1,
    };
    for exponent in 1..64 {
        if x / 2 < power.value {
            return power;
        }
        power = Power {
            exponent,
            value: power.value + power.value,
        };
    }
    power
}
