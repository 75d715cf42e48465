// Numbers from a fixed seed.
ghost use Rattle.std.specs.Prelude.{◌≡◌, ◌+◌, ◌-◌, ◌*◌, ◌/◌, ◌%◌, ◌≤◌};
ghost use Rattle.samples.specs.Words.{remainder_of};

// The number after another in a sequence of period 2^31.
pub fn next(seed: usize) -> usize
    ensures { result ≡ (seed % 2147483648 * 1103515245 + 12345) % 2147483648 }
{
    (seed % 2147483648 * 1103515245 + 12345) % 2147483648
}

// A number below k, 0 where k is 0, from the higher digits of a number of the sequence.
#[tactic(auto, unfolding(crate::specs::Words::remainder_of))]
pub fn pick(seed: usize, k: usize) -> usize
    ensures { (result ≡ remainder_of (seed / 1024) k) × (result ≤ k - 1) }
{
    (seed / 1024).checked_rem(k).unwrap_or(0)
}
