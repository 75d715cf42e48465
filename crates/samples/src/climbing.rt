// Climbs from parent to parent, along the words of a list of any contents.
ghost use Rattle.std.specs.Prelude.{◌≡◌};
ghost use Rattle.samples.specs.Climbing.{word_above, ToTop};

use crate::words::{TOP, get};

// The climbs from v to the top, or n where v never meets it: `ToTop` names n beside the list, and has it in place of an Option.
#[tactic(auto, unfolding(crate::specs::Climbing::word_above))]
pub fn climbs(parents: &[u32], n: usize, v: usize) -> usize
    ensures { ToTop parents.now n v result }
{
    let mut at = v;
    for k in 0..n {
        at = get(parents, at);
        if at == TOP {
            return k;
        }
    }
    n
}

// The entry k above v.
#[tactic(auto, unfolding(crate::specs::Climbing::word_above))]
pub fn above(parents: &[u32], v: usize, k: usize) -> usize
    ensures { result ≡ word_above parents.now v k }
{
    let mut at = v;
    for i in 0..k {
        at = get(parents, at);
    }
    at
}
