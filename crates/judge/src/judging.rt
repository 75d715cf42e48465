// Judging a parent list.
ghost use Rattle.std.specs.Prelude.{◌≡◌, [], ◌∷◌, true, cond, length, drop, OnOk, OnErr};
ghost use Rattle.std.proofs.Math.Option.{none, some};
ghost use Rattle.base.specs.Lists.{has};
ghost use Rattle.base.specs.Limits.{space_words};
ghost use Rattle.base.specs.Numbers.{count};
ghost use Rattle.base.specs.Refusals.{outcome_of};
ghost use Rattle.table.specs.Preparing.{count_fault, judging, judged_space};
ghost use Rattle.judge.specs.Regions.{Ordered};

use crate::faults::faults;
use base::limits::{MOST_ENTRIES, REGIONS};
use base::{Refusal, clear};

// Whether a parent list forms one tree (n, where it does), and if not, why. The space is left zero where it was used, and else unchanged.
pub fn judge(parents: &[u32], space: &mut [u32]) -> Result<u32, Refusal>
    ensures answer { outcome_of result ≡ judging parents.now (length space.old) }
    ensures numbers { has (0 ∷ 1 ∷ 3 ∷ 4 ∷ 5 ∷ 6 ∷ []) (outcome_of result).number ≡ true }
    ensures left { space.new ≡ judged_space parents.now space.old }
{
    let n = preorder(parents, space)?;
    clear(space, REGIONS as usize * parents.len());
    Ok(n)
}

// Whether a parent list forms one tree (n, where it does), and if not, why. A list that does leaves its preorder and its depths in the space; a refusal leaves
// the space zero where it was used, and else unchanged.
pub fn preorder(parents: &[u32], space: &mut [u32]) -> Result<u32, Refusal>
    ensures answer { outcome_of result ≡ judging parents.now (length space.old) }
    ensures numbers { has (0 ∷ 1 ∷ 3 ∷ 4 ∷ 5 ∷ 6 ∷ []) (outcome_of result).number ≡ true }
    ensures refused { OnErr result (space.new ≡ judged_space parents.now space.old) }
    ensures ordered { OnOk result (Ordered parents.now space.new) }
    ensures beyond { drop (space_words (length parents.now)) space.new ≡ drop (space_words (length parents.now)) space.old }
{
    let n = parents.len();
    if !countable(n) {
        return Err(Refusal::Count);
    }
    let m = REGIONS as usize * n;
    if space.len() < m {
        return Err(Refusal::ShortSpace);
    }
    let found = faults(parents, &mut space[..m]);
    if found.is_err() {
        clear(space, m);
    }
    found
}

// Whether a list of n entries is not turned away for its count.
pub fn countable(n: usize) -> bool
    ensures { count_fault n ≡ cond result none (some count) }
{
    1 <= n && n <= MOST_ENTRIES as usize
}
