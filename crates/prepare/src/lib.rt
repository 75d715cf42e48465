// Preparing the table of a parent list, on a lent working space of 6n words.
#![tactic(auto)]

mod filling;
mod grouping;
mod jumps;
mod kinds;
mod laying;
mod measure;
mod order;
mod places;
mod records;
mod sections;
mod spread;

ghost use Rattle.std.specs.Prelude.{◌≡◌, ◌↔◌, [], ◌∷◌, true, ◌≤◌, length, IsOk, OnOk};
ghost use Rattle.base.specs.Lists.{has};
ghost use Rattle.base.specs.Limits.{most_entries, table_words, space_words};
ghost use Rattle.base.specs.Refusals.{outcome_of};
ghost use Rattle.tree.specs.Faults.{Tree};
ghost use Rattle.table.specs.Preparing.{preparing, table_after, space_after, Prepared};

use base::limits::{REGIONS, table_words};
use base::{Refusal, clear};
use judge::{countable, preorder};

// The table of a parent list (W, where there is one), or why there is none. A refusal leaves the table unchanged; the space is left zero where it was used, and
// else unchanged.
pub fn prepare(parents: &[u32], table: &mut [u32], space: &mut [u32]) -> Result<u32, Refusal>
    ensures answer { outcome_of result ≡ preparing parents.now (length table.old) (length space.old) }
    ensures numbers { has (0 ∷ 1 ∷ 2 ∷ 3 ∷ 4 ∷ 5 ∷ 6 ∷ []) (outcome_of result).number ≡ true }
    ensures written { table.new ≡ table_after parents.now table.old space.old }
    ensures left { space.new ≡ space_after parents.now table.old space.old }
    ensures accepts { IsOk result ↔ ((1 ≤ length parents.now) × (length parents.now ≤ most_entries) × Tree parents.now × (table_words (length parents.now) ≤ length table.old) × (space_words (length parents.now) ≤ length space.old)) }
    ensures prepared { OnOk result (Prepared parents.now table.new) }
{
    let n = parents.len();
    if !countable(n) {
        return Err(Refusal::Count);
    }
    let w = table_words(n as u32);
    if table.len() < w {
        return Err(Refusal::ShortTable);
    }
    preorder(parents, space)?;
    let m = REGIONS as usize * n;
    filling::fill_table(parents, &mut table[..w], &mut space[..m]);
    clear(space, m);
    Ok(w as u32)
}
