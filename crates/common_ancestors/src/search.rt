// The search for the first entry on both climbs: from the entry that is less deep, by strides that grow, then by halves.
ghost use Rattle.std.specs.Prelude.{◌≡◌, List, ℕ, ◌+◌, ◌*◌, ◌<◌, ◌≤◌, IfSome};
ghost use Rattle.base.specs.Limits.{most_entries};
ghost use Rattle.tree.specs.Level.{Ancestor};
ghost use Rattle.common_ancestors.specs.Promises.{climb_bound};
ghost use Rattle.common_ancestors.specs.Parts.{first_tries, most_tries, Of, Given, Settled, Reaches, ClassAndClimbs, Ordered};

use crate::trial::{depth_of, is_above, top_of, tried};
use base::Node;
use base::limits::MOST_ENTRIES;
use query::Table;

// An entry on both climbs, and the climbs to it: from the less deep entry or, of `nearest`, from both.
#[derive(Clone, Copy)]
pub struct Shared {
    pub class: Node,
    pub climbs: u32,
}

// What a search found, none where the table is broken, and how many entries were looked up and tested.
#[derive(Clone, Copy)]
pub struct Found {
    pub shared: Option<Shared>,
    pub tries: u32,
}

// Two entries, of which the first is not the deeper: its depth, and how much deeper the second is.
#[derive(Clone, Copy)]
pub struct Ends {
    pub first: Node,
    pub second: Node,
    pub depth: u32,
    pub below: u32,
}

// The first entry on both climbs, and the climbs to it from both.
pub(crate) fn nearest(table: Table, u: Node, v: Node) -> Found
    requires { (u.0 < table.n) × (v.0 < table.n) }
    ensures few { result.tries ≤ most_tries }
    ensures settled { IfSome result.shared (λ r. (r.class.0 < table.entry.n) × (r.climbs < climb_bound table.entry.n)) }
    ensures right { (ps : List ℕ) → Of ps table.entry.words.now table.entry.n → ClassAndClimbs ps u.0 v.0 result.shared }
{
    let du = depth_of(table, u);
    let dv = depth_of(table, v);
    if table.n <= du || table.n <= dv {
        return broken_after(0);
    }
    let ends = by_depth(u, v, du, dv);
    let found = first_above(table, ends);
    let Some(near) = found.shared else {
        return broken_after(found.tries);
    };
    let shared = Shared {
        class: near.class,
        climbs: near.climbs + near.climbs + ends.below,
    };
    Found {
        shared: Some(shared),
        tries: found.tries,
    }
}

// The less deep entry first.
fn by_depth(u: Node, v: Node, du: u32, dv: u32) -> Ends
    ensures { Ordered u v du dv result }
{
    if dv < du {
        return Ends {
            first: v,
            second: u,
            depth: dv,
            below: du - dv,
        };
    }
    Ends {
        first: u,
        second: v,
        depth: du,
        below: dv - du,
    }
}

// The first entry of the first's climb that is on the second's, and the climbs to it from the first.
fn first_above(table: Table, ends: Ends) -> Found
    requires { (ends.first.0 < table.n) × (ends.depth < table.n) }
    ensures few { result.tries ≤ most_tries }
    ensures settled { Settled table.entry.n ends.depth result.shared }
    ensures right { (ps : List ℕ) → Given ps table.entry.words.now table.entry.n ends.first.0 ends.second.0 ends.depth → Reaches ps ends.first.0 ends.second.0 result.shared }
{
    if is_above(table, ends.first, ends.second) {
        return Found {
            shared: Some(Shared {
                class: ends.first,
                climbs: 0,
            }),
            tries: 0,
        };
    }
    search(table, ends)
}

// The same, where the first is not at or above the second. Fewer than `low` climbs lead to no entry of the second's climb, and `high` climbs lead to `class`, which is one: at first the top.
fn search(table: Table, ends: Ends) -> Found
    requires { ends.depth < table.n }
    ensures few { result.tries ≤ most_tries }
    ensures settled { Settled table.entry.n ends.depth result.shared }
    ensures right { (ps : List ℕ) → Given ps table.entry.words.now table.entry.n ends.first.0 ends.second.0 ends.depth → (Ancestor ps ends.first.0 ends.second.0 → ⊥) → Reaches ps ends.first.0 ends.second.0 result.shared }
{
    let mut class = top_of(table);
    if table.n <= class.0 || ends.depth == 0 {
        return broken_after(0);
    }
    let mut low: u32 = 1;
    let mut high = ends.depth;
    let mut k: u32 = 1;
    let mut tries: u32 = 0;
    while low < high {
        let trial = tried(table, ends.first, ends.second, k);
        tries += 1;
        let Some(trial) = trial else {
            return broken_after(tries);
        };
        if trial.above {
            high = k;
            class = trial.entry;
            k = middle(low, high);
        } else {
            low = k + 1;
            k = next(low, high, tries);
        }
    }
    Found {
        shared: Some(Shared {
            class,
            climbs: high,
        }),
        tries,
    }
}

// The table is broken, after so many tries.
fn broken_after(tries: u32) -> Found
    ensures { result ≡ record { shared = None; tries = tries } }
{
    Found {
        shared: None,
        tries,
    }
}

// Half way, the lower of two.
fn middle(low: u32, high: u32) -> u32
    requires { low ≤ high }
    ensures { (2 * result ≤ low + high) × (low + high ≤ 2 * result + 1) }
{
    low + (high - low) / 2
}

// The climbs to try next past a try that was too low: at first by a stride, so that entries near each other are found soon, then half way.
fn next(low: u32, high: u32, tries: u32) -> u32
    requires { (low ≤ high) × (high ≤ most_entries) }
    ensures { (low ≤ result) × (2 * result ≤ low + high) × (first_tries ≤ tries → low + high ≤ 2 * result + 1) }
{
    let half = middle(low, high);
    let stride = stride(tries);
    if stride < half - low {
        return low + stride;
    }
    half
}

// How far past the last try the next one goes: so that 1, 5 and 21 climbs are tried first, and no stride is past half way after them.
fn stride(tries: u32) -> u32
    ensures { first_tries ≤ tries → most_entries ≤ result }
{
    match tries {
        1 => 3,
        2 => 15,
        _ => MOST_ENTRIES,
    }
}
