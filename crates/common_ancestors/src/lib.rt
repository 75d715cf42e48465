// The nearest common ancestor of two entries, and the climbs between them through it, on a lent table of any length and contents. Neither lists cells.
#![tactic(auto)]

mod search;
mod trial;

ghost use Rattle.std.specs.Prelude.{◌≡◌, ◌<◌, IfOk};
ghost use Rattle.base.specs.Refusals.{outcome_of};
ghost use Rattle.query.specs.StepOne.{opened_as};
ghost use Rattle.common_ancestors.specs.Common.{nearest_of, distance_of};
ghost use Rattle.common_ancestors.specs.Admission.{admission};
ghost use Rattle.common_ancestors.specs.Promises.{class_bound, climb_bound, numbers, OnAnyTable, Gives, Right, Known, Shares, Counts, Words};
ghost use Rattle.common_ancestors.specs.Parts.{bound, meaning, Answered, chosen};

use crate::search::{Shared, nearest};
use answers::{ANSWER_WORDS, Answer, Cells};
use base::{Node, Refusal};
use query::{Table, opened};

// What is asked of two entries: the class that they share, or the climbs between them. No closure, since the C functions then have a search each, some 20 ns slower.
#[derive(Clone, Copy)]
pub enum Sought {
    Class,
    Climbs,
}

// The nearest common ancestor of u and v: the deepest class that holds both, which is the first entry on both climbs to the top.
pub fn nearest_common_ancestor(table: &[u32], u: Node, v: Node) -> Result<u32, Refusal>
    ensures any { OnAnyTable class_bound table.now u.0 v.0 (outcome_of result) }
    ensures numbers { Gives numbers (outcome_of result) }
    ensures right { Right (λ ps. nearest_of ps u.0 v.0) table.now (outcome_of result) }
    ensures known { Known Shares u.0 v.0 table.now (outcome_of result) }
{
    answer(table, Sought::Class, u, v)
}

// The distance of u and v: the number of climbs between them through the class that they share.
pub fn distance(table: &[u32], u: Node, v: Node) -> Result<u32, Refusal>
    ensures any { OnAnyTable climb_bound table.now u.0 v.0 (outcome_of result) }
    ensures numbers { Gives numbers (outcome_of result) }
    ensures right { Right (λ ps. distance_of ps u.0 v.0) table.now (outcome_of result) }
    ensures known { Known Counts u.0 v.0 table.now (outcome_of result) }
{
    answer(table, Sought::Climbs, u, v)
}

// Either of them, in words of the caller's. Both questions of other languages ask here, so that the compiler sets the search in place once.
pub fn answer_words(
    table: &[u32],
    sought: Sought,
    u: Node,
    v: Node,
    words: &mut [u32; ANSWER_WORDS],
)
    ensures { Words (bound sought) (λ ps. meaning sought ps u.0 v.0) (Answered sought) table.now u.0 v.0 words.new }
{
    let reply = answer(table, sought, u, v);
    *words = Answer::new(reply, Cells::new()).into();
}

fn answer(table: &[u32], sought: Sought, u: Node, v: Node) -> Result<u32, Refusal>
    ensures any { OnAnyTable (bound sought) table.now u.0 v.0 (outcome_of result) }
    ensures numbers { Gives numbers (outcome_of result) }
    ensures right { Right (λ ps. meaning sought ps u.0 v.0) table.now (outcome_of result) }
    ensures known { Known (Answered sought) u.0 v.0 table.now (outcome_of result) }
{
    let open = admitted(table, u, v)?;
    let found = nearest(open, u, v);
    let Some(shared) = found.shared else {
        return Err(Refusal::Broken);
    };
    Ok(chosen(sought, shared))
}

fn chosen(sought: Sought, shared: Shared) -> u32
    ensures { result ≡ chosen sought shared.class.0 shared.climbs }
{
    match sought {
        Sought::Class => shared.class.0,
        Sought::Climbs => shared.climbs,
    }
}

// Step 1, then the two entries: the table, or the refusal.
fn admitted(table: &[u32], u: Node, v: Node) -> Result<Table, Refusal>
    ensures answer { opened_as result ≡ admission table.now u.0 v.0 }
    ensures known { IfOk result (λ r. (r.words.now ≡ table.now) × (u.0 < r.n) × (v.0 < r.n)) }
{
    let open = opened(table)?;
    if open.n <= u.0 {
        return Err(Refusal::Unknown(u));
    }
    if open.n <= v.0 {
        return Err(Refusal::Unknown(v));
    }
    Ok(open)
}
