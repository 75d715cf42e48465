// The class of one entry, from the parent list: prepares a table and asks it. What it promises follows from the promises of `prepare` and `level` alone.
#![tactic(auto)]

ghost use Rattle.std.specs.Prelude.{◌≡◌, [], ◌∷◌, true, length};
ghost use Rattle.base.specs.Lists.{has};
ghost use Rattle.base.specs.Refusals.{outcome_of};
ghost use Rattle.answers.specs.Answers.{outcome};
ghost use Rattle.table.specs.Preparing.{table_after, space_after};
ghost use Rattle.class_example.specs.Class.{class_from};

use answers::Answer;
use base::numbers::{ACCEPTED, TOO_DEEP, UNKNOWN};
use base::{Node, Refusal};
use prepare::prepare;
use query::level;

// The class of v at depth d, by climbing from parent to parent; a list that is turned away gives preparing's refusal.
pub fn class(
    parents: &[u32],
    table: &mut [u32],
    space: &mut [u32],
    v: Node,
    d: u32,
) -> Result<u32, Refusal>
    ensures answer { outcome_of result ≡ class_from parents.now (length table.old) (length space.old) v.0 d }
    ensures written { table.new ≡ table_after parents.now table.old space.old }
    ensures left { space.new ≡ space_after parents.now table.old space.old }
{
    prepare(parents, table, space)?;
    told(level(table, v, d))
}

// What the lookup answers on a prepared table, which it finds broken nowhere: a class, or a refusal.
fn told(answer: Answer) -> Result<u32, Refusal>
    ensures { has (0 ∷ 7 ∷ 8 ∷ []) answer.number ≡ true → outcome_of result ≡ outcome answer }
{
    match answer.number {
        ACCEPTED => Ok(answer.word),
        UNKNOWN => Err(Refusal::Unknown(Node(answer.word))),
        TOO_DEEP => Err(Refusal::TooDeep(Node(answer.word))),
        _ => Err(Refusal::Broken),
    }
}
