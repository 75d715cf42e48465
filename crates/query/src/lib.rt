// The five questions and step 1 by itself, on a lent table of any length and contents. Each gives a result or one of the numbered refusals.
#![tactic(auto)]

mod branching;
mod ends;
mod group;
mod joining;
mod jump;
mod look;
mod reading;
mod relate;

ghost use Rattle.std.specs.Prelude.{◌≡◌, [], ◌∷◌, IfOk};
ghost use Rattle.std.specs.Fn.{FnOnceReturnsAtMut};
ghost use Rattle.base.specs.Limits.{Sized};
ghost use Rattle.base.specs.Refusals.{outcome_of};
ghost use Rattle.answers.specs.Answers.{answer_words};
ghost use Rattle.tree.specs.Questions.{class_of, rating_of, climb_of, ancestry_of, branch_of};
ghost use Rattle.answers.specs.Promises.{Answers, Gives, Few, Local, Right, RatesKnown, Smaller};
ghost use Rattle.answers.specs.Steps.{level, climbing, rating, ancestry, branch};
ghost use Rattle.query.specs.StepOne.{step_one, opened_as};

use answers::{ANSWER_WORDS, Answer};
use base::{Node, Refusal};
pub use look::{climb_words, level_words, rating_words};
pub use reading::Table;

// The level lookup: the class of v at depth d.
pub fn level(table: &[u32], v: Node, d: u32) -> Answer
    ensures answer { Answers (λ len. level len v.0 d) table.now result }
    ensures numbers { Gives (0 ∷ 7 ∷ 8 ∷ 9 ∷ []) result }
    ensures few { Few 10 result }
    ensures local { Local (λ len. level len v.0 d) table.now result }
    ensures right { Right (λ ps. class_of ps v.0 d) table.now result }
{
    answered(|words| level_words(table, v, d, words))
}

// The entry k climbs above v.
pub fn climb(table: &[u32], v: Node, k: u32) -> Answer
    ensures answer { Answers (λ len. climbing len v.0 k) table.now result }
    ensures numbers { Gives (0 ∷ 7 ∷ 8 ∷ 9 ∷ []) result }
    ensures few { Few 10 result }
    ensures local { Local (λ len. climbing len v.0 k) table.now result }
    ensures right { Right (λ ps. climb_of ps v.0 k) table.now result }
{
    answered(|words| climb_words(table, v, k, words))
}

// The rating lookup: the class of v at depth d, or v itself where it is less deep.
pub fn rating(table: &[u32], v: Node, d: u32) -> Answer
    ensures answer { Answers (λ len. rating len v.0 d) table.now result }
    ensures numbers { Gives (0 ∷ 7 ∷ 9 ∷ []) result }
    ensures few { Few 10 result }
    ensures local { Local (λ len. rating len v.0 d) table.now result }
    ensures right { Right (λ ps. rating_of ps v.0 d) table.now result }
    ensures known { RatesKnown v.0 d table.now result }
    ensures smaller { Smaller v.0 d table.now result }
{
    answered(|words| rating_words(table, v, d, words))
}

// Whether u is at or above v: the result is 1 or 0.
pub fn ancestry(table: &[u32], u: Node, v: Node) -> Answer
    ensures answer { Answers (λ len. ancestry len u.0 v.0) table.now result }
    ensures numbers { Gives (0 ∷ 7 ∷ 9 ∷ []) result }
    ensures few { Few 4 result }
    ensures local { Local (λ len. ancestry len u.0 v.0) table.now result }
    ensures right { Right (λ ps. ancestry_of ps u.0 v.0) table.now result }
{
    relate::at_or_above(table, u, v)
}

// The child of u on the way to v.
pub fn branch(table: &[u32], u: Node, v: Node) -> Answer
    ensures answer { Answers (λ len. branch len u.0 v.0) table.now result }
    ensures numbers { Gives (0 ∷ 7 ∷ 9 ∷ 10 ∷ []) result }
    ensures few { Few 15 result }
    ensures local { Local (λ len. branch len u.0 v.0) table.now result }
    ensures right { Right (λ ps. branch_of ps u.0 v.0) table.now result }
{
    branching::child_towards(table, u, v)
}

// Step 1 alone: the number of entries, or 9 for a broken table.
pub fn entries(table: &[u32]) -> Result<u32, Refusal>
    ensures answer { outcome_of result ≡ step_one table.now }
    ensures sized { IfOk result (λ n. Sized table.now n) }
{
    let open = opened(table)?;
    Ok(open.n)
}

// Step 1, and the table that the words are for who reads on.
pub fn opened(words: &[u32]) -> Result<Table, Refusal>
    ensures answer { opened_as result ≡ step_one words.now }
    ensures same { IfOk result (λ r. r.words.now ≡ words.now) }
{
    look::opened(words).ok_or(Refusal::Broken)
}

// The answer that a lookup writes.
fn answered<F: FnOnce(&mut [u32; ANSWER_WORDS])>(write: F) -> Answer
    requires { F.IsAlwaysCallable write }
    ensures { (before : _) × FnOnceReturnsAtMut F.FnOnce write before tt (answer_words result) }
{
    let mut words: [u32; ANSWER_WORDS] = [0; ANSWER_WORDS];
    write(&mut words);
    Answer::from(words)
}
