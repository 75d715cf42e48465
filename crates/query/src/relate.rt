// How two entries stand to each other, by the intervals of the preorder; ancestry.
ghost use Rattle.std.specs.Prelude.{◌≡◌, ℕ, ◌+◌, ◌<◌, ◌&&◌, [], length, nat_le, nat_lt, IfOk};
ghost use Rattle.answers.specs.Reading.{Reading};
ghost use Rattle.answers.specs.Answers.{listed, answer_from};
ghost use Rattle.answers.specs.Steps.{opened, related, ancestry};
ghost use Rattle.query.specs.Parts.{related_from};

use crate::look::{first, opened};
use crate::reading::{Got, Listed, Table};
use answers::Answer;
use base::limits::{HEADER_CELLS, PRE, SIZE};
use base::{Node, Position, Refusal};

// How u stands to v in a table: at or above it, or not. Four cells were read.
#[derive(Clone, Copy)]
pub struct Relation<'a> {
    pub table: Table<'a>,
    pub above: bool,
    pub cells: Listed<4>,
}

pub(crate) fn at_or_above(table: &[u32], u: Node, v: Node) -> Answer
    ensures { result ≡ answer_from table.now (listed []) (ancestry (length table.now) u.0 v.0) }
{
    match relate(table, u, v) {
        Ok(relation) => relation.cells.answer(Ok(u32::from(relation.above))),
        Err(refused) => refused,
    }
}

// Step 1, and the reads of ancestry; or the refusal.
pub(crate) fn relate<'a>(table: &'a [u32], u: Node, v: Node) -> Result<Relation<'a>, Answer>
    ensures known { IfOk result (λ r. (r.table.words.now ≡ table.now) × (u.0 < r.table.n)) }
    ensures goes { (above : ℕ → Reading) (apart : Reading) → related_from result above apart ≡ answer_from table.now (listed []) (opened (length table.now) (related u.0 v.0 above apart)) }
{
    let len = table.len();
    let Some(table) = opened(table) else {
        return Err(Answer::new(Err(Refusal::Broken), first(len)));
    };
    let none = Listed::new();
    let one = none.push(0);
    related(table, u, v, one)
}

fn related<'a>(table: Table<'a>, u: Node, v: Node, cells: Listed<1>) -> Result<Relation<'a>, Answer>
    ensures known { IfOk result (λ r. (r.table.words.now ≡ table.entry.words.now) × (u.0 < r.table.n)) }
    ensures goes { (above : ℕ → Reading) (apart : Reading) → related_from result above apart ≡ answer_from table.entry.words.now cells.cells (related u.0 v.0 above apart table.entry.n) }
{
    if table.n <= u.0 {
        return Err(cells.answer(Err(Refusal::Unknown(u))));
    }
    if table.n <= v.0 {
        return Err(cells.answer(Err(Refusal::Unknown(v))));
    }
    Ok(compared(table, u, v, cells))
}

// The reads of ancestry: PRE and SIZE of u, PRE of v.
fn compared<'a>(table: Table<'a>, u: Node, v: Node, cells: Listed<1>) -> Relation<'a>
    requires { (u.0 < table.n) × (v.0 < table.n) }
    ensures known { (result.table.words.now ≡ table.entry.words.now) × (u.0 < result.table.n) }
    ensures goes { (above : ℕ → Reading) (apart : Reading) → related_from (Ok result) above apart ≡ answer_from table.entry.words.now cells.cells (related u.0 v.0 above apart table.entry.n) }
{
    let n = table.n;
    let pre_u: Got<2> = table.read(HEADER_CELLS + PRE * n, u.0, cells);
    let size_u: Got<3> = table.read(HEADER_CELLS + SIZE * n, u.0, pre_u.cells);
    let pre_v = table.read(HEADER_CELLS + PRE * n, v.0, size_u.cells);
    Relation {
        table,
        above: holds(Position(pre_u.word), size_u.word, Position(pre_v.word)),
        cells: pre_v.cells,
    }
}

// PRE u ≤ PRE v < PRE u + SIZE u, without a sum that could wrap.
fn holds(first: Position, size: u32, other: Position) -> bool
    ensures { result ≡ (nat_le first.0 other.0 && nat_lt other.0 (first.0 + size)) }
{
    if other.0 < first.0 {
        return false;
    }
    other.0 - first.0 < size
}
