// Branch: past the ancestry test, the level lookup of v one deeper than u, its cells listed behind those so far.
ghost use Rattle.std.specs.Prelude.{◌≡◌, ◌<◌, [], length};
ghost use Rattle.answers.specs.Answers.{listed, answer_from};
ghost use Rattle.answers.specs.Steps.{branch, strictly, deeper};

use crate::joining::with_ten;
use crate::level;
use crate::reading::{Listed, Table};
use crate::relate::relate;
use answers::Answer;
use base::limits::HEADER_CELLS;
use base::numbers::TOO_DEEP;
use base::{Node, Refusal};

pub(crate) fn child_towards(table: &[u32], u: Node, v: Node) -> Answer
    ensures { result ≡ answer_from table.now (listed []) (branch (length table.now) u.0 v.0) }
{
    match relate(table, u, v) {
        Ok(relation) => {
            if relation.above {
                return strictly(relation.table, u, v, relation.cells);
            }
            relation.cells.answer(Err(Refusal::NotAbove(u)))
        }
        Err(refused) => refused,
    }
}

fn strictly(table: Table, u: Node, v: Node, cells: Listed<4>) -> Answer
    requires { u.0 < table.n }
    ensures { result ≡ answer_from table.entry.words.now cells.cells (strictly (length table.entry.words.now) u.0 v.0 table.entry.n) }
{
    if u == v {
        return cells.answer(Err(Refusal::NotAbove(u)));
    }
    let got = table.read(HEADER_CELLS, u.0, cells);
    deeper(table, v, got.word, got.cells)
}

// An 8 of the level lookup is given as 9.
fn deeper(table: Table, v: Node, depth: u32, cells: Listed<5>) -> Answer
    ensures { result ≡ answer_from table.entry.words.now cells.cells (deeper (length table.entry.words.now) v.0 table.entry.n depth) }
{
    if table.n <= depth {
        return cells.answer(Err(Refusal::Broken));
    }
    let inner = level(table.words, v, depth + 1);
    let all = with_ten(cells, inner.cells);
    if inner.number == TOO_DEEP {
        return Answer::new(Err(Refusal::Broken), all);
    }
    Answer {
        cells: all,
        ..inner
    }
}
