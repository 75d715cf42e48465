// Step 4: one jump and one ladder.
ghost use Rattle.std.specs.Prelude.{◌≡◌, ◌^◌, ◌<◌, ◌≤◌, []};
ghost use Rattle.base.specs.Limits.{jump_room};
ghost use Rattle.answers.specs.Answers.{listed, answer_from};
ghost use Rattle.answers.specs.Steps.{after_ladpos, after_ancestor, read_ancestor, after_jump_depth, from_jump, after_class};

use crate::reading::{Asked, Listed, Table};
use answers::Answer;
use base::limits::{HEADER_CELLS, JUMPS, LADDER_WORDS, LADDERS, LADPOS, RECORD_WORDS, jump_room};
use base::powers::exponent;
use base::{Node, Refusal};

// Step 4 from a jump entry, with a list of its own, of four cells at most.
pub(crate) fn from_jump(asked: Asked, jump: u32) -> Answer
    ensures { result ≡ answer_from asked.entry.table.words.now (listed []) (from_jump asked.entry.table.n asked.entry.d jump) }
{
    let table = asked.table;
    let cells = Listed::new();
    if jump_room(table.n) <= jump {
        return cells.answer(Err(Refusal::Broken));
    }
    let got = table.read(HEADER_CELLS + JUMPS * table.n, RECORD_WORDS * jump, cells);
    after_jump_depth(asked, jump, got.word, got.cells)
}

// The jump entry's depth, which is more than d and less than n; d is less than n, as v's depth is. The second test is made by the climbs: the compiler would join two plain
// tests of one word into one branch, and the exponent would wait for it.
fn after_jump_depth(asked: Asked, jump: u32, depth: u32, cells: Listed<1>) -> Answer
    requires { jump < jump_room asked.table.n }
    ensures { result ≡ answer_from asked.entry.table.words.now cells.cells (after_jump_depth asked.entry.table.n asked.entry.d jump depth) }
{
    let d = asked.d;
    if depth <= d {
        return cells.answer(Err(Refusal::Broken));
    }
    let x = depth - d;
    if asked.table.n - d - 1 < x {
        return cells.answer(Err(Refusal::Broken));
    }
    match exponent(x) {
        None => cells.answer(Err(Refusal::Broken)),
        Some(e) => read_ancestor(asked.table, jump, x, e, cells),
    }
}

// The ancestor for e, where the answer is x above the jump entry.
fn read_ancestor(table: Table, jump: u32, x: u32, e: u32, cells: Listed<1>) -> Answer
    requires { (jump < jump_room table.n) × (e < 20) × (2 ^ e ≤ x) }
    ensures { result ≡ answer_from table.entry.words.now cells.cells (read_ancestor table.entry.n jump x e) }
{
    let got = table.read(
        HEADER_CELLS + JUMPS * table.n + RECORD_WORDS * jump + 1,
        e,
        cells,
    );
    after_ancestor(table, x - (1 << e), Node(got.word), got.cells)
}

// LADPOS of w.
fn after_ancestor(table: Table, missing: u32, w: Node, cells: Listed<2>) -> Answer
    ensures { result ≡ answer_from table.entry.words.now cells.cells (after_ancestor table.entry.n missing w.0) }
{
    if table.n <= w.0 {
        return cells.answer(Err(Refusal::Broken));
    }
    let got = table.read(HEADER_CELLS + LADPOS * table.n, w.0, cells);
    after_ladpos(table, missing, got.word, got.cells)
}

// The last read: LADDERS at the index less the climbs still missing.
fn after_ladpos(table: Table, missing: u32, index: u32, cells: Listed<3>) -> Answer
    ensures { result ≡ answer_from table.entry.words.now cells.cells (after_ladpos table.entry.n missing index) }
{
    if index < missing {
        return cells.answer(Err(Refusal::Broken));
    }
    let at = index - missing;
    if LADDER_WORDS * table.n <= at {
        return cells.answer(Err(Refusal::Broken));
    }
    let got = table.read(HEADER_CELLS + LADDERS * table.n, at, cells);
    after_class(table, Node(got.word), got.cells)
}

// A word that is to be the answer is an entry.
fn after_class(table: Table, w: Node, cells: Listed<4>) -> Answer
    ensures { result ≡ answer_from table.entry.words.now cells.cells (after_class table.entry.n w.0) }
{
    if table.n <= w.0 {
        return cells.answer(Err(Refusal::Broken));
    }
    cells.answer(Ok(w.0))
}
