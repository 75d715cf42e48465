// What the search asks of the table. Depths and the top are read from DEPTH and ORDER; the entry so many climbs above another, and whether it is at or above a third, are questions.
ghost use Rattle.std.specs.Prelude.{◌≡◌, List, ℕ, ◌<◌, IfSome};
ghost use Rattle.std.proofs.Math.Option.{some};
ghost use Rattle.base.specs.Limits.{depth_cell, order_start};
ghost use Rattle.tree.specs.Parents.{up};
ghost use Rattle.answers.specs.Reading.{word_at};
ghost use Rattle.common_ancestors.specs.Parts.{Of, Tells, Tried};

use base::Node;
use base::limits::{HEADER_CELLS, ORDER};
use base::numbers::ACCEPTED;
use query::{Table, ancestry, climb};

// An entry of a climb, and whether it is at or above another.
#[derive(Clone, Copy)]
pub struct Trial {
    pub entry: Node,
    pub above: bool,
}

// DEPTH of v.
pub(crate) fn depth_of(table: Table, v: Node) -> u32
    requires { v.0 < table.n }
    ensures { result ≡ word_at table.entry.words.now (depth_cell table.entry.n v.0) }
{
    let at = HEADER_CELLS as usize + v.0 as usize;
    table.words[at]
}

// The first entry of ORDER: the top, where the table is prepared.
pub(crate) fn top_of(table: Table) -> Node
    requires { 0 < table.n }
    ensures { result.0 ≡ word_at table.entry.words.now (order_start table.entry.n) }
{
    let at = HEADER_CELLS as usize + ORDER as usize * table.n as usize;
    Node(table.words[at])
}

// Whether w is at or above b.
pub(crate) fn is_above(table: Table, w: Node, b: Node) -> bool
    ensures { (ps : List ℕ) → Of ps table.entry.words.now table.entry.n → w.0 < table.entry.n → b.0 < table.entry.n → Tells ps w.0 b.0 result }
{
    let relation = ancestry(table.words, w, b);
    relation.number == ACCEPTED && relation.word == 1
}

// The entry k climbs above a, and whether it is at or above b; none where the table is broken.
pub(crate) fn tried(table: Table, a: Node, b: Node, k: u32) -> Option<Trial>
    ensures entry { IfSome result (λ r. r.entry.0 < table.entry.n) }
    ensures right { (ps : List ℕ) → Of ps table.entry.words.now table.entry.n → b.0 < table.entry.n → (x : ℕ) → up ps k a.0 ≡ some x → Tried ps x b.0 result }
{
    let found = climb(table.words, a, k);
    let entry = Node(found.word);
    if found.number != ACCEPTED || table.n <= entry.0 {
        return None;
    }
    Some(Trial {
        entry,
        above: is_above(table, entry, b),
    })
}
