// Step 3: within a group, and out of it. The answer is so many climbs up, at the depth asked.
ghost use Rattle.std.specs.Prelude.{◌≡◌, ◌+◌, ◌<◌};
ghost use Rattle.answers.specs.Answers.{answer_from, answer_words};
ghost use Rattle.answers.specs.Steps.{after_parent_kind, after_parent, after_position, in_group, after_shape, from_group};
ghost use Rattle.query.specs.Parts.{InGroup};

use crate::ends::end;
use crate::joining::with_jump;
use crate::jump::from_jump;
use crate::reading::{Asked, Got, Listed, Table};
use answers::{ANSWER_WORDS, Answer};
use base::limits::{GROUP_WORDS, GROUPS, HEADER_CELLS, ORDER};
use base::{Node, Position, Refusal};
use shapes::{Climbs, climbs_of};

// An entry of a group, by its local number there.
#[derive(Clone, Copy)]
pub struct Member {
    pub group: u32,
    pub local: u32,
}

pub(crate) fn from_group(
    asked: Asked,
    climbs: u32,
    member: Member,
    cells: Listed<3>,
    words: &mut [u32; ANSWER_WORDS],
)
    ensures { words.new ≡ answer_words (answer_from asked.entry.table.words.now cells.cells (from_group asked.entry.table.n asked.entry.d (asked.entry.d + climbs) member.group member.local)) }
{
    let table = asked.table;
    if table.n <= member.group {
        end(cells.answer(Err(Refusal::Broken)), words);
        return;
    }
    let got = table.read(
        HEADER_CELLS + GROUPS * table.n + GROUP_WORDS * member.group,
        1,
        cells,
    );
    after_shape(asked, climbs, member, got.word, got.cells, words);
}

// The shape, which is one that has the local number: its climbs out are 0 where it has not, or where the number is that of no shape.
fn after_shape(
    asked: Asked,
    climbs: u32,
    member: Member,
    shape: u32,
    cells: Listed<4>,
    words: &mut [u32; ANSWER_WORDS],
)
    requires { member.group < asked.table.n }
    ensures { words.new ≡ answer_words (answer_from asked.entry.table.words.now cells.cells (after_shape asked.entry.table.n asked.entry.d (asked.entry.d + climbs) member.group member.local shape)) }
{
    let field = climbs_of(shape, member.local);
    if field.out() == 0 {
        end(cells.answer(Err(Refusal::Broken)), words);
        return;
    }
    in_group(asked, climbs, member, shape, field, cells, words);
}

// Within the group where fewer climbs are asked than lead out of it, else from the group's parent, which just so many reach.
fn in_group(
    asked: Asked,
    climbs: u32,
    member: Member,
    shape: u32,
    field: Climbs,
    cells: Listed<4>,
    words: &mut [u32; ANSWER_WORDS],
)
    requires { InGroup asked.table.n member.group shape member.local field.0 }
    ensures { words.new ≡ answer_words (answer_from asked.entry.table.words.now cells.cells (in_group asked.entry.table.n asked.entry.d (asked.entry.d + climbs) member.group member.local shape)) }
{
    let table = asked.table;
    let out = field.out();
    if out <= climbs {
        let got = table.read(
            HEADER_CELLS + GROUPS * table.n + GROUP_WORDS * member.group,
            2,
            cells,
        );
        after_parent(asked, climbs - out, Node(got.word), got.cells, words);
        return;
    }
    let got = table.read(
        HEADER_CELLS + GROUPS * table.n,
        GROUP_WORDS * member.group,
        cells,
    );
    let to = field.reached(climbs);
    after_position(table, to as u32, Position(got.word), got.cells, words);
}

// ORDER at the group's position plus the local number reached. The position is tested before the sum is made, so that the sum does not wrap.
fn after_position(
    table: Table,
    local: u32,
    position: Position,
    cells: Listed<5>,
    words: &mut [u32; ANSWER_WORDS],
)
    requires { local < 256 }
    ensures { words.new ≡ answer_words (answer_from table.entry.words.now cells.cells (after_position table.entry.n local position.0)) }
{
    if table.n <= position.0 {
        end(cells.answer(Err(Refusal::Broken)), words);
        return;
    }
    let at = Position(position.0 + local);
    if table.n <= at.0 {
        end(cells.answer(Err(Refusal::Broken)), words);
        return;
    }
    let got: Got<6> = table.read(HEADER_CELLS + ORDER * table.n, at.0, cells);
    let class = Node(got.word);
    let more = got.cells;
    if table.n <= class.0 {
        end(more.answer(Err(Refusal::Broken)), words);
        return;
    }
    end(more.answer(Ok(class.0)), words);
}

// The group's parent p, with the climbs that are left from there.
fn after_parent(asked: Asked, left: u32, p: Node, cells: Listed<5>, words: &mut [u32; ANSWER_WORDS])
    ensures { words.new ≡ answer_words (answer_from asked.entry.table.words.now cells.cells (after_parent asked.entry.table.n asked.entry.d (asked.entry.d + left) p.0)) }
{
    let table = asked.table;
    if table.n <= p.0 {
        end(cells.answer(Err(Refusal::Broken)), words);
        return;
    }
    if left == 0 {
        end(cells.answer(Ok(p.0)), words);
        return;
    }
    let got = table.read(HEADER_CELLS + table.n, p.0, cells);
    after_parent_kind(asked, got.word, got.cells, words);
}

// KIND of the group's parent: step 4 from there, which refuses a micro one too. Six cells were read.
fn after_parent_kind(asked: Asked, kind: u32, cells: Listed<6>, words: &mut [u32; ANSWER_WORDS])
    ensures { words.new ≡ answer_words (answer_from asked.entry.table.words.now cells.cells (after_parent_kind asked.entry.table.n asked.entry.d kind)) }
{
    let a = from_jump(asked, kind);
    end(with_jump(cells, a), words);
}
