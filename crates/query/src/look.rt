// Steps 1 and 2: the table's count, and the entry with its depth. Then the way on by its kind. Each end writes its own words.
ghost use Rattle.std.specs.Prelude.{◌≡◌, ◌+◌, ◌<◌, ◌≤◌, [], ◌∷◌, length, IfSome};
ghost use Rattle.base.specs.Limits.{Sized, table_words, depth_cell};
ghost use Rattle.answers.specs.Reading.{read};
ghost use Rattle.answers.specs.Answers.{listed, answer_from, answer_to, answer_words};
ghost use Rattle.answers.specs.Steps.{level, climbing, rating, after_kind};
ghost use Rattle.query.specs.Parts.{Opened, FoundBy, first_of, climbed};

use crate::ends::end;
use crate::group::{Member, from_group};
use crate::joining::with_jump;
use crate::jump::from_jump;
use crate::reading::{Asked, Entry, Got, Listed, Table};
use answers::{ANSWER_WORDS, Answer, Cells};
use base::limits::{
    HEADER_CELLS, HEADER_MARK, LOCAL_SPAN, MICRO_MARK, MOST_ENTRIES, entries_of, table_words,
};
use base::{Node, Refusal};

const HEADER: usize = HEADER_CELLS as usize;

// The level lookup, in words of the caller's.
#[inline(always)]
pub fn level_words(table: &[u32], v: Node, d: u32, words: &mut [u32; ANSWER_WORDS])
    ensures { words.new ≡ answer_words (answer_to table.now (level (length table.now) v.0 d)) }
{
    if let Some(entry) = find(table, v, words) {
        climbed(entry, (d <= entry.depth).then(|| entry.depth - d), words);
    }
}

// The entry k climbs above v, in words of the caller's.
pub fn climb_words(table: &[u32], v: Node, k: u32, words: &mut [u32; ANSWER_WORDS])
    ensures { words.new ≡ answer_words (answer_to table.now (climbing (length table.now) v.0 k)) }
{
    if let Some(entry) = find(table, v, words) {
        climbed(entry, (k <= entry.depth).then_some(k), words);
    }
}

// The rating lookup, in words of the caller's: an entry that is not deeper than the level is rated as itself.
pub fn rating_words(table: &[u32], v: Node, level: u32, words: &mut [u32; ANSWER_WORDS])
    ensures { words.new ≡ answer_words (answer_to table.now (rating (length table.now) v.0 level)) }
{
    if let Some(entry) = find(table, v, words) {
        climbed(entry, Some(entry.depth.saturating_sub(level)), words);
    }
}

// Step 1: the table by cell 0 and its length, none where it is broken.
pub(crate) fn opened(words: &[u32]) -> Option<Table>
    ensures { Opened words.now result }
{
    let len = words.len();
    if len < HEADER {
        return None;
    }
    let cell = words[0];
    if cell <= HEADER_MARK || HEADER_MARK + MOST_ENTRIES < cell {
        return None;
    }
    let n = entries_of(cell);
    if len < table_words(n) {
        return None;
    }
    Some(Table { words, n })
}

// The cells that step 1 reads of a table that is broken: cell 0, where there are as many words as the header has.
pub(crate) fn first(len: usize) -> Cells
    ensures { result ≡ first_of len }
{
    let cells = Cells::new();
    if len < HEADER {
        return cells;
    }
    cells.push(0)
}

// Steps 1 and 2. Where the lookup ends there, its words are written, and there is no entry.
fn find<'a>(table: &'a [u32], v: Node, words: &mut [u32; ANSWER_WORDS]) -> Option<Entry<'a>>
    ensures { FoundBy table.now v.0 result words.new }
{
    let len = table.len();
    let Some(table) = opened(table) else {
        end(Answer::new(Err(Refusal::Broken), first(len)), words);
        return None;
    };
    let none = Listed::new();
    let one: Listed<1> = none.push(0);
    if table.n <= v.0 {
        end(one.answer(Err(Refusal::Unknown(v))), words);
        return None;
    }
    let got: Got<2> = table.read(HEADER_CELLS, v.0, one);
    let depth = got.word;
    let two = got.cells;
    if table.n <= depth {
        end(two.answer(Err(Refusal::Broken)), words);
        return None;
    }
    Some(Entry { table, v, depth })
}

// The cells read before KIND: cell 0, and that of DEPTH.
fn first_two(cell: u32) -> Listed<2>
    ensures { result.cells ≡ listed (0 ∷ cell ∷ []) }
{
    let none = Listed::new();
    let one: Listed<1> = none.push(0);
    one.push(cell)
}

// Past step 2, so many climbs above an entry; 8 where there are none.
#[inline(always)]
fn climbed(entry: Entry, climbs: Option<u32>, words: &mut [u32; ANSWER_WORDS])
    requires { IfSome climbs (λ k. k ≤ entry.depth) }
    ensures { words.new ≡ answer_words (answer_from entry.entry.table.words.now (listed (0 ∷ depth_cell entry.entry.table.n entry.entry.v.0 ∷ [])) (climbed entry.entry.table.n entry.entry.v.0 entry.entry.depth climbs)) }
{
    let v = entry.v;
    let cell = HEADER_CELLS + v.0;
    let Some(climbs) = climbs else {
        end(first_two(cell).answer(Err(Refusal::TooDeep(v))), words);
        return;
    };
    if climbs == 0 {
        end(first_two(cell).answer(Ok(v.0)), words);
        return;
    }
    let table = entry.table;
    above(
        table.words,
        climbs,
        cell,
        entry.depth - climbs,
        words,
        table.n,
    );
}

// Past step 2, from the cell of DEPTH of an entry to so many climbs above it, at depth d: KIND is n cells on. The parameters stand in an order
// in which few registers are moved between the C functions and this one; as one `Asked` they make a level lookup take 138 instructions in place of 124.
#[inline(never)]
fn above(table: &[u32], climbs: u32, cell: u32, d: u32, words: &mut [u32; ANSWER_WORDS], n: u32)
    requires { (Sized table.now n) × (cell + n < table_words n) × (d < n) }
    ensures { words.new ≡ answer_words (answer_from table.now (listed (0 ∷ cell ∷ [])) (read (cell + n) (after_kind n d (d + climbs)))) }
{
    let next = cell + n;
    let at = next as usize;
    let kind = table[at];
    let two = first_two(cell);
    let three = two.push(next);
    let table = Table { words: table, n };
    after_kind(Asked { table, d }, climbs, kind, three, words);
}

// By KIND: a group, or straight to step 4. Three cells were read.
fn after_kind(
    asked: Asked,
    climbs: u32,
    kind: u32,
    cells: Listed<3>,
    words: &mut [u32; ANSWER_WORDS],
)
    ensures { words.new ≡ answer_words (answer_from asked.entry.table.words.now cells.cells (after_kind asked.entry.table.n asked.entry.d (asked.entry.d + climbs) kind)) }
{
    if MICRO_MARK <= kind {
        let x = kind - MICRO_MARK;
        let member = Member {
            group: x / LOCAL_SPAN,
            local: x % LOCAL_SPAN,
        };
        from_group(asked, climbs, member, cells, words);
        return;
    }
    let a = from_jump(asked, kind);
    end(with_jump(cells, a), words);
}
