// Lists of cells, one behind another. Unused places are 0, so that each place is copied, used or not.
ghost use Rattle.std.specs.Prelude.{◌≡◌, ◌≤◌, take};
ghost use Rattle.answers.specs.Answers.{pushed_all};
ghost use Rattle.query.specs.Reads.{Held};
ghost use Rattle.query.specs.Parts.{JumpCells, one_of};

use crate::reading::Listed;
use answers::{Answer, Cells};
use base::numbers::ACCEPTED;

// Step 4's answer, with its cells behind the K read before.
pub(crate) fn with_jump<const K: u32>(cells: Listed<K>, a: Answer) -> Answer
    requires { (K ≤ 11) × (JumpCells a.cells) }
    ensures { result ≡ record { number = a.number; word = a.word; cells = pushed_all cells.entry.cells (take a.cells.count a.cells.at) } }
{
    let more = a.cells;
    let all = if a.number == ACCEPTED {
        with_four(cells, more)
    } else {
        with_four(cells, recounted(more))
    };
    Answer { cells: all, ..a }
}

// Four cells at most behind K cells. With a constant K every place is one, so that nothing is held in memory.
fn with_four<const K: u32>(cells: Listed<K>, more: Cells) -> Cells
    requires { (K ≤ 11) × (JumpCells more) }
    ensures { result ≡ pushed_all cells.entry.cells (take more.count more.at) }
{
    let at = more.at;
    let k = K as usize;
    let mut all = cells.cells;
    all.at[k] = at[0];
    all.at[k + 1] = at[1];
    all.at[k + 2] = at[2];
    all.at[k + 3] = at[3];
    all.count = K + more.count;
    all
}

// The cells of step 4 with their count taken from the places. Else the compiler sets the count of each refusal before the test that refuses, on the way of every answer.
fn recounted(cells: Cells) -> Cells
    requires { JumpCells cells }
    ensures { result ≡ cells }
{
    let mut same = cells;
    let at = same.at;
    same.count = one(at[0]) + one(at[1]) + one(at[2]) + one(at[3]);
    same
}

// 1 for a place that is used.
fn one(cell: u32) -> u32
    ensures { (result ≡ one_of cell) × (result ≤ 1) }
{
    u32::from(cell != 0)
}

// The cells of a level lookup, ten at most, behind the five of branch.
pub(crate) fn with_ten(cells: Listed<5>, more: Cells) -> Cells
    requires { (Held more.count more) × (more.count ≤ 10) }
    ensures { result ≡ pushed_all cells.cells (take more.count more.at) }
{
    let a = cells.cells.at;
    let b = more.at;
    let at = [
        a[0], a[1], a[2], a[3], a[4], b[0], b[1], b[2], b[3], b[4], b[5], b[6], b[7], b[8], b[9],
    ];
    Cells {
        at,
        count: 5 + more.count,
    }
}
