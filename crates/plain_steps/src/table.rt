// A table of any contents, and step 1.
ghost use Rattle.std.specs.Prelude.{◌≡◌, ◌+◌, ◌<◌, ◌≤◌, IfSome, IfOk};

use crate::cells::Cells;
use samples::refusals::Refusal;
use samples::words::get;

// Cell 0 of no entries.
const HEADER: usize = 1073741824;

// Step 1: the number of entries, where the table is not broken.
pub fn entries(table: &[u32]) -> Option<usize>
    ensures { IfSome result (λ n. n ≤ 1048576) }
{
    let n = get(table, 0).checked_sub(HEADER)?;
    if n == 0 || 1048576 < n || table.len() < 4 + 11 * n + 21 * (n / 8) {
        return None;
    }
    Some(n)
}

// A word that is to be below a limit, in a table that is not broken.
pub(crate) fn below(word: usize, limit: usize) -> Result<usize, Refusal>
    ensures { IfOk result (λ x. (x ≡ word) × (x < limit)) }
{
    if word < limit {
        Ok(word)
    } else {
        Err(Refusal::Broken)
    }
}

// The words of a table of n entries that passes step 1.
#[derive(Clone, Copy)]
pub(crate) struct Table<'a> {
    words: &'a [u32],
    pub(crate) n: usize,
    ghost few: { n ≤ 1048576 },
}

impl<'a> Table<'a> {
    // Step 1: cell 0, if there are 4 words.
    pub(crate) fn open(words: &'a [u32], cells: &mut Cells) -> Result<Table<'a>, Refusal>
        ensures { cells.new.count ≤ cells.old.count + 1 }
    {
        if 4 <= words.len() {
            cells.read(words, 0);
        }
        match entries(words) {
            Some(n) => Ok(Table { words, n }),
            None => Err(Refusal::Broken),
        }
    }

    // A number that is to be an entry's.
    pub(crate) fn known(&self, v: usize) -> Result<usize, Refusal>
        ensures { IfOk result (λ x. (x ≡ v) × (x < self.now.n)) }
    {
        if v < self.n {
            Ok(v)
        } else {
            Err(Refusal::Unknown(v))
        }
    }

    pub(crate) fn read(&self, cell: usize, cells: &mut Cells) -> usize
        ensures listed { cells.new.count ≤ cells.old.count + 1 }
        ensures word { result ≤ 4294967295 }
    {
        cells.read(self.words, cell)
    }
}
