// The cells that a walk reads, in the order read, fifteen at most.
ghost use Rattle.std.specs.Prelude.{◌≡◌, ◌+◌, ◌≤◌};

use samples::words::{get, narrow};

// An array with its count: there is no heap.
#[derive(Clone, Copy)]
pub(crate) struct Cells {
    pub(crate) count: usize,
    pub(crate) at: [u32; 15],
}

impl Cells {
    pub(crate) fn new() -> Cells
        ensures { result.count ≡ 0 }
    {
        Cells {
            count: 0,
            at: [0; 15],
        }
    }

    fn push(&mut self, cell: usize)
        ensures { self.new.count ≤ self.old.count + 1 }
    {
        let count = self.count;
        if count < 15 {
            self.at[count] = narrow(cell);
            self.count = count + 1;
        }
    }

    // Lists a cell of a table, and answers its word.
    pub(crate) fn read(&mut self, table: &[u32], cell: usize) -> usize
        ensures listed { self.new.count ≤ self.old.count + 1 }
        ensures word { result ≤ 4294967295 }
    {
        self.push(cell);
        get(table, cell)
    }
}
