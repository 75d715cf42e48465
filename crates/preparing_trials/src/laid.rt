// The whole table of a list that forms one tree.
ghost use Rattle.std.specs.Prelude.{◌≤◌, length};

use crate::book::Book;
use crate::groups::Entries;
use crate::words::{clear, start, table_words};
use samples::words::put;

// A word for each entry into a section, which starts at a cell.
fn section(words: &[u32], at: usize, want: &mut [u32]) {
    for (i, word) in words.iter().enumerate() {
        put(want, at.wrapping_add(i), *word as usize);
    }
}

// The sections that hold what the book has.
fn sections(book: &Book, want: &mut [u32]) {
    let n = book.parents.len();
    section(&book.depth[..n], start(0, n), want);
    section(&book.order[..n], start(3, n), want);
    section(&book.pre[..n], start(4, n), want);
    section(&book.size[..n], start(5, n), want);
}

// The other sections, and the header.
fn others(book: &Book, roots: &[u32], jumps: &[u32], want: &mut [u32]) {
    book.lay_kinds(roots, jumps, want);
    book.lay_ladders(want);
    book.lay_groups(roots, want);
    book.lay_jumps(jumps, want);
    put(want, 0, book.parents.len().wrapping_add(1073741824));
    put(want, 1, jumps.len());
    put(want, 2, roots.len());
    put(want, 3, book.count_paths());
}

pub(crate) fn lay(parents: &[u32], want: &mut [u32])
    requires { length parents.now ≤ 512 }
{
    let book = Book::of(parents);
    let roots = Entries::of(&book, |v| book.is_root(v));
    let jumps = Entries::of(&book, |v| book.is_jump(v));
    clear(want, table_words(parents.len()));
    sections(&book, want);
    others(&book, roots.all(), jumps.all(), want);
}
