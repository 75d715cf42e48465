// The number of a group's shape: its string of downs and ups, read as a number with down for 0 and up for 1, among all such strings.
use crate::book::Book;
use samples::words::get;

// A string with so many ups behind it.
fn ups(code: usize, count: usize) -> usize {
    (0..count).fold(code, |c: usize, _| c.wrapping_mul(2).wrapping_add(1))
}

// The walk round the group of a root: to each next entry up as far as needed, then down; from the last one up to the root.
fn walk(book: &Book, root: usize) -> usize {
    let first = get(&book.pre, root);
    let top = get(&book.depth, root);
    let mut code: usize = 0;
    let mut deep = top;
    for k in 1..get(&book.size, root) {
        let d = get(&book.depth, get(&book.order, first.wrapping_add(k)));
        code = ups(code, deep.wrapping_add(1).saturating_sub(d)).wrapping_mul(2);
        deep = d;
    }
    ups(code, deep.saturating_sub(top))
}

// Whether a string of so many steps stays at or below the root and ends there: read from its end, with ups opening and downs closing.
fn closed(code: usize, steps: usize) -> bool {
    let mut rest = code;
    let mut open: usize = 0;
    for _ in 0..steps {
        if rest % 2 == 1 {
            open = open.wrapping_add(1);
        } else if open == 0 {
            return false;
        } else {
            open -= 1;
        }
        rest /= 2;
    }
    open == 0
}

// How many strings of so many steps are walks and come before a string.
fn before(code: usize, steps: usize) -> usize {
    (0..code).filter(|c| closed(*c, steps)).count()
}

// How many walks go round fewer than so many entries.
fn fewer(size: usize) -> usize {
    let mut count: usize = 0;
    let mut limit: usize = 1;
    for m in 1..size {
        count = count.wrapping_add(before(limit, (m - 1).wrapping_mul(2)));
        limit = limit.wrapping_mul(4);
    }
    count
}

pub(crate) fn shape(book: &Book, root: usize) -> usize {
    let size = get(&book.size, root);
    let steps = size.wrapping_mul(2).saturating_sub(2);
    fewer(size).wrapping_add(before(walk(book, root), steps))
}
