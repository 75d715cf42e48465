// The measures of a table, and words filled in before a trial.
use samples::words::put;

// W: the words of a table for n entries.
pub(crate) fn table_words(n: usize) -> usize {
    n.wrapping_mul(11)
        .wrapping_add(4)
        .wrapping_add((n / 8).wrapping_mul(21))
}

// Where a section of the table starts: after the header and so many times n cells.
pub(crate) fn start(section: usize, n: usize) -> usize {
    n.wrapping_mul(section).wrapping_add(4)
}

// Zeros in the first n words.
pub(crate) fn clear(a: &mut [u32], n: usize) {
    let end = n.min(a.len());
    a[..end].fill(0);
}

// What words hold before a trial: no two alike, and none a likely answer.
pub(crate) fn soil(a: &mut [u32]) {
    for i in 0..a.len() {
        put(a, i, i.wrapping_add(3000000000));
    }
}
