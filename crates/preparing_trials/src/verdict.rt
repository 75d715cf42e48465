// What preparing is to answer.
use crate::words::table_words;
use samples::climbing::climbs;
use samples::refusals::Refusal;
use samples::words::TOP;

fn is_top(word: &u32) -> bool {
    *word as usize == TOP
}

// The lowest entry whose word is neither an entry nor the top mark.
fn stray(parents: &[u32]) -> Option<usize> {
    let n = parents.len();
    parents.iter().position(|p| !is_top(p) && n <= *p as usize)
}

// The second entry with the top mark, or the number of entries where there is none at all.
fn other_top(parents: &[u32]) -> Option<usize> {
    let Some(top) = parents.iter().position(is_top) else {
        return Some(parents.len());
    };
    (0..parents.len()).find(|v| top < *v && is_top(&parents[*v]))
}

// The lowest entry whose climb never meets the top.
fn lost(parents: &[u32]) -> Option<usize> {
    let n = parents.len();
    (0..n).find(|v| climbs(parents, n, *v) == n)
}

// The answer to a list, with a table and a space of so many words.
pub(crate) fn judge(parents: &[u32], table: usize, space: usize) -> Result<usize, Refusal> {
    let n = parents.len();
    let words = table_words(n);
    if n == 0 {
        return Err(Refusal::NoEntries);
    }
    if table < words {
        return Err(Refusal::ShortTable);
    }
    if space < n.wrapping_mul(6) {
        return Err(Refusal::ShortSpace);
    }
    if let Some(v) = stray(parents) {
        return Err(Refusal::Stray(v));
    }
    if let Some(v) = other_top(parents) {
        return Err(Refusal::Tops(v));
    }
    if let Some(v) = lost(parents) {
        return Err(Refusal::Lost(v));
    }
    Ok(words)
}
