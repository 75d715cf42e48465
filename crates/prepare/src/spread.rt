// The sections of n words: a word for each entry, from arrays with a word for each position.
ghost use Rattle.std.specs.Prelude.{◌≡◌, ℕ, length};
ghost use Rattle.base.specs.Lists.{below};
ghost use Rattle.tree.specs.Forest.{position};
ghost use Rattle.prepare.specs.Arrays.{by_position};

use crate::order::Preorder;

// The word of each position into the cell of the entry that stands there.
pub(crate) fn scatter(tree: Preorder, values: &[u32], cells: &mut [u32])
    requires { (length values.now ≡ length tree.parents.now) × (length cells.old ≡ length tree.parents.now) }
    ensures { (f : ℕ → ℕ) → values.now ≡ by_position tree.entry.parents.now f → cells.new ≡ below (length tree.entry.parents.now) f }
{
    for (v, x) in tree.order.iter().zip(values) {
        cells[*v as usize] = *x;
    }
}

// Each position into the cell of the entry that stands there. Not `scatter` over any iterator: the clause on what that gives would be longer than this loop.
pub(crate) fn positions(tree: Preorder, cells: &mut [u32])
    requires { length cells.old ≡ length tree.parents.now }
    ensures { cells.new ≡ below (length tree.entry.parents.now) (position tree.entry.parents.now) }
{
    for (at, v) in tree.order.iter().enumerate() {
        cells[*v as usize] = at as u32;
    }
}

// One array into another of the same length. Not `copy_from_slice`, for which the library for C needs `memmove` from outside.
pub(crate) fn copy(from: &[u32], to: &mut [u32])
    requires { length from.now ≡ length to.old }
    ensures { to.new ≡ from.now }
{
    for (at, word) in from.iter().enumerate() {
        to[at] = *word;
    }
}
