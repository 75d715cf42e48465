// Words of a lent slice, set to zero.
ghost use Rattle.std.specs.Prelude.{◌≡◌, ◌++◌, min, length, drop, replicate};

// The first m words become 0, or all where there are fewer, and the others stay.
pub fn clear(words: &mut [u32], m: usize)
    ensures { words.new ≡ replicate (min m (length words.old)) 0 ++ drop m words.old }
{
    let end = m.min(words.len());
    words[..end].fill(0);
}
