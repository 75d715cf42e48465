// Words read and written with a test in place of a proof: a slip here shows as a difference, never as a fault of the program.
ghost use Rattle.std.specs.Prelude.{◌≡◌, ◌≤◌, slice_index, slice_set};
ghost use Rattle.samples.specs.Words.{narrowed};

pub const TOP: usize = 4294967295;

// A word as a number: std has no `usize::from` of one, and a cast of a field or an element needs the range that a parameter has.
pub fn wide(x: u32) -> usize
    ensures { (result ≡ x) × (result ≤ 4294967295) }
{
    x as usize
}

// x as a word, or 0 where it is more than a word holds.
#[tactic(auto, unfolding(crate::specs::Words::narrowed))]
pub fn narrow(x: usize) -> u32
    ensures { result ≡ narrowed x }
{
    u32::try_from(x).unwrap_or(0)
}

// The word at i, 0 past the end.
pub fn get(a: &[u32], i: usize) -> usize
    ensures { (result ≡ slice_index a.now i) × (result ≤ 4294967295) }
{
    wide(a.get(i).copied().unwrap_or(0))
}

// The word at i becomes x, and nothing changes where there is none.
pub fn put(a: &mut [u32], i: usize, x: usize)
    ensures { a.new ≡ slice_set a.old i (narrowed x) }
{
    if i < a.len() {
        a[i] = narrow(x);
    }
}
