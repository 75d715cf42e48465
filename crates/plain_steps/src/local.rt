// Local numbers of a group, along the string of its shape: from the root, which is 0, each down meets the next local number.
ghost use Rattle.std.specs.Prelude.{◌≤◌};

use crate::power::largest;

// The depth in its group of a local number, where the shape has it.
pub(crate) fn local_depth(string: usize, local: usize) -> Option<usize> {
    let mut depth: usize = 0;
    let mut met: usize = 0;
    for step in (0..largest(string).exponent).rev() {
        if met == local {
            return Some(depth);
        }
        if (string >> step) % 2 == 0 {
            depth = depth.wrapping_add(1);
            met = met.wrapping_add(1);
        } else {
            depth = depth.saturating_sub(1);
        }
    }
    if met == local { Some(depth) } else { None }
}

// The ancestor at a depth of the group of a local number: the last that is met there on the way to that number.
pub(crate) fn local_ancestor(string: usize, local: usize, depth: usize) -> usize
    ensures { result ≤ local }
{
    let mut here: usize = 0;
    let mut met: usize = 0;
    let mut last = 0;
    for step in (0..largest(string).exponent).rev() {
        if local <= met {
            return last;
        }
        if (string >> step) % 2 == 0 {
            here = here.wrapping_add(1);
            met += 1;
            if here == depth {
                last = met;
            }
        } else {
            here = here.saturating_sub(1);
        }
    }
    last
}
