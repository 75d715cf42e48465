// ABOVE, SIZE, HEIGHT and LONG by position.
ghost use Rattle.std.specs.Prelude.{◌≡◌, length};
ghost use Rattle.tree.specs.Forest.{height};
ghost use Rattle.prepare.specs.Arrays.{OneTree, by_position, depths_of, sizes_of, aboves_of, long_position};

use base::limits::TOP_MARK;

// ABOVE: the position of the entry above, or the top mark. `climb` holds the positions on the climb from the entry before, by depth, so that none is
// searched for.
pub(crate) fn above(parents: &[u32], depths: &[u32], aboves: &mut [u32], climb: &mut [u32])
    requires { OneTree parents.now × (depths.now ≡ depths_of parents.now) × (length aboves.old ≡ length parents.now) × (length climb.old ≡ length parents.now) }
    ensures { aboves.new ≡ aboves_of parents.now }
{
    aboves[0] = TOP_MARK;
    climb[0] = 0;
    for at in 1..parents.len() {
        let deep = depths[at] as usize;
        aboves[at] = climb[deep - 1];
        climb[deep] = at as u32;
    }
}

// SIZE, HEIGHT and LONG, from ABOVE and the last position down: of children of one height the first is met last. Each entry by itself is of size and height 1,
// and has no long child. Its size is counted in the one above; its height raises that one, whose long child it then is, unless another child is taller.
pub(crate) fn measures(
    parents: &[u32],
    aboves: &[u32],
    sizes: &mut [u32],
    heights: &mut [u32],
    longs: &mut [u32],
)
    requires tree { OneTree parents.now × (aboves.now ≡ aboves_of parents.now) }
    requires room { (length sizes.old ≡ length parents.now) × (length heights.old ≡ length parents.now) × (length longs.old ≡ length parents.now) }
    ensures sizes { sizes.new ≡ sizes_of parents.now }
    ensures heights { heights.new ≡ by_position parents.now (height parents.now) }
    ensures longs { longs.new ≡ by_position parents.now (long_position parents.now) }
{
    sizes.fill(1);
    heights.fill(1);
    longs.fill(TOP_MARK);
    for at in (1..parents.len()).rev() {
        let over = aboves[at] as usize;
        sizes[over] += sizes[at];
        let rise = heights[at] + 1;
        if heights[over] <= rise {
            heights[over] = rise;
            longs[over] = at as u32;
        }
    }
}
