// What JUMPS is laid from: the jump entries, and the record of each.
ghost use Rattle.std.specs.Prelude.{◌≡◌, ◌<◌, length, take};
ghost use Rattle.base.specs.Limits.{group_limit};
ghost use Rattle.base.specs.Lists.{below};
ghost use Rattle.tree.specs.Parents.{depth};
ghost use Rattle.table.specs.Groups.{jump_nodes, jump_record};
ghost use Rattle.table.specs.Ladders.{lad_pos};
ghost use Rattle.table.specs.Table.{ladder_cells};
ghost use Rattle.prepare.specs.Arrays.{OneTree, kinds_of, ancestors_end};

use crate::order::Preorder;
use crate::places::RECORD_WORDS;
use base::Node;
use base::limits::MICRO_MARK;
use base::powers::exponent;

// The jump entries, in preorder: of the entries of size over 7 that lead to one jump entry, that entry stands last.
pub(crate) fn jump_nodes(tree: Preorder, kinds: &[u32], cells: &mut [u32])
    requires { (kinds.now ≡ kinds_of tree.parents.now) × (length cells.old ≡ length tree.parents.now) }
    ensures { take (length (jump_nodes group_limit tree.entry.parents.now)) cells.new ≡ jump_nodes group_limit tree.entry.parents.now }
{
    for v in tree.order {
        let k = kinds[*v as usize];
        if k < MICRO_MARK {
            cells[k as usize] = *v;
        }
    }
}

// A jump entry's record, from LADPOS and LADDERS: each ancestor by one ladder from the one before. The ancestors' end is tested in each turn and the loop
// bounded by a constant, so that the compiler unrolls it whole.
pub(crate) fn record(
    parents: &[u32],
    places: &[u32],
    rungs: &[u32],
    deep: u32,
    v: Node,
) -> [u32; RECORD_WORDS]
    requires { OneTree parents.now × (places.now ≡ below (length parents.now) (lad_pos parents.now)) × (rungs.now ≡ ladder_cells parents.now) × (v.0 < length parents.now) × (deep ≡ depth parents.now v.0) }
    ensures { result ≡ jump_record parents.now v.0 }
{
    let end = ancestors_end(deep);
    let mut r: [u32; RECORD_WORDS] = [0; RECORD_WORDS];
    r[0] = deep;
    let mut w = v;
    let mut s: u32 = 1;
    let mut t: u32 = 1;
    for e in 1..RECORD_WORDS {
        if end <= e {
            return r;
        }
        let place = places[w.0 as usize];
        w = Node(rungs[(place - s) as usize]);
        r[e] = w.0;
        s = t;
        t += t;
    }
    r
}

// The word behind the ancestors in the record of an entry of that depth.
fn ancestors_end(deep: u32) -> usize
    ensures { result ≡ ancestors_end deep }
{
    match exponent(deep) {
        Some(e) => e as usize + 2,
        None => 1,
    }
}
