// The number of a group's shape, from the depths of its entries.
ghost use Rattle.std.specs.Prelude.{◌≡◌, ◌-◌, ◌≤◌, ◌<◌, length, unwrap_or};
ghost use Rattle.base.specs.Limits.{group_limit, shape_count};
ghost use Rattle.base.specs.Lists.{below};
ghost use Rattle.shapes.specs.Packed.{byte};
ghost use Rattle.shapes.specs.Walks.{walk_round, walks, shapes, shape_number};
ghost use Rattle.shapes.specs.Numbered.{Numbered, OfGroup};

use crate::packed::byte;
use base::Position;
use base::limits::{LOCAL_NUMBERS, SHAPE_COUNT};

// The number of the shape of the group whose root stands at position `from` of a list of depths in preorder and that has so many entries; 197 where
// the depths there are not those of a group of 1 to 7 entries. 197 and no Option, as it is promised (`OfGroup`, `shape_count`; docs/DEMANDS).
pub fn number(depths: &[u32], from: Position, entries: usize) -> u32
    ensures is { OfGroup depths.now from.0 entries (λ f. result ≡ shape_number group_limit (walk_round f)) }
    ensures small { result ≤ shape_count }
    ensures none { OfGroup depths.now from.0 entries (λ f. ⊥) → result ≡ shape_count }
{
    if entries == 0
        || LOCAL_NUMBERS < entries
        || depths.len() < entries
        || depths.len() - entries < from.0 as usize
    {
        return SHAPE_COUNT;
    }
    let end = from.0 as usize + entries;
    ranked(&depths[from.0 as usize..end]).unwrap_or(SHAPE_COUNT)
}

// The number of the shape of a group, from the depths of its entries in preorder; none where they are not those of a group. Each entry adds the walks
// that part from the group's own there by going down from deeper than the entry's parent.
fn ranked(group: &[u32]) -> Option<u32>
    requires { (0 < length group.now) × (length group.now ≤ group_limit) }
    ensures { Numbered group.now (unwrap_or result shape_count) }
{
    let root = group[0];
    let below_root = &group[1..];
    let mut sum = smaller(below_root.len());
    let mut at: u32 = 0;
    for (i, depth) in below_root.iter().enumerate() {
        if *depth <= root {
            return None;
        }
        let below = *depth - root;
        if at + 1 < below {
            return None;
        }
        let ways = ways(below_root.len() - i);
        let before = byte(ways, at) - byte(ways, below - 1);
        sum += before as u32;
        at = below;
    }
    Some(sum)
}

// The shapes of at most 0 to 6 entries: a byte for each count, the first lowest.
const SMALLER: u64 = 0x41_17_09_04_02_01_00;

// How many shapes have at most so many entries.
fn smaller(entries: usize) -> u32
    requires { entries < group_limit }
    ensures { result ≡ length (shapes entries) }
{
    byte(SMALLER, entries as u32) as u32
}

// How many walks go on from each depth that a group's entry can have, with so many downs to come: a byte for each depth, the root's lowest.
fn ways(downs: usize) -> u64
    requires { downs < group_limit }
    ensures { below (group_limit - downs) (byte result) ≡ below (group_limit - downs) (λ c. length (walks downs c)) }
{
    WAYS[downs]
}

static WAYS: [u64; LOCAL_NUMBERS] = [
    0x01_01_01_01_01_01_01,
    0x06_05_04_03_02_01,
    0x14_0e_09_05_02,
    0x30_1c_0e_05,
    0x5a_2a_0e,
    0x84_2a,
    0x84,
];
