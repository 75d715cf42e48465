// What turns a list away: 4 to 6, in that order. A list that passes leaves its preorder in region 0 of the space and the depths in region 1.
ghost use Rattle.std.specs.Prelude.{◌≡◌, ◌≤◌, length, OnOk};
ghost use Rattle.base.specs.Limits.{most_entries, space_words};
ghost use Rattle.base.specs.Refusals.{outcome_of};
ghost use Rattle.judge.specs.Regions.{Ordered};
ghost use Rattle.judge.specs.Verdict.{verdict};

use crate::link::link;
use crate::lost::first_lost;
use crate::stray::first_stray;
use crate::walk::walk;
use base::{Node, Refusal};

pub(crate) fn faults(parents: &[u32], space: &mut [u32]) -> Result<u32, Refusal>
    requires { (length parents.now ≤ most_entries) × (length space.old ≡ space_words (length parents.now)) }
    ensures answer { outcome_of result ≡ verdict parents.now }
    ensures walked { OnOk result (Ordered parents.now space.new) }
{
    let n = parents.len();
    if let Some(v) = first_stray(parents) {
        return Err(Refusal::Stray(v));
    }
    let (order, space) = space.split_at_mut(n);
    let (depths, space) = space.split_at_mut(n);
    let (heads, space) = space.split_at_mut(n);
    let (nexts, space) = space.split_at_mut(n);
    let (pending, marks) = space.split_at_mut(n);
    let Some(first) = link(parents, heads, nexts) else {
        return Err(Refusal::Tops(n as u32));
    };
    let second = Node(nexts[first.0 as usize]);
    if (second.0 as usize) < n {
        return Err(Refusal::Tops(second.0));
    }
    let count = walk(parents, first, heads, nexts, pending, order, depths);
    match first_lost(parents, &order[..count], marks) {
        Some(v) => Err(Refusal::Loop(v)),
        None => Ok(n as u32),
    }
}
