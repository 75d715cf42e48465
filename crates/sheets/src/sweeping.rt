// The lowest fault of a sheet whose keys are in increasing order.
ghost use Rattle.std.specs.Prelude.{◌≡◌, ℕ, ◌≤◌, ◌<◌, length, get_or, Ok, Err};
ghost use Rattle.base.specs.Amounts.{most_sum};
ghost use Rattle.base.specs.Limits.{most_entries};
ghost use Rattle.base.specs.declared.refusals.Refusal.TheVariants.{Gap};
ghost use Rattle.bands.specs.Bands.{is_covered, sheet_fault};
ghost use Rattle.sorting.specs.Orders.{Ascending};
ghost use Rattle.sheets.specs.Keys.{key_class, key_bands, Legal};
ghost use Rattle.sheets.specs.Parts.{Tells, SweptTo, NextClass, NoClass, none_of_four};

use crate::keys::{class_of, from_of, line_of, to_of};
use base::amounts::MOST_SUM;
use base::{Node, Refusal};

// The lowest fault of a sheet of level d: of its classes in increasing number the first that has one.
pub(crate) fn lowest_fault(
    keys: &[u64],
    words: &[u64],
    depths: &[u32],
    d: u32,
) -> Result<(), Refusal>
    requires { (Legal words.now keys.now) × (Ascending keys.now) × (length depths.now ≤ most_entries) }
    ensures { Tells (sheet_fault depths.now d (key_bands words.now keys.now)) result }
{
    let mut class = next_class(depths, d, 0);
    let mut place: usize = 0;
    while class < depths.len() {
        place = sweep(keys, words, place, Node(class as u32))?;
        class = next_class(depths, d, class + 1);
    }
    Ok(())
}

// The first entry from a place on that a sheet of level d is to cover, or the number of entries, where the sweep of the classes ends: `NextClass` says both at once.
fn next_class(depths: &[u32], d: u32, from: usize) -> usize
    requires { from ≤ length depths.now }
    ensures { NextClass depths.now d from result }
{
    for i in skip_eights(depths, d, from)..depths.len() {
        if is_covered(d, depths[i]) {
            return i;
        }
    }
    depths.len()
}

// Whether a sheet of level d is to cover an entry of that depth.
pub(crate) fn is_covered(d: u32, depth: u32) -> bool
    ensures { result ≡ is_covered d depth }
{
    depth <= d
}

// Entries are passed over by eights, as long as none of the eight is a class: most are not, and eight are compared at once. The place goes on by eights, and the entries behind it are left to
// `next_class`: chunks would hide it.
fn skip_eights(depths: &[u32], d: u32, from: usize) -> usize
    requires { from ≤ length depths.now }
    ensures { NoClass depths.now d from result }
{
    let mut i = from;
    while 8 <= depths.len() - i {
        let low = none_of_four(d, depths[i], depths[i + 1], depths[i + 2], depths[i + 3]);
        let high = none_of_four(
            d,
            depths[i + 4],
            depths[i + 5],
            depths[i + 6],
            depths[i + 7],
        );
        if !(low & high) {
            return i;
        }
        i += 8;
    }
    i
}

// Whether none of four entries, of these depths, is a class of level d, without a branch.
fn none_of_four(d: u32, a: u32, b: u32, c: u32, e: u32) -> bool
    ensures { result ≡ none_of_four d a b c e }
{
    !is_covered(d, a) & !is_covered(d, b) & !is_covered(d, c) & !is_covered(d, e)
}

// The place behind the bands of one class, or its fault. Before `start` there are only bands of lower classes.
fn sweep(keys: &[u64], words: &[u64], start: usize, class: Node) -> Result<usize, Refusal>
    requires { (Legal words.now keys.now) × (Ascending keys.now) × (start ≤ length keys.now) × ((i : ℕ) → i < start → key_class (get_or keys.now i 0) < class.0) }
    ensures { SweptTo words.now keys.now class.0 result }
{
    let mut next: u64 = 0;
    for place in start..keys.len() {
        let key = keys[place];
        let own = class_of(key);
        if own < class.0 {
            continue;
        }
        if class.0 < own {
            return ended(class, next, place);
        }
        let from = from_of(key) as u64;
        if next < from {
            return Err(Refusal::Gap(class, next as u32));
        }
        if from < next {
            return Err(Refusal::Overlap(class, from as u32));
        }
        next = to_of(words[line_of(key)]) + 1;
    }
    ended(class, next, keys.len())
}

// The bands of the class have ended, and hold each amount below `next` once.
fn ended(class: Node, next: u64, place: usize) -> Result<usize, Refusal>
    ensures full { most_sum < next → result ≡ Ok place }
    ensures short { next ≤ most_sum → result ≡ Err (Gap class next) }
{
    if next <= MOST_SUM {
        return Err(Refusal::Gap(class, next as u32));
    }
    Ok(place)
}
