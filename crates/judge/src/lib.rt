// Judging a parent list on a lent working space of 6n words: whether it forms one tree, and its preorder.
#![tactic(auto)]

mod faults;
mod judging;
mod link;
mod lost;
mod stray;
mod walk;

pub use judging::{countable, judge, preorder};
