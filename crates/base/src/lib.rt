// What every crate of the engine rests on: entry numbers and positions, sums and cents, the numbers of the answers, the measures of a table, the ranges of amounts, powers of two.
#![tactic(auto)]

pub mod amounts;
pub mod limits;
pub mod numbers;
pub mod powers;
mod refusals;
mod words;

pub use refusals::{Refusal, reply_words};
pub use words::clear;

// An entry's number: a node of 003.
#[derive(Clone, Copy, PartialEq, Eq)]
pub struct Node(pub u32);

// An entry's place in the preorder: its depth-first number in 003.
#[derive(Clone, Copy)]
pub struct Position(pub u32);

// A sum insured, in whole units of money; an endorsement that takes cover off is negative.
#[derive(Clone, Copy)]
pub struct Sum(pub i64);

// An amount in cents.
#[derive(Clone, Copy)]
pub struct Cents(pub i64);
