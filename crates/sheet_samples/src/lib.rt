// Sheets with bands from fixed seeds, each with a fault or without one, and the trees, tables and levels that they are tried with.
#![tactic(auto)]

mod faults;
pub mod kinds;
mod laying;
mod making;
pub mod texts;
pub mod trees;
mod writing;
