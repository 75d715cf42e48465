// Parent lists of many kinds, made from fixed seeds, and what else the programs share that try the engine on them. Entries are plain words here.
#![tactic(auto)]

pub mod amounts;
pub mod cases;
pub mod climbing;
mod codings;
mod damage;
pub mod fields;
mod lists;
pub mod refusals;
pub mod seeds;
pub mod tally;
pub mod words;
