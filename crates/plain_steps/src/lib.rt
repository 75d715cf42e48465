// The paper's printed steps, walked on a lent table of any contents with plain words and a test at each word: what the programs hold the questions to. It
// shares no code with them.
#![tactic(auto)]

mod cells;
mod local;
mod power;
mod relation;
mod steps;
mod strings;
mod table;
mod walking;

pub use relation::{ancestry, branch};
pub use steps::{climb, level, rating};
pub use strings::shape_strings;
pub use table::entries;
pub use walking::Walk;
