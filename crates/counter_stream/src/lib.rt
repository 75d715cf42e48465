// The counter program on a stream of bytes, with lent buffers: from any pieces of its input to its output.
#![tactic(auto)]

mod buffers;
mod phases;
mod pieces;
mod whole_lines;
mod workspace;

pub use buffers::ProgramBuffers;
pub use phases::{Phase, State};
pub use pieces::{Progress, feed, finish};
pub use workspace::Workspace;
