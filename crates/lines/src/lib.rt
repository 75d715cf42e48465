// The lines of the counter program and of a sheet: reading and writing them, and the room that they take.
#![tactic(auto)]

pub mod band_lines;
pub mod reading;
pub mod room;
pub mod text;
pub mod writing;
