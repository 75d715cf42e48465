// What the check of a sheet with bands and a question with it are to answer, by a plain reading of the text, plain counting, climbing and arithmetic: what a
// program holds the engine to. It shares no code with it.
#![tactic(auto)]

mod bands;
pub mod classes;
pub mod judging;
pub mod line_words;
mod reading;
