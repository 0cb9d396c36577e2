// The writer of trial files.
#![tactic(auto)]

mod checks;
mod content;
mod lists;
mod names;
mod writer;

pub use writer::write;
