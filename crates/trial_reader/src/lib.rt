// The reader of trial files.
#![tactic(auto)]

mod fields;
mod lists;
mod names;
mod reader;
mod short;

pub use reader::{Content, Trial, name_part, open, read};
