// Numbers in groups of seven bits, lowest group first; the high bit is set on every byte but the last: unsigned LEB128.
#![tactic(auto)]

mod reading;
mod writing;

pub use reading::read_number;
pub use writing::{put_number, width};
