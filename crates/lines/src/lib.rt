// The list program: what its input asks for, the lines that it prints, lent bytes filled with them, and the printing itself.
#![tactic(auto)]

mod entry;
mod fill;
mod input;
mod print;
mod text;

pub use entry::{entry_line, first_line};
pub use fill::{Filling, fill_lines};
pub use input::degree_in;
pub use print::answer;
