// The lines of a degree's list: the first line, and the line of each position.
ghost use Rattle.lines.specs.Text.{Lined};
ghost use Rattle.lines.specs.Output.{first_line, entry_line};

use crate::text::{heading, pair_line, refusal_line};
use poly::Degree;

// Degree and length, at the front of `out`. It gives the line's length.
pub fn first_line(n: u32, out: &mut [u8; 64]) -> usize
    ensures { Lined out.old (first_line n) result out.new }
{
    match (Degree { n }).list_length() {
        Ok(count) => heading(n, count, out),
        Err(refusal) => refusal_line(refusal, out),
    }
}

// Position, f and g, at the front of `out`. It gives the line's length.
pub fn entry_line(n: u32, position: u64, out: &mut [u8; 64]) -> usize
    ensures { Lined out.old (entry_line n position) result out.new }
{
    match pairs::pair_at(n, position) {
        Ok(pair) => pair_line(position, pair, out),
        Err(refusal) => refusal_line(refusal, out),
    }
}
