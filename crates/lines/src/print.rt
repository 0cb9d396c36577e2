// Prints what the list program answers. What is written no contract can say, so these functions only write what others made.
use crate::entry::first_line;
use crate::fill::fill_lines;
use crate::input::degree_in;
use crate::text::refusal_line;
use reply::Refusal;
use std::io;
use std::io::Write;

// Answers the whole input of the program.
pub fn answer<W: Write>(out: &mut W, input: &[u8]) -> io::Result<()> {
    match degree_in(input) {
        Ok(n) => print_list(out, n),
        Err(refusal) => refuse(out, refusal),
    }
}

fn refuse<W: Write>(out: &mut W, refusal: Refusal) -> io::Result<()> {
    let mut line = [0u8; 64];
    let size = refusal_line(refusal, &mut line);
    out.write_all(&line[..size])
}

fn print_list<W: Write>(out: &mut W, n: u32) -> io::Result<()> {
    let mut line = [0u8; 64];
    let size = first_line(n, &mut line);
    out.write_all(&line[..size])?;
    print_entries(out, n)
}

// A large buffer, since a call of the system for each line would take most of the time. Only the list's end leaves it empty.
#[tactic(auto, using(crate::proofs::Printed::fills_on))]
fn print_entries<W: Write>(out: &mut W, n: u32) -> io::Result<()> {
    let mut buffer = [0u8; 65536];
    let mut position: u64 = 0;
    loop {
        let filling = fill_lines(n, position, &mut buffer);
        let used = filling.used;
        if used == 0 {
            return Ok(());
        }
        out.write_all(&buffer[..used])?;
        position = filling.next;
    }
}
