// Prints what the list program prints for inputs on the edges, and for degree 6, whose list is longer than a block, to be held against
// tests/list_reference.py. Of the list of degree 10, which is longer than a buffer, the first lines and the last are printed, and a
// checksum of all.
#![tactic(auto)]

use std::io;
use std::io::Write;

// The input of a case, on a line of its own with its end marked.
fn show_input(rt: &impl Print, input: &[u8]) -> io::Result<()> {
    rt.write_all(b"input ")?;
    rt.write_all(input)?;
    rt.write_all(b"|\n")
}

// The input, and then what the program answers.
fn case(rt: &impl Print, input: &[u8]) -> io::Result<()> {
    show_input(rt, input)?;
    lines::answer(&mut io::writer(rt), input)
}

// A checksum of all that is written.
#[derive(Clone, Copy)]
struct Checksum {
    value: u32,
}

impl Write for Checksum {
    fn write(&mut self, bytes: &[u8]) -> io::Result<usize> {
        for byte in bytes {
            self.value = self.value.wrapping_mul(31).wrapping_add(u32::from(*byte));
        }
        Ok(bytes.len())
    }

    fn flush(&mut self) -> io::Result<()> {
        Ok(())
    }
}

fn show_first_line(rt: &impl Print, n: u32) -> io::Result<()> {
    let mut text = [0u8; 64];
    let size = lines::first_line(n, &mut text);
    rt.write_all(&text[..size])
}

fn show_entry(rt: &impl Print, n: u32, position: u64) -> io::Result<()> {
    let mut text = [0u8; 64];
    let size = lines::entry_line(n, position, &mut text);
    rt.write_all(&text[..size])
}

// An input whose list is long: of its lines the first, those of the first entry and the last, and a checksum of all.
fn long_case(rt: &impl Print, input: &[u8]) -> io::Result<()> {
    show_input(rt, input)?;
    let Ok(n) = lines::degree_in(input) else {
        return Ok(());
    };
    let Ok(count) = (poly::Degree { n }).list_length() else {
        return Ok(());
    };
    show_first_line(rt, n)?;
    show_entry(rt, n, 0)?;
    show_entry(rt, n, count.saturating_sub(1))?;
    let mut sum = Checksum { value: 0 };
    lines::answer(&mut sum, input)?;
    println!(rt; "checksum {}", sum.value)
}

const INPUTS: [&str; 12] = [
    "0\n", "11\n", "", "3", "+3\n", "03\n", "003\n", "3\n\n", "10\nx", "1\n", "3\n", "6\n",
];

fn main(rt: HostRuntime) -> io::Result<()> {
    case(&rt, b"2\n")?;
    long_case(&rt, b"10\n")?;
    for input in INPUTS {
        case(&rt, input.as_bytes())?;
    }
    Ok(())
}
