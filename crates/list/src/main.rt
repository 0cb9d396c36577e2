// The list program of document 01: reads a degree from standard input and prints the list of its coprime pairs.
#![tactic(auto)]

ghost use Rattle.std.specs.Prelude.{◌≤◌, length, IfOk};

use std::io;
use std::io::Read;

// Reads until the slice is full or the input ends, and gives how many bytes it put at the slice's front. A loop of its own, since std's
// `read_exact` takes an input that ends early for an error, and `read_to_end` needs memory of the heap.
fn read_full<R: Read>(input: &mut R, bytes: &mut [u8]) -> io::Result<usize>
    ensures { IfOk result (λ n. n ≤ length bytes.new) }
{
    let mut done: usize = 0;
    while done < bytes.len() {
        let more = input.read(&mut bytes[done..])?;
        if more == 0 {
            return Ok(done);
        }
        done += more;
    }
    Ok(done)
}

fn main(rt: HostRuntime) -> io::Result<()> {
    // The longest input that is not refused has three bytes; with a fourth, any input is refused.
    let mut input = [0u8; 4];
    let size = read_full(&mut rt.stdin(), &mut input)?;
    lines::answer(&mut io::writer(&rt), &input[..size])
}
