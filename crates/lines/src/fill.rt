// Fills lent bytes with the lines of a degree's list.
ghost use Rattle.std.specs.Prelude.{◌/◌, ◌^◌, ◌≤◌, ◌<◌, [], ◌∷◌, length};
ghost use Rattle.lines.specs.Text.{line};
ghost use Rattle.lines.specs.Filling.{Fills};
ghost use Rattle.lines.specs.Inner.{Adds, AddsLine, block_lines, lines_from};

use crate::text::{copy, pair_line, put_pair};
use pairs::Pair;

// How many bytes were filled, and the position behind the last line put.
#[derive(Clone, Copy)]
pub struct Filling {
    pub used: usize,
    pub next: u64,
}

// Puts the lines from a position on at the front of `out`, as many whole lines as there are and as fit.
pub fn fill_lines(n: u32, position: u64, out: &mut [u8]) -> Filling
    ensures { Fills n position out.old result.used result.next out.new }
{
    let mut filling = Filling {
        used: 0,
        next: position,
    };
    loop {
        let block = add_block(n, filling, out);
        // Fewer lines than positions: the list or the room is at its end.
        if block.next - filling.next < 256 {
            return block;
        }
        filling = block;
    }
}

// The same behind what is filled already, for at most 256 positions.
fn add_block(n: u32, before: Filling, out: &mut [u8]) -> Filling
    requires { before.used ≤ length out.old }
    ensures { Adds (block_lines n before.next) before.next out.old before.used result.used result.next out.new }
{
    let mut codes = [0u32; 512];
    match listing::pairs_from(n, before.next, &mut codes) {
        Ok(many) => add_lines(before, &codes[..2 * many], out),
        Err(_) => before,
    }
}

// The same from the codes of the pairs there. Where `pairs_from` gave them, each line is that of its pair's own position (the law
// `block_lines_lem`).
fn add_lines(before: Filling, codes: &[u32], out: &mut [u8]) -> Filling
    requires { (before.next < 2 ^ 63) × (length codes.now ≤ 512) × (before.used ≤ length out.old) }
    ensures { Adds (lines_from before.next (length codes.now / 2) codes.now) before.next out.old before.used result.used result.next out.new }
{
    let mut filling = before;
    // By the index, since f and g stand in turn, as the C interface lends them.
    for i in 0..codes.len() / 2 {
        let pair = Pair {
            f: codes[2 * i],
            g: codes[2 * i + 1],
        };
        let used = add_line(filling.next, pair, out, filling.used);
        if used == filling.used {
            return filling;
        }
        filling = Filling {
            used,
            next: filling.next + 1,
        };
    }
    filling
}

// The line of a pair behind the `used` bytes, where it fits. With room for any line it is made in its place, else apart.
fn add_line(position: u64, pair: Pair, out: &mut [u8], used: usize) -> usize
    requires { used ≤ length out.old }
    ensures { AddsLine (line (position ∷ pair.f ∷ pair.g ∷ [])) out.old used result out.new }
{
    if 63 <= out.len() - used {
        return put_pair(position, pair, out, used);
    }
    let mut text = [0u8; 64];
    let size = pair_line(position, pair, &mut text);
    if out.len() - used < size {
        return used;
    }
    copy(&text[..size], out, used)
}
