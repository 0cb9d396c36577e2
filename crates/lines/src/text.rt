// The lines that the list program prints.
ghost use Rattle.std.specs.Prelude.{[], ◌∷◌, ◌++◌, ◌+◌, ◌≤◌, length};
ghost use Rattle.reply.specs.Numbers.{number_of};
ghost use Rattle.lines.specs.Text.{decimal, line, Placed, Lined, refused_text};

use pairs::Pair;
use reply::Refusal;

// The first line, degree and the length of the list, at the front of `out`. It gives the line's length.
pub(crate) fn heading(degree: u32, count: u64, out: &mut [u8; 64]) -> usize
    ensures { Lined out.old (line (degree ∷ count ∷ [])) result out.new }
{
    let at = field(u64::from(degree), b' ', out, 0);
    field(count, b'\n', out, at)
}

// A line of position, f and g, likewise.
pub(crate) fn pair_line(position: u64, pair: Pair, out: &mut [u8; 64]) -> usize
    ensures { Lined out.old (line (position ∷ pair.f ∷ pair.g ∷ [])) result out.new }
{
    put_pair(position, pair, out, 0)
}

// The same at a position of any slice: a filling goes on where the line before ended, and says where that is.
pub(crate) fn put_pair(position: u64, pair: Pair, out: &mut [u8], at: usize) -> usize
    requires { at + 63 ≤ length out.old }
    ensures placed { Placed out.old at (line (position ∷ pair.f ∷ pair.g ∷ [])) result out.new }
    ensures upper_bound { result ≤ at + 63 }
{
    let next = field(position, b' ', out, at);
    let last = field(u64::from(pair.f), b' ', out, next);
    field(u64::from(pair.g), b'\n', out, last)
}

// The line of a refusal, likewise.
pub(crate) fn refusal_line(refusal: Refusal, out: &mut [u8; 64]) -> usize
    ensures { Lined out.old (refused_text ++ line (number_of refusal ∷ [])) result out.new }
{
    let at = copy(b"refused ", out, 0);
    field(u64::from(refusal.number()), b'\n', out, at)
}

// A number and the byte that ends it, at a position of `out`. A number has at most 20 digits.
fn field(n: u64, end: u8, out: &mut [u8], at: usize) -> usize
    requires { at + 21 ≤ length out.old }
    ensures placed { Placed out.old at (decimal n ++ (end ∷ [])) result out.new }
    ensures upper_bound { result ≤ at + 21 }
{
    let mut digits = itoa::Buffer::new();
    let next = copy(digits.format(n).as_bytes(), out, at);
    out[next] = end;
    next + 1
}

// Puts bytes at a position of `out`, and gives the position behind them.
#[tactic(auto, unfolding(crate::specs::Text::put))]
pub(crate) fn copy(bytes: &[u8], out: &mut [u8], at: usize) -> usize
    requires { at + length bytes.now ≤ length out.old }
    ensures { Placed out.old at bytes.now result out.new }
{
    let next = at + bytes.len();
    out[at..next].copy_from_slice(bytes);
    next
}
