// Lists of levels.
ghost use Rattle.std.specs.Prelude.{◌≡◌, ◌+◌, ◌≤◌, length};
ghost use Rattle.leb128.specs.Number.{encode_number, encode_numbers};
ghost use Rattle.leb128.specs.Writing.{Puts};
ghost use Rattle.trial.specs.Trial.{encode_lists};
ghost use Rattle.trial_writer.specs.Inner.{lists_of};

use crate::content::Content;
use leb128::width;

// How many bytes the levels take.
pub(crate) fn levels_width(levels: &[u16]) -> usize
    requires { length levels.now ≤ 64 }
    ensures { (result ≡ length (encode_numbers levels.now)) × (result ≤ 640) }
{
    let mut total: usize = 0;
    for level in levels {
        total += width(u64::from(*level));
    }
    total
}

// Puts a level at a position of `out`, and gives the position behind it. It takes three bytes at most, so that no loop is needed.
fn put_level(out: &mut [u8], at: usize, level: u16) -> usize
    requires { at + length (encode_number level) ≤ length out.old }
    ensures { Puts out.old at (encode_number level) result out.new }
{
    if level < 128 {
        out[at] = level as u8;
        return at + 1;
    }
    out[at] = (level % 128 + 128) as u8;
    if level < 16384 {
        out[at + 1] = (level / 128) as u8;
        return at + 2;
    }
    out[at + 1] = (level / 128 % 128 + 128) as u8;
    out[at + 2] = (level / 16384) as u8;
    at + 3
}

// Puts the levels at a position of `out`, and gives the position behind them. Not inlined: with three copies of the loop in one function no
// register is left for the third list, and a file of version 2 takes a twelfth longer.
#[inline(never)]
pub(crate) fn put_levels(out: &mut [u8], at: usize, levels: &[u16]) -> usize
    requires { at + length (encode_numbers levels.now) ≤ length out.old }
    ensures { Puts out.old at (encode_numbers levels.now) result out.new }
{
    let mut next = at;
    for level in levels {
        next = put_level(out, next, *level);
    }
    next
}

// Puts the lists, one after the other, and gives the position behind them.
pub(crate) fn put_lists(out: &mut [u8], at: usize, content: &Content<'_>) -> usize
    requires { at + length (encode_lists (lists_of content.now)) ≤ length out.old }
    ensures { Puts out.old at (encode_lists (lists_of content.now)) result out.new }
{
    let at = put_levels(out, at, content.powers);
    let at = put_levels(out, at, content.forces);
    let Some(third) = content.third else {
        return at;
    };
    put_levels(out, at, third.times)
}
