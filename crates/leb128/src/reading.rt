// A number read from a file.
ghost use Rattle.std.specs.Prelude.{◌≡◌, ◌+◌, ◌≤◌, ◌<◌, min, length};
ghost use Rattle.leb128.specs.Number.{number};
ghost use Rattle.leb128.specs.Reading.{Reads};
ghost use Rattle.leb128.specs.Inner.{parse_more};

use reply::Refusal;

// The number at a position of the file, with the position behind it. A file goes with a position, and not as what is left of it, since the
// reader of trials answers where in the file the name is.
pub fn read_number(file: &[u8], at: usize) -> Result<(u64, usize), Refusal>
    ensures { Reads number file.now at result }
{
    if file.len() <= at {
        return Err(Refusal::FileEnds);
    }
    let byte = u64::from(file[at]);
    if byte < 128 {
        return Ok((byte, at + 1));
    }
    read_more(file, at + 1, byte % 128)
}

// The end of a number's ninth byte, if its second is at this position; or the file's end, where that comes first.
fn ninth_end(file: &[u8], at: usize) -> usize
    requires { at ≤ length file.now }
    ensures { result ≡ min (length file.now) (at + 8) }
{
    at + (file.len() - at).min(8)
}

// The number from behind its first byte on, which has the high bit set and the group `low`. The tenth byte stands apart: of its group only
// the lowest bit fits in 64 bits, and a last byte 0 is needless, so that the byte must be 1.
fn read_more(file: &[u8], at: usize, low: u64) -> Result<(u64, usize), Refusal>
    requires { (low < 128) × (at ≤ length file.now) }
    ensures { Reads (parse_more low) file.now at result }
{
    let end = ninth_end(file, at);
    let mut value = low;
    let mut unit: u64 = 128;
    for next in at..end {
        let byte = u64::from(file[next]);
        if byte < 128 {
            if byte == 0 {
                return Err(Refusal::NumberForm);
            }
            return Ok((value + unit * byte, next + 1));
        }
        value += unit * (byte % 128);
        unit *= 128;
    }
    if file.len() <= end {
        return Err(Refusal::FileEnds);
    }
    if file[end] != 1 {
        return Err(Refusal::NumberForm);
    }
    Ok((value + unit, end + 1))
}
