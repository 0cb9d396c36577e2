// A number written to lent memory.
ghost use Rattle.std.specs.Prelude.{◌≡◌, ◌+◌, ◌≤◌, leb, length};
ghost use Rattle.leb128.specs.Number.{encode_number};
ghost use Rattle.leb128.specs.Writing.{Puts, PutsFitting};

// How many bytes a number takes. Most numbers are small, and end at one of the first tests.
pub fn width(value: u64) -> usize
    ensures { (result ≡ length (encode_number value)) × (result ≤ 10) }
{
    if value < 128 {
        return 1;
    }
    if value < 16384 {
        return 2;
    }
    if value < 2097152 {
        return 3;
    }
    if value < 268435456 {
        return 4;
    }
    if value < 34359738368 {
        return 5;
    }
    if value < 4398046511104 {
        return 6;
    }
    if value < 562949953421312 {
        return 7;
    }
    if value < 72057594037927936 {
        return 8;
    }
    if value < 9223372036854775808 {
        return 9;
    }
    10
}

// Whether a number fits at a position of a slice with this room. Far from the end its width does not matter.
fn fits(room: usize, at: usize, value: u64) -> bool
    ensures { result ≡ leb (at + length (encode_number value)) room }
{
    if room < at {
        return false;
    }
    let left = room - at;
    10 <= left || width(value) <= left
}

// Puts a number at a position of `out`, and gives the position behind it. Where it does not fit, nothing is put.
pub fn put_number(out: &mut [u8], at: usize, value: u64) -> usize
    ensures { PutsFitting out.old at (encode_number value) result out.new }
{
    if fits(out.len(), at, value) {
        return put_groups(out, at, value);
    }
    at
}

// The same where it fits. The loop ends with the value: how many groups there are is what it finds.
fn put_groups(out: &mut [u8], at: usize, value: u64) -> usize
    requires { at + length (encode_number value) ≤ length out.old }
    ensures { Puts out.old at (encode_number value) result out.new }
{
    let mut next = at;
    let mut left = value;
    while 128 <= left {
        out[next] = (left % 128 + 128) as u8;
        next += 1;
        left /= 128;
    }
    out[next] = left as u8;
    next + 1
}
