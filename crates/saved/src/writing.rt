// A walk written to lent memory.
ghost use Rattle.std.specs.Prelude.{◌≡◌, false, ◌+◌, ◌≤◌, leb, length};
ghost use Rattle.leb128.specs.Number.{encode_numbers};
ghost use Rattle.leb128.specs.Writing.{Puts};
ghost use Rattle.walk.specs.Walks.{bad_record};
ghost use Rattle.saved.specs.Saved.{encode_walk};
ghost use Rattle.saved.specs.Answers.{SaveDone};

use leb128::{put_number, width};
use reply::Refusal;
use walk::Walk;

// No file has more bytes.
const MOST_BYTES: usize = 155;

// How many bytes eight numbers take.
fn eight_width(numbers: &[u64; 8]) -> usize
    ensures { (result ≡ length (encode_numbers numbers.now)) × (result ≤ 80) }
{
    let mut total = 0;
    for number in numbers {
        total += width(*number);
    }
    total
}

// Puts eight numbers at a position of `out`, and gives the position behind them.
fn put_eight(out: &mut [u8], at: usize, numbers: &[u64; 8]) -> usize
    requires { at + length (encode_numbers numbers.now) ≤ length out.old }
    ensures { Puts out.old at (encode_numbers numbers.now) result out.new }
{
    let mut next = at;
    for number in numbers {
        next = put_number(out, next, *number);
    }
    next
}

// Whether a file of the walk has room in so many bytes. Where any has, its length need not be found.
fn has_room(walk: &Walk, room: usize) -> bool
    requires { bad_record walk.now ≡ false }
    ensures { result ≡ leb (length (encode_walk walk.now)) room }
{
    let marks = &walk.marks;
    let counts = &walk.counts;
    if MOST_BYTES <= room {
        return true;
    }
    let size = 1
        + width(u64::from(walk.degree))
        + width(walk.position)
        + eight_width(marks)
        + eight_width(counts);
    size <= room
}

// Puts a walk at the front of `out`, and gives the position behind it.
fn put_walk(out: &mut [u8], walk: &Walk) -> usize
    requires { length (encode_walk walk.now) ≤ length out.old }
    ensures { Puts out.old 0 (encode_walk walk.now) result out.new }
{
    let at = put_number(out, 0, 2);
    let at = put_number(out, at, u64::from(walk.degree));
    let at = put_number(out, at, walk.position);
    let at = put_eight(out, at, &walk.marks);
    put_eight(out, at, &walk.counts)
}

// Saves a walk at the front of `out`, and gives the length of the file. The next pair is not saved: reading works it out.
pub fn save(walk: &Walk, out: &mut [u8]) -> Result<usize, Refusal>
    ensures { SaveDone walk.now out.old result out.new }
{
    walk.checked()?;
    if !has_room(walk, out.len()) {
        return Err(Refusal::SliceLength);
    }
    Ok(put_walk(out, walk))
}
