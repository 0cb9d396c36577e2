// The number at a position of the file, as `read_number` gives it, with the few bytes that a number of a trial has read here: no call then
// stands between one number and the next.
ghost use Rattle.leb128.specs.Number.{number};
ghost use Rattle.leb128.specs.Reading.{Reads};

use leb128::read_number;
use reply::Refusal;

// One byte is read here: no field but a level accepts a number that takes more.
pub(crate) fn read_small(file: &[u8], at: usize) -> Result<(u64, usize), Refusal>
    ensures { Reads number file.now at result }
{
    if file.len() <= at {
        return Err(Refusal::FileEnds);
    }
    let byte = u64::from(file[at]);
    if byte < 128 {
        return Ok((byte, at + 1));
    }
    read_number(file, at)
}

// Three bytes are read here, the most that an accepted level takes.
pub(crate) fn read_level(file: &[u8], at: usize) -> Result<(u64, usize), Refusal>
    ensures { Reads number file.now at result }
{
    if file.len() <= at {
        return Err(Refusal::FileEnds);
    }
    let first = u64::from(file[at]);
    if first < 128 {
        return Ok((first, at + 1));
    }
    if file.len() <= at + 1 {
        return Err(Refusal::FileEnds);
    }
    let second = u64::from(file[at + 1]);
    if second == 0 {
        return Err(Refusal::NumberForm);
    }
    if second < 128 {
        return Ok((first % 128 + 128 * second, at + 2));
    }
    if file.len() <= at + 2 {
        return Err(Refusal::FileEnds);
    }
    let third = u64::from(file[at + 2]);
    if third == 0 {
        return Err(Refusal::NumberForm);
    }
    if third < 128 {
        return Ok((first % 128 + 128 * (second % 128 + 128 * third), at + 3));
    }
    read_number(file, at)
}
