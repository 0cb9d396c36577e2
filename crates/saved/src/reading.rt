// A walk read from a file.
ghost use Rattle.std.specs.Prelude.{◌≤◌, length, drop};
ghost use Rattle.walk.specs.Walks.{walk_at};
ghost use Rattle.saved.specs.Saved.{parse_last, load};
ghost use Rattle.saved.specs.Answers.{Loads};
ghost use Rattle.saved.specs.Inner.{EightRead};

use leb128::read_number;
use reply::Refusal;
use walk::{FULL_COUNT, Walk};

// What consoles stored before, degree and position; and what is saved today, which adds the marks and the counts.
const FIRST_KIND: u64 = 1;

const LAST_KIND: u64 = 2;

// Eight numbers at a position of the file, each refused as a count where it is above `most`; and the position behind them.
fn read_eight(file: &[u8], at: usize, most: u64) -> Result<([u64; 8], usize), Refusal>
    requires { at ≤ length file.now }
    ensures { EightRead most file.now at result }
{
    let mut numbers = [0u64; 8];
    let mut next = at;
    for number in numbers.iter_mut() {
        let (value, behind) = read_number(file, next)?;
        if most < value {
            return Err(Refusal::CountRange);
        }
        *number = value;
        next = behind;
    }
    Ok((numbers, next))
}

// The walk of these numbers with its next pair worked out, unless bytes stand behind them or the record is bad. They come one by one, as the
// file has them: the degree has 64 bits until here.
fn ended(
    file: &[u8],
    at: usize,
    degree: u64,
    position: u64,
    marks: [u64; 8],
    counts: [u64; 8],
) -> Result<Walk, Refusal>
    requires { at ≤ length file.now }
    ensures { Loads (parse_last (walk_at degree position marks counts)) (drop at file.now) result }
{
    if at < file.len() {
        return Err(Refusal::TrailingBytes);
    }
    let mut walk = Walk {
        // One that 32 bits do not hold becomes 0, which number 3 refuses as well.
        degree: u32::try_from(degree).unwrap_or(0),
        position,
        marks,
        counts,
        f: 0,
        g: 0,
    };
    walk.set_right()?;
    Ok(walk)
}

// Reads a saved walk, and works out its next pair.
pub fn load(file: &[u8]) -> Result<Walk, Refusal>
    ensures { Loads load file.now result }
{
    let (kind, at) = read_number(file, 0)?;
    if kind < FIRST_KIND || LAST_KIND < kind {
        return Err(Refusal::SavedKind);
    }
    let (degree, at) = read_number(file, at)?;
    let (position, at) = read_number(file, at)?;
    if kind == FIRST_KIND {
        return ended(file, at, degree, position, [0; 8], [0; 8]);
    }
    let (marks, at) = read_eight(file, at, u64::MAX)?;
    let (counts, at) = read_eight(file, at, FULL_COUNT)?;
    ended(file, at, degree, position, marks, counts)
}
