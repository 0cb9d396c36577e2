// Lists of levels.
ghost use Rattle.std.specs.Prelude.{◌≡◌, ◌≤◌, length, take};
ghost use Rattle.reply.specs.Reply.{over};
ghost use Rattle.trial_reader.specs.Inner.{Decodes, ListRead, ListsRead};

use crate::fields::Head;
use crate::short::read_level;
use levels::distinct;
use reply::Refusal;

// How many levels were read, and the position behind all that were asked for or what the next one is refused for.
#[derive(Clone, Copy)]
struct Decoded {
    read: usize,
    behind: Result<usize, Refusal>,
}

// Reads so many levels at a position of the file to the front of `out`, whether or not they differ: they are compared afterwards, all at
// once, by the test that the writer uses too.
fn decode_levels(file: &[u8], at: usize, count: usize, out: &mut [u16]) -> Decoded
    requires { (at ≤ length file.now) × (count ≤ length out.old) }
    ensures { Decodes file.now at count result out.new }
{
    let mut next = at;
    for i in 0..count {
        match read_level(file, next) {
            Err(refusal) => {
                return Decoded {
                    read: i,
                    behind: Err(refusal),
                };
            }
            Ok((level, after)) => {
                if 65535 < level {
                    return Decoded {
                        read: i,
                        behind: Err(Refusal::LevelRange),
                    };
                }
                out[i] = level as u16;
                next = after;
            }
        }
    }
    Decoded {
        read: count,
        behind: Ok(next),
    }
}

// Reads so many levels at a position of the file to the front of `out`, and gives the position behind them; where they are refused, some
// may be there already. A level equal to an earlier one is refused before what stopped the reading, which stands behind it.
fn read_levels(file: &[u8], at: usize, count: usize, out: &mut [u16]) -> Result<usize, Refusal>
    requires { (at ≤ length file.now) × (count ≤ length out.old) }
    ensures { ListRead file.now at count result out.new }
{
    let decoded = decode_levels(file, at, count, out);
    if !distinct(&out[..decoded.read]) {
        return Err(Refusal::LevelRepeated);
    }
    decoded.behind
}

// Room for the levels of a file while it is read.
#[derive(Drop)]
pub(crate) struct Levels {
    pub powers: [u16; 64],
    pub forces: [u16; 64],
    pub times: [u16; 64],
}

// Reads the lists that the version has, each of so many levels, to the front of their arrays, and gives the position behind them.
pub(crate) fn read_lists(
    file: &[u8],
    at: usize,
    head: Head,
    count: usize,
    levels: &mut Levels,
) -> Result<usize, Refusal>
    requires { (at ≤ length file.now) × (count ≤ 64) }
    ensures { ListsRead file.now at head.h count result levels.new.powers levels.new.forces levels.new.times }
{
    let at = read_levels(file, at, count, &mut levels.powers)?;
    let at = read_levels(file, at, count, &mut levels.forces)?;
    if head.h.is_none() {
        return Ok(at);
    }
    read_levels(file, at, count, &mut levels.times)
}

// Copies so many levels to the front of `out`.
pub(crate) fn copy_levels(levels: &[u16], count: usize, out: &mut [u16])
    requires { (count ≤ length levels.now) × (count ≤ length out.old) }
    ensures { out.new ≡ over (take count levels.now) out.old }
{
    out[..count].copy_from_slice(&levels[..count]);
}
