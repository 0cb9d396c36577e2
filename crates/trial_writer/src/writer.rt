// The writer. It makes its whole decision before it puts a byte, so that a refusal leaves the slice as it was.
ghost use Rattle.std.specs.Prelude.{◌≡◌, [], ◌∷◌, ◌≤◌, length};
ghost use Rattle.leb128.specs.Writing.{Puts};
ghost use Rattle.trial.specs.Trial.{trial_from, encode_head, encode_body, encode};
ghost use Rattle.trial_writer.specs.Inner.{head_of, lists_of, trial_of, Short, BodyFits};
ghost use Rattle.trial_writer.specs.Answers.{WriteDone};

use crate::checks::check_content;
use crate::content::{Content, third_of};
use crate::lists::{levels_width, put_lists};
use crate::names::put_name;
use leb128::{put_number, width};
use reply::Refusal;

// How many bytes the encoding of a content takes. A version takes one.
fn encoded_size(content: &Content<'_>) -> usize
    requires { Short content.now }
    ensures { result ≡ length (encode (trial_of content.now)) }
{
    let head = 1
        + width(u64::from(content.degree))
        + width(u64::from(content.f))
        + width(u64::from(content.g));
    let lists = levels_width(content.powers) + levels_width(content.forces);
    let size = content.name.len();
    let shared = head + lists + width(size as u64) + size;
    let Some(third) = content.third else {
        return shared;
    };
    shared + width(u64::from(third.h)) + levels_width(third.times)
}

// Puts the fields in front of the levels at the front of `out`, and gives the position behind them.
fn put_head(out: &mut [u8], content: &Content<'_>) -> usize
    requires { length (encode_head (head_of content.now)) ≤ length out.old }
    ensures { Puts out.old 0 (encode_head (head_of content.now)) result out.new }
{
    let at = put_number(out, 0, content.version());
    let at = put_number(out, at, u64::from(content.degree));
    let at = put_number(out, at, u64::from(content.f));
    let at = put_number(out, at, u64::from(content.g));
    let Some(third) = content.third else {
        return at;
    };
    put_number(out, at, u64::from(third.h))
}

// Puts the lists and the name at a position of `out`, and gives the position behind them.
fn put_body(out: &mut [u8], at: usize, content: &Content<'_>) -> usize
    requires { BodyFits out.old at content.now }
    ensures { Puts out.old at (encode_body (lists_of content.now) content.now.name.now) result out.new }
{
    let at = put_lists(out, at, content);
    let at = put_number(out, at, content.name.len() as u64);
    put_name(out, at, content.name)
}

// Writes the file of a content to the front of `out`, and gives its length.
fn write_content(content: &Content<'_>, out: &mut [u8]) -> Result<usize, Refusal>
    ensures { WriteDone (trial_of content.now) out.old result out.new }
{
    check_content(content)?;
    if out.len() < encoded_size(content) {
        return Err(Refusal::SliceLength);
    }
    let at = put_head(out, content);
    Ok(put_body(out, at, content))
}

// Writes the file of a content, of version 1 or 2, to the front of `out`, and gives its length. In version 1 neither h nor times is looked
// at.
pub fn write(
    version: u32,
    degree: u32,
    f: u32,
    g: u32,
    h: u32,
    powers: &[u16],
    forces: &[u16],
    times: &[u16],
    name: &[u8],
    out: &mut [u8],
) -> Result<usize, Refusal>
    ensures { WriteDone (trial_from version degree (f ∷ g ∷ h ∷ [])
        (powers.now ∷ forces.now ∷ times.now ∷ []) name.now)
        out.old result out.new }
{
    let third = third_of(version, h, times)?;
    let content = Content {
        degree,
        f,
        g,
        powers,
        forces,
        third,
        name,
    };
    write_content(&content, out)
}
