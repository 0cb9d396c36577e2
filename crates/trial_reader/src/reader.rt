// The reader. It reads the levels into arrays of its own while it decides, and copies them only from an accepted file: each level is
// decoded once, and a refusal leaves the lent slices as they were.
ghost use Rattle.std.specs.Prelude.{◌≡◌, ◌^◌, ◌≤◌, length};
ghost use Rattle.trial.specs.Rules.{today};
ghost use Rattle.trial.specs.Trial.{parse_body, parse};
ghost use Rattle.trial_reader.specs.Inner.{head_of, thirds, Surveys, content_from};
ghost use Rattle.trial_reader.specs.Answers.{ReadDone, name_part, Opens};

use crate::fields::{Head, read_head};
use crate::lists::{Levels, copy_levels, read_lists};
use crate::names::read_name;
use poly::Degree;
use reply::Refusal;

// An accepted file but for its levels: its head, how many levels a list has, and where the name is.
#[derive(Clone, Copy)]
struct Layout {
    pub head: Head,
    pub count: usize,
    pub name_at: usize,
    pub size: usize,
}

// The whole decision on a file, with the levels of an accepted one at the front of their arrays.
fn survey(file: &[u8], levels: &mut Levels) -> Result<Layout, Refusal>
    ensures { Surveys parse file.now 0 result levels.new.powers levels.new.forces levels.new.times }
{
    let (head, at) = read_head(file)?;
    let order = (Degree { n: head.degree }).order()?;
    survey_body(file, head, order as usize, at, levels)
}

// The same behind the head, with so many levels to a list.
fn survey_body(
    file: &[u8],
    head: Head,
    count: usize,
    at: usize,
    levels: &mut Levels,
) -> Result<Layout, Refusal>
    requires { (count ≡ 2 ^ head.degree) × (count ≤ 64) × (at ≤ length file.now) }
    ensures { Surveys (parse_body today (head_of head)) file.now at result
        levels.new.powers levels.new.forces levels.new.times }
{
    let at = read_lists(file, at, head, count, levels)?;
    let name = read_name(file, at)?;
    Ok(Layout {
        head,
        count,
        name_at: name.start,
        size: name.size,
    })
}

// The content of a file but for its levels: the degree, the codes, where the name is in the file, and the version. In version 1 h is 0.
#[derive(Clone, Copy)]
pub struct Content {
    pub degree: u32,
    pub f: u32,
    pub g: u32,
    pub name_at: usize,
    pub size: usize,
    pub version: u32,
    pub h: u32,
}

// How many levels the third list has.
fn times_count(h: Option<u32>, count: usize) -> usize
    ensures { result ≡ thirds h count }
{
    match h {
        None => 0,
        Some(_) => count,
    }
}

// Reads a file, with its levels into the slices; version 1 leaves the third as it is.
pub fn read(
    file: &[u8],
    powers: &mut [u16],
    forces: &mut [u16],
    times: &mut [u16],
) -> Result<Content, Refusal>
    ensures { ReadDone file.now powers.old forces.old times.old result
        powers.new forces.new times.new }
{
    if powers.len() < 64 || forces.len() < 64 || times.len() < 64 {
        return Err(Refusal::SliceLength);
    }
    let mut levels = Levels {
        powers: [0; 64],
        forces: [0; 64],
        times: [0; 64],
    };
    let layout = survey(file, &mut levels)?;
    copy_levels(&levels.powers, layout.count, powers);
    copy_levels(&levels.forces, layout.count, forces);
    copy_levels(
        &levels.times,
        times_count(layout.head.h, layout.count),
        times,
    );
    Ok(content_of(layout))
}

// What the reader gives of an accepted file beside the levels.
fn content_of(layout: Layout) -> Content
    ensures { result ≡ content_from layout }
{
    let head = layout.head;
    let (version, h) = match head.h {
        None => (1, 0),
        Some(h) => (2, h),
    };
    Content {
        degree: head.degree,
        f: head.f,
        g: head.g,
        name_at: layout.name_at,
        size: layout.size,
        version,
        h,
    }
}

// The part of a file that holds the name, where the reader's answer says; empty where the file was refused.
pub fn name_part<'a>(file: &'a [u8], answer: Result<Content, Refusal>) -> &'a [u8]
    ensures { result.now ≡ name_part file.now answer }
{
    let Ok(content) = answer else {
        return &file[..0];
    };
    let rest = &file[content.name_at.min(file.len())..];
    &rest[..content.size.min(rest.len())]
}

// What became of a file: the answer, and the name as the part of the file that holds it, empty where the file was refused.
#[derive(Clone, Copy)]
pub struct Trial<'a> {
    pub answer: Result<Content, Refusal>,
    pub name: &'a [u8],
}

// Reads a file, with its levels into the slices and its name as a part of the file.
pub fn open<'a>(
    file: &'a [u8],
    powers: &mut [u16],
    forces: &mut [u16],
    times: &mut [u16],
) -> Trial<'a>
    ensures { Opens file.now powers.old forces.old times.old result
        powers.new forces.new times.new }
{
    let answer = read(file, powers, forces, times);
    let name = name_part(file, answer);
    Trial { answer, name }
}
