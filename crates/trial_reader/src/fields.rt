// The fields in front of the levels, and the size of the name: each a number with its own rule, width and refusal, so that a function for
// each is plainer than one that takes all three.
ghost use Rattle.std.specs.Prelude.{false, [], ◌∷◌, ◌≡◌, ◌≤◌, length};
ghost use Rattle.reply.specs.Reply.{served, unless};
ghost use Rattle.poly.specs.Limits.{outside};
ghost use Rattle.poly.specs.Causes.{sheet_degree_cause, code_causes, own_causes};
ghost use Rattle.trial.specs.Rules.{today};
ghost use Rattle.leb128.specs.Number.{limits64, field};
ghost use Rattle.leb128.specs.Reading.{Reads};
ghost use Rattle.trial.specs.Trial.{version_causes, degree_causes, size_causes, parse_coprime, parse_head};
ghost use Rattle.trial_reader.specs.Inner.{coprime_head, third_code, HeadRead};

use crate::short::read_small;
use codes::check_three;
use euclid::gcd;
use poly::{Degree, check};
use reply::Refusal;

fn version_field(file: &[u8], at: usize) -> Result<(u32, usize), Refusal>
    ensures { Reads (field limits64 (version_causes today)) file.now at result }
{
    let (version, next) = read_small(file, at)?;
    if !(1..=2).contains(&version) {
        return Err(Refusal::Version);
    }
    Ok((version as u32, next))
}

fn degree_field(file: &[u8], at: usize) -> Result<(u32, usize), Refusal>
    ensures { Reads (field limits64 degree_causes) file.now at result }
{
    let (n, next) = read_small(file, at)?;
    let Ok(n) = u32::try_from(n) else {
        return Err(Refusal::SheetDegree);
    };
    if (Degree { n }).outside_sheets() {
        return Err(Refusal::SheetDegree);
    }
    Ok((n, next))
}

// A number of more than 32 bits is a code of a higher degree.
fn code_field(file: &[u8], at: usize, n: u32) -> Result<(u32, usize), Refusal>
    requires { n ≤ 31 }
    ensures { Reads (field limits64 (code_causes n)) file.now at result }
{
    let (code, next) = read_small(file, at)?;
    let Ok(code) = u32::try_from(code) else {
        return Err(Refusal::CodeDegree);
    };
    check(n, code)?;
    Ok((code, next))
}

pub(crate) fn size_field(file: &[u8], at: usize) -> Result<(usize, usize), Refusal>
    ensures { Reads (field limits64 size_causes) file.now at result }
{
    let (size, next) = read_small(file, at)?;
    if 40 < size {
        return Err(Refusal::NameLength);
    }
    Ok((size as usize, next))
}

// A version is known by what it has: version 2 has a third code, h.
#[derive(Clone, Copy)]
pub(crate) struct Head {
    pub degree: u32,
    pub f: u32,
    pub g: u32,
    pub h: Option<u32>,
}

// The fields in front of the levels, with the position behind them.
pub(crate) fn read_head(file: &[u8]) -> Result<(Head, usize), Refusal>
    ensures { HeadRead (parse_head today) file.now 0 result }
{
    let (version, at) = version_field(file, 0)?;
    let (degree, at) = degree_field(file, at)?;
    read_codes(file, at, version, degree)
}

// The codes, behind the version and the degree. Behind them a head shows its version by its third code; the fields come one by one, as the
// file has them.
fn read_codes(file: &[u8], at: usize, version: u32, degree: u32) -> Result<(Head, usize), Refusal>
    requires { (1 ≤ version) × (version ≤ 2) × (outside 2 6 degree ≡ false) }
    ensures { HeadRead (parse_coprime today version degree) file.now at result }
{
    let (f, at) = code_field(file, at, degree)?;
    let (g, at) = code_field(file, at, degree)?;
    if version == 1 {
        return two_codes(file, at, degree, f, g);
    }
    three_codes(file, at, degree, f, g)
}

// The head of version 1, where its codes are coprime; `at` is the position behind them.
fn two_codes(file: &[u8], at: usize, degree: u32, f: u32, g: u32) -> Result<(Head, usize), Refusal>
    requires { at ≤ length file.now }
    ensures { HeadRead (coprime_head 1 degree (f ∷ g ∷ [])) file.now at result }
{
    if gcd(f, g) != 1 {
        return Err(Refusal::CommonFactor);
    }
    let head = Head {
        degree,
        f,
        g,
        h: None,
    };
    Ok((head, at))
}

// The third code, and the head of version 2, where its codes are pairwise coprime. The test has no other number left than 8: each code and
// the degree have passed before.
fn three_codes(
    file: &[u8],
    at: usize,
    degree: u32,
    f: u32,
    g: u32,
) -> Result<(Head, usize), Refusal>
    requires { served [] ≡ unless (sheet_degree_cause degree ∷ own_causes degree (f ∷ g ∷ [])) (served []) }
    ensures { HeadRead (third_code degree f g) file.now at result }
{
    let (h, at) = code_field(file, at, degree)?;
    check_three(degree, f, g, h)?;
    let head = Head {
        degree,
        f,
        g,
        h: Some(h),
    };
    Ok((head, at))
}
