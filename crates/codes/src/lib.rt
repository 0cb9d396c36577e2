// The codes of a degree that are coprime to one of them, and whether three codes are pairwise coprime.
#![tactic(auto)]

ghost use Rattle.std.specs.Prelude.{◌≡◌, [], ◌∷◌, eqb};
ghost use Rattle.reply.specs.Reply.{served, unless};
ghost use Rattle.poly.specs.Causes.{common_factors};
ghost use Rattle.poly.specs.Coprime.{gcd};
ghost use Rattle.poly.specs.Replies.{checked_reply};
ghost use Rattle.codes.specs.Codes.{coprimes_of};
ghost use Rattle.codes.specs.Inner.{InTable, coprime_reply};
ghost use Rattle.codes.specs.Replies.{check_three_reply};

use poly::Degree;
use reply::Refusal;

// Whether three codes may stand at degree n, 2 to 6, as pairwise coprime ones.
pub fn check_three(n: u32, f: u32, g: u32, h: u32) -> Result<(), Refusal>
    ensures { checked_reply result ≡ check_three_reply n f g h }
{
    if (Degree { n }).outside_sheets() {
        return Err(Refusal::SheetDegree);
    }
    poly::check_pair(n, f, g)?;
    poly::check(n, h)?;
    if !pairwise_coprime(n, f, g, h) {
        return Err(Refusal::CommonFactor);
    }
    Ok(())
}

// Whether three codes are pairwise coprime.
fn pairwise_coprime(n: u32, f: u32, g: u32, h: u32) -> bool
    requires { InTable n f × InTable n g × InTable n h }
    ensures { coprime_reply result ≡ unless (common_factors (f ∷ g ∷ h ∷ [])) (served []) }
{
    coprime(n, f, g) && coprime(n, f, h) && coprime(n, g, h)
}

// Whether two codes are coprime: a bit of the table, which spares Euclid's algorithm.
fn coprime(n: u32, f: u32, g: u32) -> bool
    requires { InTable n f × InTable n g }
    ensures { result ≡ eqb (gcd 2 f g) 1 }
{
    let least = 1 << (n - 1);
    (coprimes(f / 2) >> (g / 2 - least)) % 2 == 1
}

// The set of the odd codes of its degree that are coprime to 2·half + 1: bit k tells of the one at index k, counted from 0. 0 outside the
// table. The cases compile to one load, where a constant array would be laid on the stack at each reading.
#[tactic(auto, using(crate::proofs::Table::told), unfolding(crate::proofs::Rows::rows))]
pub fn coprimes(half: u32) -> u32
    ensures { result ≡ coprimes_of half }
{
    match half {
        1 => 0,
        2 => 2,
        3 => 1,
        4 => 6,
        5 => 13,
        6 => 11,
        7 => 6,
        8 => 150,
        9 => 253,
        10 => 219,
        11 => 150,
        12 => 239,
        13 => 146,
        14 => 150,
        15 => 127,
        16 => 27030,
        17 => 28349,
        18 => 65531,
        19 => 26774,
        20 => 65519,
        21 => 27030,
        22 => 26772,
        23 => 65407,
        24 => 32437,
        25 => 27030,
        26 => 27030,
        27 => 63487,
        28 => 27028,
        29 => 57343,
        30 => 49151,
        31 => 26772,
        32 => 2252941590,
        33 => 4294967293,
        34 => 2146434555,
        35 => 2523490710,
        36 => 4294967279,
        37 => 376006806,
        38 => 2523490710,
        39 => 2816195966,
        40 => 2147221215,
        41 => 105457938,
        42 => 2523490710,
        43 => 4294965247,
        44 => 2523490710,
        45 => 4294959103,
        46 => 3889806718,
        47 => 2255055254,
        48 => 4294901759,
        49 => 2523474326,
        50 => 105457686,
        51 => 4294443007,
        52 => 376007058,
        53 => 3889937790,
        54 => 4290772991,
        55 => 2523490710,
        56 => 2523490710,
        57 => 4261412863,
        58 => 4227858431,
        59 => 2252941590,
        60 => 3889905022,
        61 => 2523490710,
        62 => 2523490582,
        63 => 2146172123,
        _ => 0,
    }
}
