// Division without remainder, as a multiplication. The numbers of compositions are made from each other by such divisions, one for each
// gap, and a division takes several times as long.
ghost use Rattle.std.specs.Prelude.{◌≡◌, ◌+◌, ◌*◌, ◌/◌, ◌^◌};

// x / d, where d divides x and is not 0: the law `share_exact`.
pub fn share(x: u32, d: u32) -> u32
    ensures { result ≡ x * (2 ^ 32 / d + 1) / 2 ^ 32 }
{
    ((u64::from(x) * reciprocal(d)) >> 32) as u32
}

// The least whole number above 2^32 / d. Of the cases the compiler makes a table, where an array would be laid on the stack at each call;
// no list has more than 30 gaps. With 0 among them the division needs no test, which would cost the table; 2^32 / 0 is 0 in the contract.
fn reciprocal(d: u32) -> u64
    ensures { result ≡ 2 ^ 32 / d + 1 }
{
    match d {
        0 => 1,
        1 => 4294967297,
        2 => 2147483649,
        3 => 1431655766,
        4 => 1073741825,
        5 => 858993460,
        6 => 715827883,
        7 => 613566757,
        8 => 536870913,
        9 => 477218589,
        10 => 429496730,
        11 => 390451573,
        12 => 357913942,
        13 => 330382100,
        14 => 306783379,
        15 => 286331154,
        16 => 268435457,
        17 => 252645136,
        18 => 238609295,
        19 => 226050911,
        20 => 214748365,
        21 => 204522253,
        22 => 195225787,
        23 => 186737709,
        24 => 178956971,
        25 => 171798692,
        26 => 165191050,
        27 => 159072863,
        28 => 153391690,
        29 => 148102321,
        30 => 143165577,
        _ => 4294967296 / u64::from(d) + 1,
    }
}
