// The kept words by their index. Document 01, "Words", asks for one reader for each state, which hand the rest to each other. A word is a
// binary number, first letter highest. Each reader is told how many words it chooses from and tells the next: the table, a constant array,
// would be built anew at each letter. From (1,0) and from (1,1), the words of m letters and those of one letter less number 2^(m-1)
// together.
ghost use Rattle.std.specs.Prelude.{[], ◌≡◌, ◌≤◌, ◌<◌, length, get_or};
ghost use Rattle.pairs.specs.Words.{s10, s11, s01, words_from, as_number};

// The word at index i of the `count` words of m letters that lead from (1,0) to (1,0). Those that begin with 0 come first.
#[cycle(readers)]
pub(crate) fn from10(m: u32, i: u64, count: u64) -> u32
    requires m_bound { m ≤ 31 }
    requires count_value { count ≡ length (words_from s10 m) }
    requires i_lt_count { i < count }
    ensures { result ≡ as_number (get_or (words_from s10 m) i []) }
{
    if m == 0 {
        return 0;
    }
    let rest = m - 1;
    let ones = (1u64 << rest) - count;
    let zeros = count - ones;
    if i < zeros {
        return from01(rest, i, zeros);
    }
    (1u32 << rest) + from11(rest, i - zeros, ones)
}

// The same from (1,1).
#[cycle(readers)]
fn from11(m: u32, i: u64, count: u64) -> u32
    requires m_bound { m ≤ 31 }
    requires count_value { count ≡ length (words_from s11 m) }
    requires i_lt_count { i < count }
    ensures { result ≡ as_number (get_or (words_from s11 m) i []) }
{
    let rest = m - 1;
    let zeros = (1u64 << rest) - count;
    if i < zeros {
        return from11(rest, i, zeros);
    }
    (1u32 << rest) + from01(rest, i - zeros, count - zeros)
}

// The same from (0,1): either letter goes to (1,0), so that no branch is needed.
#[cycle(readers)]
fn from01(m: u32, i: u64, count: u64) -> u32
    requires m_bound { m ≤ 31 }
    requires count_value { count ≡ length (words_from s01 m) }
    requires i_lt_count { i < count }
    ensures { result ≡ as_number (get_or (words_from s01 m) i []) }
{
    let rest = m - 1;
    let half = count / 2;
    let letter = (half <= i) as u32;
    (letter << rest) + from10(rest, i - half * letter as u64, half)
}
