// How many kept words there are.
ghost use Rattle.std.specs.Prelude.{◌≡◌};
ghost use Rattle.pairs.specs.Words.{tabled};

// Document 01's printed table: the number of kept words of k letters, (2^k + 2(-1)^k)/3, for k from 0 to 31.
const WORDS: [u32; 32] = [
    1, 0, 2, 2, 6, 10, 22, 42, 86, 170, 342, 682, 1366, 2730, 5462, 10922, 21846, 43690, 87382,
    174762, 349526, 699050, 1398102, 2796202, 5592406, 11184810, 22369622, 44739242, 89478486,
    178956970, 357913942, 715827882,
];

// The number in it for k letters, 0 past its end.
pub fn word_count(k: usize) -> u64
    ensures { result ≡ tabled k }
{
    if 32 <= k {
        return 0;
    }
    u64::from(WORDS[k])
}
