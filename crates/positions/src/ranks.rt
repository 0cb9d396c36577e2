// The index of a kept word. Document 01, "Words", asks for one reader for each state, each of which hands the rest of the word to the next.
// Each is told how many words of m letters lead from its state to (1,0), and tells the next, as the readers by index do.
ghost use Rattle.std.specs.Prelude.{◌≡◌, true, ◌<◌, length};
ghost use Rattle.pairs.specs.Words.{s10, s11, s01, leads, words_from};
ghost use Rattle.positions.specs.Ranking.{StandsAt, last_letters};

// The word is the last m binary digits of x. From (1,0): 0 goes to (0,1), 1 to (1,1).
#[cycle(ranks)]
pub(crate) fn rank10(m: usize, x: u32, count: u64) -> u64
    requires short { m < 32 }
    requires all { count ≡ length (words_from s10 m) }
    requires word { leads s10 (last_letters m x) ≡ true }
    ensures { StandsAt (words_from s10 m) result (last_letters m x) }
{
    if m == 0 {
        return 0;
    }
    let rest = m - 1;
    let ones = (1u64 << rest) - count;
    let zeros = count - ones;
    if (x >> rest) % 2 == 0 {
        return rank01(rest, x, zeros);
    }
    zeros + rank11(rest, x, ones)
}

// From (1,1): 0 stays, 1 goes to (0,1).
#[cycle(ranks)]
fn rank11(m: usize, x: u32, count: u64) -> u64
    requires short { m < 32 }
    requires all { count ≡ length (words_from s11 m) }
    requires word { leads s11 (last_letters m x) ≡ true }
    ensures { StandsAt (words_from s11 m) result (last_letters m x) }
{
    let rest = m - 1;
    let zeros = (1u64 << rest) - count;
    if (x >> rest) % 2 == 0 {
        return rank11(rest, x, zeros);
    }
    zeros + rank01(rest, x, count - zeros)
}

// From (0,1): either letter goes to (1,0).
#[cycle(ranks)]
fn rank01(m: usize, x: u32, count: u64) -> u64
    requires short { m < 32 }
    requires all { count ≡ length (words_from s01 m) }
    requires word { leads s01 (last_letters m x) ≡ true }
    ensures { StandsAt (words_from s01 m) result (last_letters m x) }
{
    let rest = m - 1;
    let half = count / 2;
    if (x >> rest) % 2 == 0 {
        return rank10(rest, x, half);
    }
    half + rank10(rest, x, half)
}
