// Checksums of whole lists, of second lists, of lists of triples and of chains' lengths, and positions found back.
use crate::sum::Sum;
use pairs::Pair;
use poly::Degree;
use reply::Refusal;
use std::iter::once;

// The last position of the list of degree 31.
const LAST: u64 = 768614336404564649;

pub fn length(n: u32) -> u64 {
    (Degree { n }).list_length().unwrap_or(0)
}

fn pair(sum: &mut Sum, answer: Result<Pair, Refusal>) {
    sum.add_answer(answer, |sum, pair| sum.add_pair(pair));
}

pub fn list_sum(n: u32) -> Sum {
    let mut sum = Sum::new();
    for position in 0..length(n) {
        pair(&mut sum, pairs::pair_at(n, position));
    }
    sum
}

// The second list, and the refusal behind its end.
pub fn unordered_sum(n: u32) -> Sum {
    let mut sum = Sum::new();
    for entry in 0..=length(n) / 2 {
        pair(&mut sum, unordered::pair_at(n, entry));
    }
    sum
}

// The last entry of degree 31, the one behind it, and two whose double does not fit 64 bits; degree 1, which has no entries; degrees 0 and
// 32, which are refused.
const ENDS: [(u32, u64); 7] = [
    (31, LAST / 2),
    (31, LAST / 2 + 1),
    (31, 9223372036854775808),
    (31, u64::MAX),
    (1, 0),
    (0, 0),
    (32, u64::MAX),
];

pub fn unordered_ends_sum() -> Sum {
    let mut sum = Sum::new();
    for (n, entry) in ENDS {
        pair(&mut sum, unordered::pair_at(n, entry));
    }
    sum
}

fn triple(sum: &mut Sum, n: u32, position: u64) {
    sum.add_next(
        triples::triple_at(n, position),
        |sum, triple| sum.add_triple(triple),
    );
}

// The list of triples, what is said from its end up to position 11600, which is behind the longest, and at 2^32 and 2^64 - 1.
pub fn triple_sum(n: u32) -> Sum {
    let mut sum = Sum::new();
    for position in 0..11600 {
        triple(&mut sum, n, position);
    }
    triple(&mut sum, n, 4294967296);
    triple(&mut sum, n, u64::MAX);
    sum
}

// Whether the pair at the position is found there again.
fn is_found(n: u32, position: u64) -> bool {
    let Ok(pair) = pairs::pair_at(n, position) else {
        return false;
    };
    positions::position_of(n, pair.f, pair.g) == Ok(position)
}

pub fn found_back(n: u32) -> usize {
    (0..length(n))
        .filter(|position| is_found(n, *position))
        .count()
}

// How many quotients the chain call counts.
fn quotients(n: u32, pair: Pair) -> usize {
    let mut chain = [0u32; 32];
    euclid::quotients(n, pair.f, pair.g, &mut chain).map_or(0, |chain| chain.count)
}

pub fn chain_lengths_sum(n: u32) -> Sum {
    let mut sum = Sum::new();
    for position in 0..length(n) {
        let answer = pairs::pair_at(n, position);
        sum.add_answer(answer, |sum, pair| sum.add(quotients(n, pair) as u64));
    }
    sum
}

// The i-th of a hundred positions spread over the list of degree 31.
fn spread(i: u64) -> u64 {
    (LAST + 1) / 100 * (i % 100) + i % 100
}

// Their pairs, the last pair, and the position behind it.
pub fn spread_sum() -> Sum {
    let mut sum = Sum::new();
    for i in 0..100 {
        pair(&mut sum, pairs::pair_at(31, spread(i)));
    }
    pair(&mut sum, pairs::pair_at(31, LAST));
    pair(&mut sum, pairs::pair_at(31, LAST + 1));
    sum
}

// How many of the hundred and the last are found back.
pub fn spread_found() -> usize {
    (0..100u64)
        .map(spread)
        .chain(once(LAST))
        .filter(|position| is_found(31, *position))
        .count()
}
