// The position of a pair. Euclid's chain gives the quotients, and these say where the pair stands in the list.
#![tactic(auto)]

mod ranks;

ghost use Rattle.std.specs.Prelude.{◌≡◌, cond, map, ◌-◌, ◌≤◌, ◌<◌, length};
ghost use Rattle.loops.specs.Loops.{numbers, each};
ghost use Rattle.poly.specs.Code.{degree};
ghost use Rattle.pairs.specs.Sequences.{compositions, block, sequences};
ghost use Rattle.positions.specs.Replies.{place_reply, position_reply};
ghost use Rattle.positions.specs.Ranking.{StandsAt, Among, backwards, Sequence, Parts};

use pairs::{Block, share, word_count};
use ranks::rank10;
use reply::Refusal;

// Where f and g, both of degree n and odd, stand in the list of degree n.
pub fn position_of(n: u32, f: u32, g: u32) -> Result<u64, Refusal>
    ensures { place_reply result ≡ position_reply n f g }
{
    let mut chain = [0u32; 32];
    let written = euclid::quotients(n, f, g, &mut chain)?;
    if written.divisor != 1 {
        return Err(Refusal::CommonFactor);
    }
    Ok(sequence_position(n, &chain, written.count - 1))
}

// The position of the k quotients behind the chain's leading 1, the last one first.
fn sequence_position(n: u32, chain: &[u32], k: usize) -> u64
    requires small { n < 32 }
    requires room { k < length chain.now }
    requires listed { Among (sequences n) (backwards chain.now k) }
    ensures { StandsAt (sequences n) result (backwards chain.now k) }
{
    let before = blocks_before(n, k);
    let composition = composition_rank(before.block, chain);
    let parts = bits_and_word(chain, k);
    let words = word_count(k);
    let word = rank10(k, parts.word, words);
    let place = ((composition as u64) << (n - k as u32)) + parts.bits as u64;
    before.size + place * words + word
}

#[derive(Clone, Copy)]
struct Before {
    size: u64,
    block: Block,
}

// How many sequences have fewer than k quotients, and the block of those that have k.
fn blocks_before(n: u32, k: usize) -> Before
    requires { (2 ≤ k) × (k ≤ n) × (n < 32) }
    ensures size { result.size ≡ length (each (numbers 2 (k - 2)) (block n)) }
    ensures degree { result.block.n ≡ n }
    ensures quotients { result.block.k ≡ k }
{
    let mut size: u64 = 0;
    let mut block = Block::first(n).unwrap();
    while (block.k as usize) < k {
        size += block.size();
        block = block.next().unwrap();
    }
    Before { size, block }
}

// The index of the degrees among the block's compositions. The walk goes over the gaps between n ones: a comma ends a degree, and before
// each plus stand the compositions with a comma in its place. A turn computes what either would leave and takes one of the two. The walk
// ends with the last comma, so it counts these and not the gaps, of which some may be left.
fn composition_rank(block: Block, chain: &[u32]) -> u32
    requires room { block.k < length chain.now }
    requires listed { Among (sequences block.n) (backwards chain.now block.k) }
    ensures { StandsAt (compositions block.n block.k) result (map (degree 2) (backwards chain.now block.k)) }
{
    let k = block.k as usize;
    let mut rank = 0;
    let mut left = block.n;
    let mut count = block.compositions;
    let mut commas = k - 1;
    let mut d = poly::degree_of(chain[k]);
    while 0 < commas {
        left -= 1;
        let with_comma = share(count * commas as u32, left);
        let next = poly::degree_of(chain[commas]);
        let plus = 1 < d;
        rank += either(plus, with_comma, 0);
        count = either(plus, count - with_comma, with_comma);
        d = either(plus, d - 1, next);
        commas -= either(plus, 0, 1) as usize;
    }
    rank
}

// One of two numbers, with no branch: nothing foretells the degrees.
fn either(first: bool, a: u32, b: u32) -> u32
    ensures { result ≡ cond first a b }
{
    if first { a } else { b }
}

#[derive(Clone, Copy)]
struct BitsAndWord {
    bits: u32,
    word: u32,
}

// The intermediate bits of the quotients as one number, and their constant terms as another.
fn bits_and_word(chain: &[u32], k: usize) -> BitsAndWord
    requires room { k < length chain.now }
    requires listed { Sequence (backwards chain.now k) }
    ensures { Parts (backwards chain.now k) result.bits result.word }
{
    let mut bits = 0;
    let mut word = 0;
    for place in (1..k + 1).rev() {
        let q = chain[place];
        let d = poly::degree_of(q);
        bits = (bits << (d - 1)) + (q - (1 << d)) / 2;
        word = 2 * word + q % 2;
    }
    BitsAndWord { bits, word }
}
