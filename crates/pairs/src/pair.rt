// The pair at a position, with no table of quotients.
ghost use Rattle.std.specs.Prelude.{[], ◌≡◌, ◌≤◌, ◌<◌, length, get_or};
ghost use Rattle.pairs.specs.Sequences.{block as block_of};
ghost use Rattle.pairs.specs.Pairs.{start, build, pairs};
ghost use Rattle.pairs.specs.Replies.{pair_of, found_reply, pair_at_reply};

use crate::block::Block;
use crate::division::share;
use crate::readers::from10;
use crate::table::word_count;
use poly::Degree;
use reply::Refusal;

// Two codes, f before g.
#[derive(Clone, Copy, Debug, PartialEq, Eq)]
pub struct Pair {
    pub f: u32,
    pub g: u32,
}

// The pair of degree n at a position of the list.
pub fn pair_at(n: u32, position: u64) -> Result<Pair, Refusal>
    ensures { found_reply result ≡ pair_at_reply n position }
{
    let length = (Degree { n }).list_length()?;
    if length <= position {
        return Err(Refusal::PositionRange);
    }
    Ok(seek(n, position))
}

// The same for a position of the list. The block is found by subtracting the sizes of those before it.
fn seek(n: u32, position: u64) -> Pair
    requires n_bound { n ≤ 31 }
    requires position_in_bounds { position < length (pairs n) }
    ensures { pair_of result ≡ get_or (pairs n) position start }
{
    let mut block = Block::first(n).unwrap();
    let mut place = position;
    while block.size() <= place {
        place -= block.size();
        block = block.next().unwrap();
    }
    pair_in(block, place)
}

// The pair at a place among those of k quotients. One pass over the n - 1 gaps between n ones: a plus in a gap gives the present quotient
// its next intermediate bit, a comma ends it with its letter. `product` is that quotient, as far as it goes, times r. Of the `left`
// compositions that agree so far, those with a comma in the gap come first.
fn pair_in(block: Block, place: u64) -> Pair
    requires { place < length (block_of block.n block.k) }
    ensures { pair_of result ≡ build (get_or (block_of block.n block.k) place []) }
{
    let n = block.n;
    let k = block.k;
    let words = word_count(k as usize);
    let word = from10(k, place % words, words);
    let bits = place / words;
    let mut index = (bits >> (n - k)) as u32;
    let mut left = block.compositions;
    let mut commas = k - 1;
    let mut r = 1;
    let mut s = 0;
    let mut product = 1;
    for gaps in (0..n - 1).rev() {
        let with_comma = share(left * commas, gaps + 1);
        if index < with_comma {
            let next = (product << 1) ^ poly::scaled(r, word >> commas) ^ s;
            s = r;
            r = next;
            product = next;
            commas -= 1;
            left = with_comma;
        } else {
            product = (product << 1) ^ poly::scaled(r, ((bits >> (gaps - commas)) % 2) as u32);
            index -= with_comma;
            left -= with_comma;
        }
    }
    let last = (product << 1) ^ poly::scaled(r, word) ^ s;
    Pair {
        f: last ^ r,
        g: last,
    }
}
