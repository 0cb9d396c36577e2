// The pairs from a position on, many at a time. Quotient sequences that differ only in their constant terms stand side by side in the
// list; such a group shares its heads, the quotients without their constant terms, and its words share the remainders of their beginnings.
#![tactic(auto)]

ghost use Rattle.std.specs.Prelude.{[], ◌∷◌, map, ◌≡◌, ℕ, ◌-◌, ◌*◌, ◌^◌, ◌≤◌, ◌<◌, leb, length};
ghost use Rattle.poly.specs.Code.{add, mul};
ghost use Rattle.pairs.specs.Words.{words_from};
ghost use Rattle.pairs.specs.Sequences.{block as block_of};
ghost use Rattle.pairs.specs.Pairs.{build, pairs};
ghost use Rattle.listing.specs.Replies.{filled_reply, from_reply, from_content};
ghost use Rattle.listing.specs.Filling.{Written, Ready, HeadsOf, state_of, onward};

use pairs::{Block, share, word_count};
use poly::Degree;
use reply::Refusal;

// Writes f and g of the pairs of degree n from a position on to the front of out, as many as there are and as fit, and gives how many it
// wrote.
pub fn pairs_from(n: u32, position: u64, out: &mut [u32]) -> Result<usize, Refusal>
    ensures reply { filled_reply result ≡ from_reply n position (length out.old) }
    ensures content { out.new ≡ from_content n position out.old }
{
    let length = (Degree { n }).list_length()?;
    if length <= position {
        return Err(Refusal::PositionRange);
    }
    if out.len() < 2 {
        return Err(Refusal::SliceLength);
    }
    Ok(fill_list(n, position, out))
}

// The same for a degree that has pairs, block by block. `skip` pairs of what is to come are left out.
fn fill_list(n: u32, position: u64, out: &mut [u32]) -> usize
    requires { (2 ≤ n) × (n ≤ 31) }
    ensures { Written (pairs n) position out.old 0 out.new result }
{
    let mut skip = position;
    let mut done = 0;
    let mut next = Block::first(n);
    while let Some(block) = next {
        if out.len() / 2 <= done {
            return done;
        }
        done = fill_block(block, skip, out, done);
        skip = skip.saturating_sub(block.size());
        next = block.next();
    }
    done
}

// The pairs of a block behind the first `skip`, written behind the `done` pairs that out holds; gives how many it holds then. The first
// group may be begun in its middle.
fn fill_block(block: Block, skip: u64, out: &mut [u32], done: usize) -> usize
    ensures { Written (map build (block_of block.n block.k)) skip out.old done out.new result }
{
    let groups = (block.compositions as u64) << (block.n - block.k);
    let mut first = skip % block.words;
    let mut filled = done;
    for group in skip / block.words..groups {
        if out.len() / 2 <= filled {
            return filled;
        }
        let heads = heads_of(block, group);
        filled = fill(&heads[..block.k as usize], first, 1, 0, out, filled);
        first = 0;
    }
    filled
}

// The heads of a group, the last quotient's first. One pass over the n - 1 gaps between n ones: a plus in a gap gives the present head its
// next bit, a comma ends it. Of the `left` compositions that agree so far, those with a comma in the gap come first.
fn heads_of(block: Block, group: u64) -> [u32; 32]
    requires { group < block.compositions * 2 ^ (block.n - block.k) }
    ensures { HeadsOf block.n block.k group result }
{
    let mut heads = [0u32; 32];
    let mut index = (group >> (block.n - block.k)) as u32;
    let mut left = block.compositions;
    let mut commas = block.k - 1;
    let mut head = 1;
    for gaps in (0..block.n - 1).rev() {
        let with_comma = share(left * commas, gaps + 1);
        if index < with_comma {
            heads[commas as usize] = head;
            head = 1;
            commas -= 1;
            left = with_comma;
        } else {
            head = (head << 1) + ((group >> (gaps - commas)) % 2) as u32;
            index -= with_comma;
            left -= with_comma;
        }
    }
    heads[0] = head;
    heads
}

// The pairs that the heads, the last one first, make of (r, s) with each word of as many letters; `skip`, `done` and the result as above.
// The words that begin with 0 come first. Before the last letter either one is possible or none. The count goes in with the slice, so that
// the second call is the last step: given the rest of the slice, and added to the first, it took 1.06 of the time.
fn fill(heads: &[u32], skip: u64, r: u32, s: u32, out: &mut [u32], done: usize) -> usize
    requires { Ready heads.now (length heads.now) r s }
    ensures { Written (onward heads.now (length heads.now) r s) skip out.old done out.new result }
{
    let m = heads.len();
    if out.len() / 2 <= done {
        return done;
    }
    if (Words { letters: m, r }).all_skipped(skip) {
        return done;
    }
    let next = turned(heads[m - 1], r, s);
    if m == 1 {
        let one = put(next ^ r, next, skip, out, done);
        return put(next, next ^ r, skip.saturating_sub(1), out, one);
    }
    let others = &heads[..m - 1];
    let half = fill(others, skip, next, r, out, done);
    let first = Words {
        letters: m - 1,
        r: next,
    };
    let rest = first.skipped_behind(skip);
    fill(others, rest, next ^ r, r, out, half)
}

// What a quotient with this head and constant term 0 makes of (r, s).
fn turned(head: u32, r: u32, s: u32) -> u32
    requires { mul 2 head r < 2 ^ 31 }
    ensures { result ≡ add 2 (mul 2 head r * 2) s }
{
    ((poly::product(head, r) as u32) << 1) ^ s
}

// Writes one pair, unless it is skipped or there is no room for it.
fn put(f: u32, g: u32, skip: u64, out: &mut [u32], done: usize) -> usize
    ensures { Written (record { f = f; g = g } ∷ []) skip out.old done out.new result }
{
    if 0 < skip {
        return done;
    }
    if out.len() / 2 <= done {
        return done;
    }
    out[2 * done] = f;
    out[2 * done + 1] = g;
    done + 1
}

// The words of so many letters that lead to (1,0) from the state of (r, s). How many there are depends on r alone, since from (1,1) there
// are as many as from (1,0).
#[derive(Clone, Copy)]
struct Words {
    letters: usize,
    r: u32,
    ghost some: { 1 ≤ letters },
    ghost few: { letters ≤ 31 },
}

impl Words {
    // Whether the first `skip` of them are all. None at all is frequent and needs no count.
    fn all_skipped(self, skip: u64) -> bool
        ensures { (s : ℕ) → result ≡ leb (length (words_from (state_of self.r s) self.letters)) skip }
    {
        if skip == 0 {
            return self.letters + (self.r % 2) as usize == 2;
        }
        self.count() <= skip
    }

    // How many are to be skipped of what follows them.
    fn skipped_behind(self, skip: u64) -> u64
        ensures { (s : ℕ) → result ≡ skip - length (words_from (state_of self.r s) self.letters) }
    {
        if skip == 0 {
            return 0;
        }
        skip.saturating_sub(self.count())
    }

    // How many there are: from (0,1) twice as many as from (1,0) with one letter less.
    fn count(self) -> u64
        ensures { (s : ℕ) → result ≡ length (words_from (state_of self.r s) self.letters) }
    {
        if self.r % 2 == 0 {
            return 2 * word_count(self.letters - 1);
        }
        word_count(self.letters)
    }
}
