// The lists of pairs and of triples, for C.
ghost use Rattle.std.specs.Prelude.{◌≡◌, length};
ghost use Rattle.console.specs.Status.{status, value};
ghost use Rattle.poly.specs.Replies.{length_reply};
ghost use Rattle.pairs.specs.Replies.{pair_at_reply};
ghost use Rattle.positions.specs.Replies.{position_reply};
ghost use Rattle.unordered.specs.Replies.{unordered_reply};
ghost use Rattle.triples.specs.Replies.{triple_at_reply};
ghost use Rattle.listing.specs.Replies.{from_reply, from_content};

use crate::SPENT;
use crate::answers::{store, store_next};
use poly::Degree;

// The length of the list of degree n.
#[unsafe(no_mangle)]
pub extern "C" fn dw_length(n: u32, pairs: &mut u64) -> u32
    ensures value { result ≡ status (length_reply n) }
    ensures pairs_after { pairs.new ≡ value 0 (length_reply n) pairs.old }
{
    store((Degree { n }).list_length(), pairs)
}

// The pair at a position of the list of degree n.
#[unsafe(no_mangle)]
pub extern "C" fn dw_pair_at(n: u32, position: u64, f: &mut u32, g: &mut u32) -> u32
    ensures value { result ≡ status (pair_at_reply n position) }
    ensures f_after { f.new ≡ value 0 (pair_at_reply n position) f.old }
    ensures g_after { g.new ≡ value 1 (pair_at_reply n position) g.old }
{
    store_next(pairs::pair_at(n, position).map(Some), f, g)
}

// The pair at an entry of the second list of degree n, in which each unordered pair stands once.
#[unsafe(no_mangle)]
pub extern "C" fn dw_unordered_pair_at(n: u32, entry: u64, f: &mut u32, g: &mut u32) -> u32
    ensures value { result ≡ status (unordered_reply n entry) }
    ensures f_after { f.new ≡ value 0 (unordered_reply n entry) f.old }
    ensures g_after { g.new ≡ value 1 (unordered_reply n entry) g.old }
{
    store_next(unordered::pair_at(n, entry).map(Some), f, g)
}

// The pairs from a position of the list of degree n on, f and g in turn, as many as fit into the slice; with their count.
#[unsafe(no_mangle)]
pub extern "C" fn dw_pairs_from(n: u32, position: u64, out: &mut [u32], count: &mut usize) -> u32
    ensures value { result ≡ status (from_reply n position (length out.old)) }
    ensures out_after { out.new ≡ from_content n position out.old }
    ensures count_after { count.new ≡ value 0 (from_reply n position (length out.old)) count.old }
{
    store(listing::pairs_from(n, position, out), count)
}

// The position of a pair in the list of degree n.
#[unsafe(no_mangle)]
pub extern "C" fn dw_position_of(n: u32, f: u32, g: u32, position: &mut u64) -> u32
    ensures value { result ≡ status (position_reply n f g) }
    ensures position_after { position.new ≡ value 0 (position_reply n f g) position.old }
{
    store(positions::position_of(n, f, g), position)
}

// The triple at a position of the list of all triples of degree n.
#[unsafe(no_mangle)]
pub extern "C" fn dw_triple_at(n: u32, position: u64, f: &mut u32, g: &mut u32, h: &mut u32) -> u32
    ensures value { result ≡ status (triple_at_reply n position) }
    ensures f_after { f.new ≡ value 0 (triple_at_reply n position) f.old }
    ensures g_after { g.new ≡ value 1 (triple_at_reply n position) g.old }
    ensures h_after { h.new ≡ value 2 (triple_at_reply n position) h.old }
{
    match triples::triple_at(n, position) {
        Ok(Some(triple)) => {
            *f = triple.f;
            *g = triple.g;
            *h = triple.h;
            0
        }
        Ok(None) => SPENT,
        Err(refusal) => refusal.number(),
    }
}
