// The list of all triples of pairwise coprime codes of one degree. No greatest common divisor is computed: those coprime to a code are a
// set in a table, by their indices; the code 2·half + 1 of degree n has the index half - 2^(n-1). A position is found by subtracting how
// many triples begin alike.
#![tactic(auto)]

mod counts;

ghost use Rattle.std.specs.Prelude.{◌≡◌, ◌-◌, ◌^◌, ◌≤◌, ◌<◌, length, get_or};
ghost use Rattle.codes.specs.Sets.{members};
ghost use Rattle.codes.specs.Codes.{from_half};
ghost use Rattle.triples.specs.Triples.{none, beginning_with, triples};
ghost use Rattle.triples.specs.Replies.{given_reply, triple_at_reply};

use counts::BEGINNING;
use poly::Degree;
use reply::Refusal;

// Three codes of one degree.
#[derive(Clone, Copy)]
pub struct Triple {
    pub f: u32,
    pub g: u32,
    pub h: u32,
}

// The list of all triples of one degree for which there are sheets.
#[derive(Clone, Copy)]
struct TripleList {
    n: u32,
    ghost low: { 2 ≤ n },
    ghost high: { n ≤ 6 },
}

// The triple of degree n at a position of the list; none behind the list's end.
pub fn triple_at(n: u32, position: u64) -> Result<Option<Triple>, Refusal>
    ensures { given_reply result ≡ triple_at_reply n position }
{
    if (Degree { n }).outside_sheets() {
        return Err(Refusal::SheetDegree);
    }
    let list = TripleList { n };
    if u64::from(list.length()) <= position {
        return Ok(None);
    }
    Ok(Some(list.seek(position as u32)))
}

impl TripleList {
    // How many triples the list has.
    fn length(self) -> u32
        ensures { result ≡ length (triples self.n) }
    {
        match self.n {
            2 => 0,
            3 => 12,
            4 => 150,
            5 => 1380,
            _ => 11574,
        }
    }

    // The triple at a position below the list's end. f is found by subtracting how many triples begin with each code before it.
    fn seek(self, position: u32) -> Triple
        requires { position < length (triples self.n) }
        ensures { result ≡ get_or (triples self.n) position none }
    {
        // Copied once: read where it stands, the table would be laid out anew at each turn.
        let sizes = BEGINNING;
        let mut half = 1 << (self.n - 1);
        let mut rest = position;
        loop {
            let size = u32::from(sizes[half as usize]);
            if rest < size {
                return self.seek_second(half, rest);
            }
            rest -= size;
            half += 1;
        }
    }

    // The triple at a place among those that begin with f = 2·half + 1. g runs through the codes coprime to f, from the least on, and is
    // found by subtracting how many codes are coprime to both.
    fn seek_second(self, half: u32, place: u32) -> Triple
        requires half_from { 2 ^ (self.n - 1) ≤ half }
        requires half_below { half < 2 ^ self.n }
        requires place_inside { place < length (beginning_with self.n (from_half half)) }
        ensures { result ≡ get_or (beginning_with self.n (from_half half)) place none }
    {
        let least = 1 << (self.n - 1);
        let first = codes::coprimes(half);
        let mut left = first;
        let mut rest = place;
        loop {
            let second = least + left.trailing_zeros();
            let of_second = codes::coprimes(second);
            let both = first & of_second;
            let size = both.count_ones();
            if rest < size {
                let third = least + member(both, rest);
                return Triple {
                    f: 2 * half + 1,
                    g: 2 * second + 1,
                    h: 2 * third + 1,
                };
            }
            rest -= size;
            left &= left - 1;
        }
    }
}

// The member of a set that has this many members before it.
fn member(set: u32, rank: u32) -> u32
    requires { rank < length (members set) }
    ensures { result ≡ get_or (members set) rank 0 }
{
    let mut left = set;
    for _ in 0..rank {
        left &= left - 1;
    }
    left.trailing_zeros()
}
