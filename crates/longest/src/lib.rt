// The longest chains of a degree's list: where they begin and how many there are.
#![tactic(auto)]

ghost use Rattle.std.specs.Prelude.{◌≡◌, ◌≤◌, length};
ghost use Rattle.pairs.specs.Words.{words};
ghost use Rattle.longest.specs.Replies.{reach_reply, longest_reply};

use poly::Degree;
use reply::Refusal;

// How many positions of the list reach the longest chains, and the first of them.
#[derive(Clone, Copy, Debug, PartialEq, Eq)]
pub struct Reach {
    pub count: u64,
    pub first: u64,
}

// Which positions of the list of degree n hold pairs with n + 1 quotients. They are the last ones, one for each kept word of n letters; at
// degree 1 there is none.
pub fn longest_chains(n: u32) -> Result<Option<Reach>, Refusal>
    ensures { reach_reply result ≡ longest_reply n }
{
    let length = (Degree { n }).list_length()?;
    let count = reaching(n);
    if count == 0 {
        return Ok(None);
    }
    let first = length - count;
    Ok(Some(Reach { count, first }))
}

// How many they are: (2^n + 2(-1)^n)/3, where (-1)^n is 1 - 2 (n % 2). The table of words' numbers would be laid on the stack.
fn reaching(n: u32) -> u64
    requires { n ≤ 31 }
    ensures { result ≡ length (words n) }
{
    ((1u64 << n) + 2 - 4 * u64::from(n % 2)) / 3
}
