// The second list, in which each unordered pair stands once: the pairs at the even positions of the list.
#![tactic(auto)]

ghost use Rattle.std.specs.Prelude.{◌≡◌};
ghost use Rattle.pairs.specs.Replies.{found_reply};
ghost use Rattle.unordered.specs.Replies.{unordered_reply};

use pairs::Pair;
use poly::Degree;
use reply::Refusal;

// The pair of degree n at an entry of the second list. The entry is tested before it is doubled, which would overflow from 2^63 on.
pub fn pair_at(n: u32, entry: u64) -> Result<Pair, Refusal>
    ensures { found_reply result ≡ unordered_reply n entry }
{
    let length = (Degree { n }).list_length()?;
    if length / 2 <= entry {
        return Err(Refusal::PositionRange);
    }
    let position = 2 * entry;
    pairs::pair_at(n, position)
}
