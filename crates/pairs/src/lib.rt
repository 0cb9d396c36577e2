// The list of coprime pairs, and the pair at a position. `word_count` and `share` are public for the other calls of the list.
#![tactic(auto)]

mod block;
mod division;
mod pair;
mod readers;
mod table;

pub use block::Block;
pub use division::share;
pub use pair::{Pair, pair_at};
pub use table::word_count;
