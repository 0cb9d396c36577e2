// The list goes by blocks, one for each number k of quotients: block 2, block 3, and so on up to block n.
ghost use Rattle.std.specs.Prelude.{◌≡◌, ◌+◌, ◌≤◌, length, MatchOption};
ghost use Rattle.pairs.specs.Sequences.{block, compositions as compositions_of};
ghost use Rattle.pairs.specs.Words.{words as words_of};

use crate::division::share;

// Block k of degree n, with the number of compositions of n into k parts and that of the words of k letters.
#[derive(Clone, Copy)]
pub struct Block {
    pub n: u32,
    pub k: u32,
    pub compositions: u32,
    pub words: u64,
    pub ghost le_k: { 2 ≤ k },
    pub ghost k_le_n: { k ≤ n },
    pub ghost n_bound: { n ≤ 31 },
    pub ghost compositions_value: { compositions ≡ length (compositions_of n k) },
    pub ghost words_value: { words ≡ length (words_of k) },
}

impl Block {
    // The block of 2 quotients, which the list of each degree from 2 to 31 begins with.
    pub fn first(n: u32) -> Option<Block>
        ensures { MatchOption result ((2 ≤ n) × (n ≤ 31) → ⊥) (λ block. (block.n ≡ n) × (block.k ≡ 2)) }
    {
        // By a range's `contains` here, and `u64::from` in `size`, the pair at a position took 1.07 of the time.
        if n < 2 || 31 < n {
            return None;
        }
        Some(Block {
            n,
            k: 2,
            compositions: n - 1,
            words: 2,
        })
    }

    // The block behind it, but for the last. Each number is made from the one before.
    pub fn next(self) -> Option<Block>
        ensures { MatchOption result (self.k ≡ self.n) (λ block. (block.n ≡ self.n) × (block.k ≡ self.k + 1)) }
    {
        if self.k == self.n {
            return None;
        }
        Some(Block {
            n: self.n,
            k: self.k + 1,
            compositions: share(self.compositions * (self.n - self.k), self.k),
            words: (1u64 << self.k) - self.words,
        })
    }

    // How many sequences of k quotients there are: one for each composition, word and number of n - k intermediate bits.
    pub fn size(self) -> u64
        ensures { result ≡ length (block self.n self.k) }
    {
        (self.compositions as u64 * self.words) << (self.n - self.k)
    }
}
