//! A set of small numbers, one bit each.

ghost use Rattle.std.specs.Prelude.{ℕ, ◌≡◌, ◌≢◌, ◌+◌, ◌-◌, ◌*◌, ◌/◌, ◌%◌, ◌^◌, ◌<◌, ◌≤◌, slice_index, vec_len, IfOk, MatchOption};
ghost use Rattle.voice_blocks.specs.Bits.{AreFull, bit_of};

use std::alloc::{AllocError, Global};

/// Numbers of which each is in or out. The words below the hint are full.
#[derive(Drop)]
pub struct Bitmap {
    pub words: Vec<u64>,
    hint: usize,
    ghost full: { AreFull words.items hint },
    ghost few: { vec_len words ≤ 2 ^ 26 },
}

impl Bitmap {
    /// A set that can have the numbers below n, and has none.
    pub fn new(alloc: Global, n: u32) -> Result<Bitmap, AllocError>
        ensures room { IfOk result (λ set. n ≤ 64 * vec_len set.words) }
        ensures empty { IfOk result (λ set. (k : ℕ) → bit_of set.words.items k ≡ 0) }
    {
        let count = n.div_ceil(64) as usize;
        let words = vec![in alloc; 0u64; count]?;
        Ok(Bitmap { words, hint: 0 })
    }

    /// An equal set.
    pub fn copy(&self) -> Result<Bitmap, AllocError>
        ensures { IfOk result (λ set. set.words.items ≡ self.now.words.items) }
    {
        Ok(Bitmap {
            words: self.words.clone()?,
            hint: self.hint,
        })
    }

    /// Puts a number in that is out.
    pub fn insert(&mut self, k: usize)
        requires within { k < 64 * vec_len self.old.words }
        requires out { bit_of self.old.words.items k ≡ 0 }
        ensures len { vec_len self.new.words ≡ vec_len self.old.words }
        ensures this { bit_of self.new.words.items k ≡ 1 }
        ensures others { (j : ℕ) → j ≢ k → bit_of self.new.words.items j ≡ bit_of self.old.words.items j }
    {
        let word = self.words[k / 64];
        self.words[k / 64] = word | 1 << (k % 64);
    }

    /// Takes a number out.
    pub fn remove(&mut self, k: usize)
        requires { k < 64 * vec_len self.old.words }
        ensures len { vec_len self.new.words ≡ vec_len self.old.words }
        ensures this { bit_of self.new.words.items k ≡ 0 }
        ensures others { (j : ℕ) → j ≢ k → bit_of self.new.words.items j ≡ bit_of self.old.words.items j }
    {
        self.hint = self.hint.min(k / 64);
        let word = self.words[k / 64];
        self.words[k / 64] = word & !(1 << (k % 64));
    }

    /// The lowest number that is out, if any is.
    pub fn lowest_out(&mut self) -> Option<usize>
        ensures same { self.new.words ≡ self.old.words }
        ensures lowest { MatchOption result ((k : ℕ) → k < 64 * vec_len self.old.words → bit_of self.old.words.items k ≡ 1) (λ a. (a < 64 * vec_len self.old.words) × (bit_of self.old.words.items a ≡ 0) × ((k : ℕ) → k < a → bit_of self.old.words.items k ≡ 1)) }
    {
        while self.hint < self.words.len() {
            let word = self.words[self.hint];
            if word != u64::MAX {
                return Some(64 * self.hint + word.trailing_ones() as usize);
            }
            self.hint += 1;
        }
        None
    }
}
