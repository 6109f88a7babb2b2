ghost use Rattle.std.specs.Prelude.{◌≡◌, ◌≢◌, ℕ, ◌*◌, ◌/◌, ◌^◌, ◌<◌, ◌==◌, if◌then◌else◌, length, replicate, slice_index_or, IfOk, IfSome, IsNone, IsTrue, ◌↔◌};
ghost use Rattle.rec_index.specs.Sets.{bit, Holds, IsLowestIn};

use std::alloc::{AllocError as NoMemory, Global};
use std::marker::Model;

/// One level: a set of numbers, a bit for each, in words of 64. Its memory is taken when it is opened.
#[derive(Drop)]
pub struct Level {
    words: Vec<u64>,
}

impl Model for Level {
    ghost use Rattle.std.specs.Prelude.{ℕ, List};

    ghost Value = { List ℕ };

    ghost view = { λ level. level.words.items };
}

impl Level {
    /// An empty set, of as many numbers as so many words have bits.
    pub fn open(alloc: Global, words: usize) -> Result<Level, NoMemory>
        ensures { IfOk result (λ level. level ≡ replicate words 0) }
    {
        Ok(Level {
            words: vec![in alloc; 0; words]?,
        })
    }

    /// Makes `i` a member. Its word alone changes.
    pub fn insert(&mut self, i: usize)
        requires { i / 64 < length self.old }

        ensures length { length self.new ≡ length self.old }
        ensures holds { (j : ℕ) → bit self.new j ≡ (if j == i then 1 else bit self.old j) }
        ensures others { (k : ℕ) → k ≢ i / 64 → slice_index_or self.new k 0 ≡ slice_index_or self.old k 0 }
    {
        self.words[i / 64] |= 1u64 << (i % 64);
    }

    /// Takes `i` out, where it is a member, and answers whether its word is 0 then. That word alone changes.
    pub fn remove(&mut self, i: usize) -> bool
        requires { i / 64 < length self.old }

        ensures length { length self.new ≡ length self.old }
        ensures holds { (j : ℕ) → bit self.new j ≡ (if j == i then 0 else bit self.old j) }
        ensures others { (k : ℕ) → k ≢ i / 64 → slice_index_or self.new k 0 ≡ slice_index_or self.old k 0 }
        ensures empty { IsTrue result ↔ (slice_index_or self.new (i / 64) 0 ≡ 0) }
    {
        let word = &mut self.words[i / 64];
        *word &= !(1u64 << (i % 64));
        *word == 0
    }

    /// Takes every member out.
    pub fn clear(&mut self)
        ensures { self.new ≡ replicate (length self.old) 0 }
    {
        self.words.fill(0);
    }

    /// The lowest member of those in a word, or `None` where there is none.
    pub fn lowest(&self, word: usize) -> Option<usize>
        requires there { word < length self.now }
        requires few { length self.now < 2 ^ 32 }

        ensures some { IfSome result (IsLowestIn self.now word) }
        ensures none { IsNone result → slice_index_or self.now word 0 ≡ 0 }
    {
        let bits = self.words[word];
        if bits == 0 {
            return None;
        }
        Some(64 * word + bits.trailing_zeros() as usize)
    }
}
