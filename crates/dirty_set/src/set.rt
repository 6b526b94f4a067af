//! Bit sets with two levels of summaries: a summary has a bit for each word, set if that isn't 0.
ghost use Rattle.std.specs.Prelude.{◌≡◌, ℕ, ◌+◌, ◌<◌, ◌≤◌, ◌^◌, true, false, length, replicate, slice_set, IfOk, IfSome, MatchOption};
ghost use Rattle.dirty_set.specs.Members.{IsNext, is_member};

use crate::words::{clear_bit, next_layered, set_bit};
use std::alloc::{AllocError, Global};
use std::marker::Model;

/// A set of numbers below a count. Contracts see a list with a Boolean for each number: whether it
/// is a member.
#[derive(Drop)]
pub struct Bits {
    count: u32,
    words: Vec<u64>,
    // bit w is 1 if word w isn't 0
    summary: Vec<u64>,
    // the summary of the summary
    top: Vec<u64>,
}

impl Model for Bits {
    ghost use Rattle.std.specs.Prelude.{List, Bool};
    ghost use Rattle.dirty_set.specs.inner.Words.{members, IsLayered};

    ghost Value = { List Bool };

    ghost view = { λ b. members b.words.items b.count };

    ghost invariant = { λ b. IsLayered b.words.items b.summary.items b.top.items b.count };
}

impl Bits {
    /// The empty set. Its only error is running out of memory; no later call takes memory.
    pub fn new(alloc: Global, count: u32) -> Result<Bits, AllocError>
        ensures { IfOk result (λ bits. bits ≡ replicate count false) }
    {
        let words = vec![in alloc; 0u64; (count as usize + 63) / 64]?;
        let summary = vec![in alloc; 0u64; (words.len() + 63) / 64]?;
        let top = vec![in alloc; 0u64; (summary.len() + 63) / 64]?;
        Ok(Bits {
            count,
            words,
            summary,
            top,
        })
    }

    /// Adds a number, if it isn't a member already.
    pub fn insert(&mut self, k: u32)
        requires { k < length self.old }
        ensures { self.new ≡ slice_set self.old k true }
    {
        let k = k as usize;
        set_bit(&mut self.words, k);
        set_bit(&mut self.summary, k / 64);
        set_bit(&mut self.top, k / 64 / 64);
    }

    /// Removes a number, if it is a member.
    pub fn remove(&mut self, k: u32)
        requires { k < length self.old }
        ensures { self.new ≡ slice_set self.old k false }
    {
        let k = k as usize;
        if clear_bit(&mut self.words, k) {
            if clear_bit(&mut self.summary, k / 64) {
                let _ = clear_bit(&mut self.top, k / 64 / 64);
            }
        }
    }

    /// The least member, or `None`: 3 of the numbers 3, 70 and 4,000.
    pub fn first(&self) -> Option<u32>
        ensures next { MatchOption result ((k : ℕ) → is_member self.now k ≡ false) (λ r. IsNext (is_member self.now) 0 r) }
        ensures within { IfSome result (λ r. r < length self.now) }
    {
        self.next_from(0)
    }

    /// The least member above a number, or `None`: 4,000 above 70 of the numbers 3, 70 and 4,000.
    pub fn next_after(&self, k: u32) -> Option<u32>
        requires { k < length self.now }
        ensures next { MatchOption result ((i : ℕ) → k < i → is_member self.now i ≡ false) (λ r. IsNext (is_member self.now) (k + 1) r) }
        ensures within { IfSome result (λ r. r < length self.now) }
    {
        // the count is below 2^32
        let _ = &self.count;
        self.next_from(k + 1)
    }

    /// The least member not below a number.
    pub fn next_from(&self, p: u32) -> Option<u32>
        ensures next { MatchOption result ((k : ℕ) → p ≤ k → is_member self.now k ≡ false) (λ r. IsNext (is_member self.now) p r) }
        ensures within { IfSome result (λ r. (r < length self.now) × (r + 1 < 2 ^ 32)) }
    {
        match next_layered(&self.words, &self.summary, &self.top, p as usize) {
            None => None,
            Some(r) => Some(r as u32),
        }
    }

    /// Removes all members. Takes one step per member, not per number.
    pub fn clear(&mut self)
        ensures { self.new ≡ replicate (length self.old) false }
    {
        let mut p = 0;
        while let Some(k) = self.next_from(p) {
            self.remove(k);
            p = k + 1;
        }
    }
}
