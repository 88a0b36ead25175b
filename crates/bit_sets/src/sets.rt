//! Bit sets with a summary level, so that the next member is found in constant time.
ghost use Rattle.std.specs.Prelude.{◌≡◌, ℕ, ◌+◌, ◌*◌, ◌<◌, ◌≤◌, ◌==◌, [], true, false, length, IfSome, IfNone, IfOk, OnOk, MatchBool, if◌then◌else◌};
ghost use Rattle.std.specs.Int.{bit_at};
ghost use Rattle.bit_sets.specs.Sets.{has, IsNextBit, IsNext, NoneFrom};

mod difference;

use crate::pieces::copied;
use std::alloc::{AllocError, Global};
use std::marker::Model;

/// A set of numbers below 65,536. Contracts see it as its list of words.
#[derive(Drop)]
pub struct BitSet {
    /// One bit per number; as many words as the largest number so far required.
    words: Vec<u64>,
    /// One bit per word, set if the word is not 0.
    summary: [u64; 16],
}

impl Model for BitSet {
    ghost use Rattle.std.specs.Prelude.{ℕ, List};
    ghost use Rattle.bit_sets.specs.Sets.{Summed};

    ghost Value = { List ℕ };

    ghost view = { λ a. a.words.items };

    ghost invariant = { λ a. Summed a.words.items a.summary };
}

impl BitSet {
    /// Returns an empty set. Allocates nothing.
    pub fn new(alloc: Global) -> BitSet
        ensures { result ≡ [] }
    {
        BitSet {
            words: Vec::new(alloc),
            summary: [0; 16],
        }
    }

    /// Allocates the word of number k, if it is missing. There must be room for every number below
    /// k. If the allocation fails, the set is unchanged.
    pub fn make_room(&mut self, k: usize) -> Result<(), AllocError>
        requires below { k ≤ 64 * length self.old }
        requires small { k < 65536 }
        ensures ok { OnOk result (k < 64 * length self.new) }
        ensures len { length self.old ≤ length self.new }
        ensures has { (i : ℕ) → has self.new i ≡ has self.old i }
    {
        if k / 64 >= self.words.len() {
            self.words.push(0)?;
        }
        Ok(())
    }

    /// Returns whether k is in the set. Constant time.
    pub fn contains(&self, k: usize) -> bool
        ensures { result ≡ has self.now k }
    {
        match self.words.get(k / 64) {
            Some(word) => *word & (1 << (k % 64)) != 0,
            None => false,
        }
    }

    /// Inserts or removes k, for which there must be room. Constant time, without allocation.
    pub fn write(&mut self, k: usize, member: bool)
        requires { k < 64 * length self.old }
        ensures len { length self.new ≡ length self.old }
        ensures has { (i : ℕ) → has self.new i ≡ (if i == k then member else has self.old i) }
    {
        let at = k / 64;
        let word = with_bit(self.words[at], k % 64, member);
        self.words[at] = word;
        self.summary[at / 64] = with_bit(self.summary[at / 64], at % 64, word != 0);
    }

    /// Returns the least number of the set at or above `from`. Constant time.
    pub fn next(&self, from: usize) -> Option<usize>
        ensures some { IfSome result (λ k. IsNext self.now from k) }
        ensures none { IfNone result (NoneFrom self.now from) }
    {
        let first = from / 64;
        if first >= self.words.len() {
            return None;
        }
        if let Some(bit) = next_bit(self.words[first], from % 64) {
            return Some(first * 64 + bit);
        }
        let at = next_word(&self.summary, self.words.len(), first + 1)?;
        let bit = next_bit(self.words[at], 0)?;
        Some(at * 64 + bit)
    }

    /// Returns whether k, a number of the set, is the least one at or above `from`.
    pub fn is_next(&self, from: usize, k: usize) -> bool
        requires member { has self.now k ≡ true }
        requires after { from ≤ k }
        ensures { MatchBool result (IsNext self.now from k) ((i : ℕ) × (i < k)
            × IsNext self.now from i) }
    {
        self.next(from) == Some(k)
    }

    /// Returns whether the set has no number below `limit`.
    pub fn has_none_below(&self, limit: usize) -> bool
        ensures { MatchBool result ((i : ℕ) → i < limit → has self.now i ≡ false) ((i : ℕ)
            × (i < limit) × (has self.now i ≡ true)) }
    {
        match self.next(0) {
            Some(least) => limit <= least,
            None => true,
        }
    }

    /// Copies the set. Fails only if an allocation fails.
    pub fn copy(&self, alloc: Global) -> Result<BitSet, AllocError>
        ensures { IfOk result (λ set. set ≡ self.now) }
    {
        Ok(BitSet {
            words: copied(alloc, &self.words)?,
            summary: self.summary,
        })
    }
}

// Returns the word with one bit set or cleared.
fn with_bit(word: u64, bit: usize, member: bool) -> u64
    requires { bit < 64 }
    ensures { (b : ℕ) → b < 64
        → (bit_at result b == 1) ≡ (if b == bit then member else bit_at word b == 1) }
{
    if member {
        word | 1 << bit
    } else {
        word & !(1 << bit)
    }
}

// Returns the lowest set bit of a word at or above `from`.
fn next_bit(word: u64, from: usize) -> Option<usize>
    requires { from < 64 }
    ensures some { IfSome result (λ k. IsNextBit word from k) }
    ensures none { IfNone result ((b : ℕ) → from ≤ b → bit_at word b ≡ 0) }
{
    let high = word & (u64::MAX << from);
    if high == 0 {
        None
    } else {
        Some(high.trailing_zeros() as usize)
    }
}

// Returns the first word from `from` on that is not 0, given how many words there are. Reads the
// summaries of those words alone.
fn next_word(summary: &[u64], count: usize, from: usize) -> Option<usize>
    requires short { length summary.now ≡ 16 }
    requires few { count ≤ 1024 }
    requires past { (w : ℕ) → count ≤ w → has summary.now w ≡ false }
    ensures some { IfSome result (λ w. IsNext summary.now from w) }
    ensures none { IfNone result (NoneFrom summary.now from) }
{
    next_number(&summary[..(count + 63) / 64], from)
}

// Returns the least number at or above `from` in a set given by its words. Used on the summary,
// whose 16 words it scans.
fn next_number(words: &[u64], from: usize) -> Option<usize>
    requires { length words.now ≤ 1024 }
    ensures some { IfSome result (λ k. IsNext words.now from k) }
    ensures none { IfNone result (NoneFrom words.now from) }
{
    let first = from / 64;
    if first >= words.len() {
        return None;
    }
    if let Some(bit) = next_bit(words[first], from % 64) {
        return Some(first * 64 + bit);
    }
    'words: for at in first + 1..words.len() {
        if let Some(bit) = next_bit(words[at], 0) {
            return Some(at * 64 + bit);
        }
    }
    None
}
