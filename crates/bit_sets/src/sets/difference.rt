//! Searches for numbers in one set and not in another.
ghost use Rattle.std.specs.Prelude.{◌≡◌, ◌<◌, ◌≤◌, ◌^◌, IfSome, IfNone, length, slice_index, bit_and};
ghost use Rattle.std.specs.Int.{w64, bit_not};
ghost use Rattle.bit_sets.specs.Difference.{IsNextInDifference, NoneInDifference};

use super::{BitSet, next_bit};

impl BitSet {
    /// Returns the least number at or above `from` that is in `self` and not in `other`. It skips
    /// the words in which `self` has no number.
    pub fn next_in_difference(&self, other: &BitSet, from: usize) -> Option<usize>
        ensures some { IfSome result (λ k. IsNextInDifference self.now other.now from k) }
        ensures none { IfNone result (NoneInDifference self.now other.now from) }
    {
        let mut at = from;
        'words: while let Some(k) = self.next(at) {
            let word = self.word_of_difference(other, k / 64);
            if let Some(bit) = next_bit(word, k % 64) {
                return Some(k / 64 * 64 + bit);
            }
            at = k / 64 * 64 + 64;
        }
        None
    }

    // Returns word `at` with the bits of the other set's word cleared.
    fn word_of_difference(&self, other: &BitSet, at: usize) -> u64
        ensures value { result ≡ bit_and (slice_index self.now at)
            (bit_not w64 (slice_index other.now at)) }
        ensures fits { slice_index other.now at < 2 ^ 64 }
        ensures few { length self.now ≤ 1024 }
    {
        self.word(at) & !other.word(at)
    }

    // Returns word `at`, or 0 past the end.
    fn word(&self, at: usize) -> u64
        ensures value { result ≡ slice_index self.now at }
        ensures few { length self.now ≤ 1024 }
    {
        match self.words.get(at) {
            Some(word) => *word,
            None => 0,
        }
    }
}
