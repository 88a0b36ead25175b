//! Thresholds of numbers, with minima of blocks, to find the least number whose threshold is
//! reached. The request table stores here the totals at which counting TIMEOUTs complete.
ghost use Rattle.std.specs.Prelude.{◌≡◌, ◌≢◌, ◌⊎◌, ℕ, ◌+◌, ◌-◌, ◌^◌, ◌<◌, ◌≤◌, ◌==◌, [], IfOk, IfSome, IfNone, OnOk, length, max, if◌then◌else◌};
ghost use Rattle.bit_sets.specs.Thresholds.{never, threshold_at, IsNextReached, NoneReachedFrom};

use crate::pieces::copied;
use std::alloc::{AllocError, Global};
use std::marker::Model;

/// A threshold that no total reaches: the number has none.
pub const NEVER: u32 = u32::MAX;

/// How many numbers share one minimum.
const BLOCK: usize = 256;

/// A threshold for each number below 65,536: `NEVER` past the end of the list. Contracts see it as
/// the list of thresholds.
#[derive(Drop)]
pub struct Thresholds {
    each: Vec<u32>,
    /// A lower bound of the thresholds of each block.
    minima: Vec<u32>,
    /// A lower bound of all thresholds.
    least: u32,
}

impl Model for Thresholds {
    ghost use Rattle.std.specs.Prelude.{ℕ, List};
    ghost use Rattle.bit_sets.specs.Thresholds.{Bounded};

    ghost Value = { List ℕ };

    ghost view = { λ a. a.each.items };

    ghost invariant = { λ a. Bounded a.each.items a.minima.items a.least };
}

impl Thresholds {
    /// Returns an empty list of thresholds. Allocates nothing.
    pub fn new(alloc: Global) -> Thresholds
        ensures { result ≡ [] }
    {
        Thresholds {
            each: Vec::new(alloc),
            minima: Vec::new(alloc),
            least: NEVER,
        }
    }

    /// Allocates the thresholds up to that of number k, each as `NEVER`, if they are missing. If an
    /// allocation fails, no threshold has changed.
    pub fn make_room(&mut self, k: usize) -> Result<(), AllocError>
        requires { k < 65536 }
        ensures ok { OnOk result (k < length self.new) }
        ensures len { length self.old ≤ length self.new }
        ensures at { (i : ℕ) → threshold_at self.new i ≡ threshold_at self.old i }
    {
        extend_to(&mut self.minima, k / BLOCK + 1)?;
        extend_to(&mut self.each, k + 1)
    }

    /// Sets the threshold of k, for which there must be room unless it is `NEVER`. Allocates
    /// nothing. Constant time if the threshold stays the same; otherwise it scans at most one block
    /// and the minima.
    pub fn write(&mut self, k: usize, threshold: u32)
        requires { (threshold ≡ never) ⊎ (k < length self.old) }
        ensures len { length self.new ≡ length self.old }
        ensures at { (i : ℕ) → threshold_at self.new i
            ≡ (if i == k then threshold else threshold_at self.old i) }
    {
        if k >= self.each.len() {
            return;
        }
        let old = self.each[k];
        if old == threshold {
            return;
        }
        self.each[k] = threshold;
        let block = k / BLOCK;
        let first = block * BLOCK;
        let end = self.each.len().min(first + BLOCK);
        let bound = self.minima[block];
        let minimum = bound_after(bound, old, k, &self.each, first, end);
        self.minima[block] = minimum;
        self.least = bound_after(self.least, bound, block, &self.minima, 0, self.minima.len());
    }

    /// Returns the least number at or above `from` whose threshold is at most `total`.
    /// Constant time if the total reaches no threshold at all; otherwise it skips each block
    /// of which it reaches none.
    pub fn next(&self, from: usize, total: u32) -> Option<usize>
        requires { total < 2 ^ 32 - 1 }
        ensures some { IfSome result (λ k. IsNextReached self.now total from k) }
        ensures none { IfNone result (NoneReachedFrom self.now total from) }
    {
        if total < self.least {
            return None;
        }
        for block in from / BLOCK..self.minima.len() {
            if self.minima[block] <= total {
                let first = from.max(block * BLOCK);
                let end = self.each.len().min((block + 1) * BLOCK);
                if let Some(k) = next_between(&self.each, first, end, total) {
                    return Some(k);
                }
            }
        }
        None
    }

    /// Copies the thresholds. Fails only if an allocation fails.
    pub fn copy(&self, alloc: Global) -> Result<Thresholds, AllocError>
        ensures { IfOk result (λ thresholds. thresholds ≡ self.now) }
    {
        Ok(Thresholds {
            each: copied(alloc, &self.each)?,
            minima: copied(alloc, &self.minima)?,
            least: self.least,
        })
    }
}

// Adds `NEVER` until there are n thresholds.
fn extend_to(thresholds: &mut Vec<u32>, n: usize) -> Result<(), AllocError>
    ensures ok { OnOk result (n ≤ length thresholds.new.items) }
    ensures len { length thresholds.old.items ≤ length thresholds.new.items }
    ensures most { length thresholds.new.items ≤ max (length thresholds.old.items) n }
    ensures at { (i : ℕ) → threshold_at thresholds.new.items i
        ≡ threshold_at thresholds.old.items i }
{
    if thresholds.len() < n {
        thresholds.resize(n, NEVER)?;
    }
    Ok(())
}

// Returns a lower bound of the thresholds from `from` to `end`, after that of k changed from `old`.
// Scans them only if the old threshold may have been the minimum.
fn bound_after(bound: u32, old: u32, k: usize, each: &[u32], from: usize, end: usize) -> u32
    requires there { k < length each.now }
    requires order { from ≤ end }
    requires within { end ≤ length each.now }
    requires others { (i : ℕ) → from ≤ i → i < end → i ≢ k → bound ≤ threshold_at each.now i }
    ensures { (i : ℕ) → from ≤ i → i < end → result ≤ threshold_at each.now i }
{
    let new = each[k];
    if new <= bound {
        return new;
    }
    if bound < old {
        return bound;
    }
    minimum(&each[from..end])
}

// Returns the least of some thresholds, or `NEVER` if there are none.
fn minimum(thresholds: &[u32]) -> u32
    ensures { (i : ℕ) → result ≤ threshold_at thresholds.now i }
{
    let mut least = NEVER;
    for threshold in thresholds {
        if *threshold < least {
            least = *threshold;
        }
    }
    least
}

// Returns the least number from `from` to `end` whose threshold is at most `total`.
fn next_between(thresholds: &[u32], from: usize, end: usize, total: u32) -> Option<usize>
    requires { end ≤ length thresholds.now }
    ensures some { IfSome result (λ k. IsNextReached thresholds.now total from k) }
    ensures none { IfNone result ((i : ℕ) → from ≤ i → i < end
        → total < threshold_at thresholds.now i) }
{
    for k in from..end {
        if thresholds[k] <= total {
            return Some(k);
        }
    }
    None
}
