//! Sorted moments of a run.
ghost use Rattle.std.specs.Prelude.{◌≡◌, ◌<◌, ◌≤◌, [], length, slice_get};
ghost use Rattle.std.specs.List.Sorted.{IsNonDecreasing, IsPartitionPoint};
ghost use Rattle.stops.specs.Nearest.{least_above, greatest_below, sorted, IsLeastAbove, IsGreatestBelow};

use std::alloc::Global;
use std::marker::Model;

/// Moments of a run, in ascending order.
#[derive(Drop)]
pub struct Moments {
    moments: Vec<usize>,
}

impl Model for Moments {
    ghost use Rattle.std.specs.Prelude.{ℕ, List};
    ghost use Rattle.std.specs.List.Sorted.{IsNonDecreasing};

    ghost Value = { List ℕ };

    ghost view = { λ a. a.moments.items };

    ghost invariant = { λ a. IsNonDecreasing a.moments.items };
}

impl Moments {
    /// Returns no moments. Allocates nothing.
    pub fn new(alloc: Global) -> Moments
        ensures { result ≡ [] }
    {
        Moments {
            moments: Vec::new(alloc),
        }
    }

    /// Sorts moments.
    pub fn from_vec(moments: Vec<usize>) -> Moments
        ensures { result ≡ sorted moments.items }
    {
        let mut moments = moments;
        moments.sort_unstable();
        Moments { moments }
    }

    /// Returns the moments, in ascending order.
    pub fn as_slice(&self) -> &[usize]
        ensures { result.now ≡ self.now }
    {
        self.moments.as_slice()
    }

    /// Returns the least moment above a position.
    pub fn above(&self, at: usize) -> Option<usize>
        ensures least { result ≡ least_above self.now at }
        ensures meaning { IsLeastAbove self.now at result }
    {
        let index = count_to(&self.moments, at);
        element(&self.moments, index)
    }

    /// Returns the greatest moment below a position.
    pub fn below(&self, at: usize) -> Option<usize>
        ensures greatest { result ≡ greatest_below self.now at }
        ensures meaning { IsGreatestBelow self.now at result }
    {
        let index = count_below(&self.moments, at);
        if index == 0 {
            return None;
        }
        element(&self.moments, index - 1)
    }
}

fn element(moments: &[usize], index: usize) -> Option<usize>
    ensures { result ≡ slice_get moments.now index }
{
    moments.get(index).copied()
}

// Returns how many of some ascending moments are at most a position.
fn count_to(moments: &[usize], at: usize) -> usize
    requires { IsNonDecreasing moments.now }
    ensures bound { result ≤ length moments.now }
    ensures point { IsPartitionPoint (λ m. m ≤ at) (λ m. at < m) moments.now result }
{
    moments.partition_point(|moment| *moment <= at)
}

// Returns how many of some ascending moments are below a position.
fn count_below(moments: &[usize], at: usize) -> usize
    requires { IsNonDecreasing moments.now }
    ensures bound { result ≤ length moments.now }
    ensures point { IsPartitionPoint (λ m. m < at) (λ m. at ≤ m) moments.now result }
{
    moments.partition_point(|moment| *moment < at)
}
