//! The list of checkpoints of a run.
ghost use Rattle.std.specs.Prelude.{◌≡◌, ◌<◌, ◌/◌, ◌++◌, [], length, slice_get, Some, IsOk, OnOk, OnErr};
ghost use Rattle.checkpoints.specs.Checkpoints.{no_states, nearest as nearest_to, IsNearest};

use machine::Snapshot;
use std::alloc::{AllocError, Global};
use std::marker::Model;

/// Checkpoints: copies of the states at moments 0, `every`, 2 * `every` and so on. It also stores
/// `window`, the greatest distance that a jump goes back by undoing single steps.
///
/// The list does not know the run: its caller adds the right states in order.
#[derive(Drop)]
pub struct Kept {
    every: u32,
    window: u32,
    states: Vec<Snapshot>,
}

impl Model for Kept {
    ghost use Rattle.checkpoints.specs.Checkpoints.{Checkpoints, Formed};

    ghost Value = { Checkpoints };

    ghost view = { λ k. record { every = k.every; window = k.window; states = k.states.items } };

    ghost invariant = { λ k. Formed k.every };
}

impl Kept {
    /// Returns an empty list. Allocates nothing.
    pub fn new(alloc: Global, every: u32, window: u32) -> Kept
        requires { 0 < every }
        ensures { result ≡ no_states every window }
    {
        Kept {
            every,
            window,
            states: Vec::new(alloc),
        }
    }

    /// Returns the distance between two checkpoints, in events.
    pub fn every(&self) -> u32
        ensures value { result ≡ self.now.every }
        ensures some { 0 < self.now.every }
    {
        self.every
    }

    /// Returns how many events a jump undoes at most, one by one.
    pub fn window(&self) -> u32
        ensures { result ≡ self.now.window }
    {
        self.window
    }

    /// Returns the number of checkpoints.
    pub fn len(&self) -> usize
        ensures { result ≡ length self.now.states }
    {
        self.states.len()
    }

    /// Appends copies of the states at the next multiples of `every`, in order. If the allocation
    /// fails, the list stays as it was and the copies are dropped.
    pub fn keep(&mut self, mut states: Vec<Snapshot>) -> Result<(), AllocError>
        ensures ok { OnOk result (self.new
            ≡ record self.old { states = self.old.states ++ states.items }) }
        ensures none { states.items ≡ [] → IsOk result }
        ensures err { OnErr result (self.new ≡ self.old) }
    {
        self.states.append(&mut states)
    }

    /// Returns the moment of the last checkpoint at or before a moment: a multiple of `every`.
    pub fn nearest(&self, moment: u32) -> u32
        ensures value { result ≡ nearest_to self.now.every moment }
        ensures greatest { IsNearest self.now.every moment result }
    {
        moment - moment % self.every
    }

    /// Returns the copy of that checkpoint, which must have been added.
    pub fn state(&self, moment: u32) -> &Snapshot
        requires { moment / self.now.every < length self.now.states }
        ensures { slice_get self.now.states (moment / self.now.every) ≡ Some result.now }
    {
        &self.states[(moment / self.every) as usize]
    }
}
