//! The rarer kinds of notes, runs of bytes and single places, while a recorder is open.
ghost use Rattle.std.specs.Prelude.{◌≡◌, ◌+◌, ◌<◌, ◌≤◌, ◌^◌, ◌∷◌, ◌++◌, [], ℕ, length, None, OnOk, OnErr, IsOk, is_some};
ghost use Rattle.places.specs.View.{named, NamesOnce};
ghost use Rattle.places.specs.Closed.{KeptOf};
ghost use Rattle.places.specs.Runs.{place_in, run_changes, NotedBytes, AllKept};

use crate::notes::kept::{Inner, Kept};
use crate::notes::odd::Odd;
use crate::notes::runs::{ByteNotes, Region};
use crate::part::At;
use crate::place::Place;
use crate::value::Value;
use std::alloc::{AllocError, Global};
use std::marker::Model;
use std::mem;

/// Notes of bytes and of single places. If there are none, it is one word in size.
#[derive(Drop)]
pub struct Rest {
    pub(crate) inner: Option<Box<Inner>>,
}

impl Model for Rest {
    ghost use Rattle.places.specs.RestList.{RestList};

    ghost Value = { RestList };

    ghost use Rattle.places.specs.RestOf.{rest_of, IsOpen};

    ghost view = { λ a. rest_of a.inner };

    ghost invariant = { λ a. IsOpen a.inner };
}

impl Rest {
    /// Returns no notes. Allocates nothing.
    pub fn new() -> Rest
        ensures runs { result.runs ≡ [] }
        ensures olds { result.olds ≡ [] }
        ensures odd { result.odd ≡ [] }
    {
        Rest { inner: None }
    }

    /// Reserves memory for the next n notes of single places.
    #[inline(always)]
    pub fn room(&mut self, alloc: Global, n: usize) -> Result<(), AllocError>
        ensures runs { self.new.runs ≡ self.old.runs }
        ensures olds { self.new.olds ≡ self.old.olds }
        ensures odd { self.new.odd ≡ self.old.odd }
        ensures room { OnOk result (n ≤ self.new.spare) }
        ensures there { n ≤ self.old.spare → IsOk result }
        ensures spare { self.old.spare ≤ self.new.spare }
    {
        match &mut self.inner {
            Some(inner) => inner.odd.room(n),
            None => {
                if n > 0 {
                    let mut odd = Odd::new(alloc);
                    odd.room(n)?;
                    let bytes = ByteNotes::new(alloc);
                    self.inner = Some(Box::new(alloc, Inner { bytes, odd })?);
                }
                Ok(())
            }
        }
    }

    /// Adds a note of a single place that has none here. Its memory must be reserved.
    pub fn push(&mut self, place: Place, old: Option<Value>)
        requires room { 0 < self.old.spare }
        requires fresh { named self.old.odd place ≡ None }
        ensures runs { self.new.runs ≡ self.old.runs }
        ensures olds { self.new.olds ≡ self.old.olds }
        ensures odd { self.new.odd ≡ self.old.odd ++ record { place = place; old = old } ∷ [] }
        ensures spare { self.old.spare ≤ self.new.spare + 1 }
    {
        if let Some(inner) = &mut self.inner {
            inner.odd.push(place, old);
        }
    }

    /// Records a run of old bytes, none of which is recorded. If an allocation
    /// fails, nothing is recorded.
    pub fn note_bytes(
        &mut self,
        alloc: Global,
        region: Region,
        start: u32,
        old: &[u8],
    ) -> Result<(), AllocError>
        requires fresh { (i : ℕ) → i < length old.now
            → named (run_changes self.old.runs self.old.olds) (place_in region (start + i)) ≡ None }
        requires within { start + length old.now ≤ 2 ^ 32 }
        ensures ok { OnOk result
            (NotedBytes (run_changes self.old.runs self.old.olds)
            (run_changes self.new.runs self.new.olds) region start old.now) }
        ensures runs { OnErr result (self.new.runs ≡ self.old.runs) }
        ensures olds { OnErr result (self.new.olds ≡ self.old.olds) }
        ensures odd { self.new.odd ≡ self.old.odd }
        ensures kept { AllKept self.old.olds → AllKept self.new.olds }
        ensures spare { self.old.spare ≤ self.new.spare }
    {
        match &mut self.inner {
            Some(inner) => inner.bytes.note(region, start, old),
            None => {
                let mut bytes = ByteNotes::new(alloc);
                bytes.note(region, start, old)?;
                let odd = Odd::new(alloc);
                self.inner = Some(Box::new(alloc, Inner { bytes, odd })?);
                Ok(())
            }
        }
    }

    /// Returns whether a place has a note of its own.
    pub fn names(&self, place: Place) -> bool
        ensures { result ≡ is_some (named self.now.odd place) }
    {
        match &self.inner {
            None => false,
            Some(inner) => inner.odd.names(place),
        }
    }

    /// Returns whether a place is a byte in a run.
    pub fn covers(&self, place: Place) -> bool
        ensures { AllKept self.now.olds
            → result ≡ is_some (named (run_changes self.now.runs self.now.olds) place) }
    {
        match &self.inner {
            None => false,
            Some(inner) => inner.bytes.covers(place),
        }
    }

    /// Removes all notes, and keeps the memory for later ones.
    pub fn forget(&mut self)
        ensures no_runs { self.new.runs ≡ [] }
        ensures no_olds { self.new.olds ≡ [] }
        ensures no_odd { self.new.odd ≡ [] }
    {
        if let Some(inner) = &mut self.inner {
            inner.bytes.clear();
            inner.odd.clear();
        }
    }

    /// Removes and returns the notes whose place has another value in `whole`. If none has, the
    /// memory stays here for later notes.
    pub fn close<A: At>(&mut self, whole: &A) -> Kept
        ensures bytes { KeptOf (A.seen whole.now) (run_changes self.old.runs self.old.olds)
            (run_changes result.runs result.olds) }
        ensures odd { KeptOf (A.seen whole.now) self.old.odd result.odd }
        ensures bytes_once { NamesOnce (run_changes self.old.runs self.old.olds) }
        ensures odd_once { NamesOnce self.old.odd }
        ensures no_runs { self.new.runs ≡ [] }
        ensures no_olds { self.new.olds ≡ [] }
        ensures no_odd { self.new.odd ≡ [] }
    {
        if let Some(inner) = &mut self.inner {
            if !inner.is_empty() {
                inner.bytes.close(whole);
                inner.odd.close(whole);
            }
            if inner.is_empty() {
                inner.bytes.clear();
                return Kept::new();
            }
        }
        Kept::from_inner(mem::replace(&mut self.inner, None))
    }
}
