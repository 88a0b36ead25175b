//! Notes of single places without a slot. A search looks at each of them.
ghost use Rattle.std.specs.Prelude.{◌≡◌, ◌≢◌, ◌+◌, ◌<◌, ◌≤◌, ◌∷◌, ◌++◌, [], None, OnOk, IsOk, is_some, MatchBool};
ghost use Rattle.std.specs.List.{list_any};
ghost use Rattle.places.specs.Places.{same_place};
ghost use Rattle.places.specs.View.{named, NamesOnce};
ghost use Rattle.places.specs.Closed.{KeptOf};

use crate::notes::slots::{drop_same, is_same_place};
use crate::part::At;
use crate::place::Place;
use crate::value::{Change, Value};
use std::alloc::{AllocError, Global};
use std::marker::Model;

/// Notes of any places, at most one for each place.
#[derive(Drop)]
pub struct Odd {
    notes: Vec<Change>,
}

impl Model for Odd {
    ghost use Rattle.std.specs.Prelude.{vec_len, vec_capacity, ◌-◌};
    ghost use Rattle.places.specs.RestList.{OddList};
    ghost use Rattle.places.specs.View.{NamesOnce};

    ghost Value = { OddList };

    ghost view = { λ a. record
        { notes = a.notes.items; spare = vec_capacity a.notes - vec_len a.notes } };

    ghost invariant = { λ a. NamesOnce a.notes.items };
}

impl Odd {
    /// Returns no notes. Allocates nothing.
    pub fn new(alloc: Global) -> Odd
        ensures { result.notes ≡ [] }
    {
        Odd {
            notes: Vec::new(alloc),
        }
    }

    /// Reserves memory for the next n notes.
    pub fn room(&mut self, n: usize) -> Result<(), AllocError>
        ensures notes { self.new.notes ≡ self.old.notes }
        ensures room { OnOk result (n ≤ self.new.spare) }
        ensures there { n ≤ self.old.spare → IsOk result }
        ensures spare { self.old.spare ≤ self.new.spare }
    {
        self.notes.reserve_exact(n)
    }

    /// Adds a note of a place that has none here. Its memory must be reserved.
    pub fn push(&mut self, place: Place, old: Option<Value>)
        requires room { 0 < self.old.spare }
        requires fresh { named self.old.notes place ≡ None }
        ensures notes { self.new.notes ≡ self.old.notes ++ record { place = place; old = old }
            ∷ [] }
        ensures spare { self.old.spare ≤ self.new.spare + 1 }
    {
        self.notes.push_reserved(Change { place, old });
    }

    /// Returns whether a place has a note.
    pub fn names(&self, place: Place) -> bool
        ensures { result ≡ is_some (named self.now.notes place) }
    {
        is_named(&self.notes, place)
    }

    /// Drops the notes whose place has its old value in `whole`.
    pub fn close<A: At>(&mut self, whole: &A)
        ensures kept { KeptOf (A.seen whole.now) self.old.notes self.new.notes }
        ensures once { NamesOnce self.old.notes }
    {
        drop_same(&mut self.notes, whole);
    }

    /// Frees the memory that no note uses.
    pub fn shrink(&mut self)
        ensures { self.new.notes ≡ self.old.notes }
    {
        self.notes.shrink_to_fit();
    }

    /// Removes all notes, and keeps the memory for later ones.
    pub fn clear(&mut self)
        ensures { self.new.notes ≡ [] }
    {
        self.notes.clear();
    }

    /// Returns whether there are no notes.
    pub fn is_empty(&self) -> bool
        ensures { MatchBool result (self.now.notes ≡ []) (self.now.notes ≢ []) }
    {
        self.notes.is_empty()
    }

    /// Returns the notes.
    pub fn as_slice(&self) -> &[Change]
        ensures { result.now ≡ self.now.notes }
    {
        &self.notes
    }

    /// Returns how many bytes of memory the notes take, besides this struct.
    pub fn kept_bytes(&self) -> usize {
        size_of::<Change>().saturating_mul(self.notes.capacity())
    }
}

fn is_named(notes: &[Change], place: Place) -> bool
    ensures { result ≡ list_any (λ c. same_place c.place place) notes.now }
{
    notes.iter().any(|c| is_same_place(c.place, place))
}
