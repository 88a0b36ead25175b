//! The rarer kinds of notes, runs of bytes and single places, after a recorder is closed.
ghost use Rattle.std.specs.Prelude.{◌≡◌, [], true, is_some, MatchBool};
ghost use Rattle.places.specs.View.{named};
ghost use Rattle.places.specs.Runs.{run_changes};
ghost use Rattle.places.specs.RestOf.{rest_of};

use crate::notes::byte_changes::{ByteChanges, Stretches};
use crate::notes::odd::Odd;
use crate::notes::runs::ByteNotes;
use crate::place::Place;
use crate::value::Change;
use std::marker::Model;

/// Notes of bytes in runs, and notes of single places.
#[derive(Drop)]
pub struct Inner {
    pub(crate) bytes: ByteNotes,
    pub(crate) odd: Odd,
}

impl Inner {
    /// Returns whether there are no notes.
    pub fn is_empty(&self) -> bool
        ensures { MatchBool result ((self.now.bytes.runs ≡ []) × (self.now.odd.notes ≡ []))
            (¬ ((self.now.bytes.runs ≡ []) × (self.now.odd.notes ≡ []))) }
    {
        self.bytes.is_empty() && self.odd.is_empty()
    }

    /// Returns how many bytes of memory the notes take, this struct included.
    pub fn kept_bytes(&self) -> usize {
        size_of::<Inner>()
            .saturating_add(self.bytes.kept_bytes())
            .saturating_add(self.odd.kept_bytes())
    }
}

/// These notes after closing. If there are none, it is one word in size.
#[derive(Drop)]
pub struct Kept {
    pub(crate) inner: Option<Box<Inner>>,
}

impl Model for Kept {
    ghost use Rattle.places.specs.RestList.{RestList};

    ghost Value = { RestList };

    ghost use Rattle.places.specs.RestOf.{rest_of};

    ghost view = { λ a. rest_of a.inner };
}

impl Kept {
    /// Returns no notes. Allocates nothing.
    pub fn new() -> Kept
        ensures runs { result.runs ≡ [] }
        ensures olds { result.olds ≡ [] }
        ensures odd { result.odd ≡ [] }
    {
        Kept { inner: None }
    }

    /// Wraps closed notes, and frees the memory that they do not use.
    pub fn from_inner(mut inner: Option<Box<Inner>>) -> Kept
        ensures runs { result.runs ≡ (rest_of inner).runs }
        ensures olds { result.olds ≡ (rest_of inner).olds }
        ensures odd { result.odd ≡ (rest_of inner).odd }
    {
        if let Some(inner) = &mut inner {
            inner.bytes.shrink();
            inner.odd.shrink();
        }
        Kept { inner }
    }

    /// Returns an iterator over the old bytes.
    pub fn bytes(&self) -> ByteChanges<'_>
        ensures { result.left ≡ run_changes self.now.runs self.now.olds }
    {
        match &self.inner {
            None => ByteChanges::none(),
            Some(inner) => inner.bytes.changes(),
        }
    }

    /// Returns an iterator over the runs.
    pub fn stretches(&self) -> Stretches<'_>
        ensures { result.left ≡ run_changes self.now.runs self.now.olds }
    {
        match &self.inner {
            None => Stretches::none(),
            Some(inner) => inner.bytes.stretches(),
        }
    }

    /// Returns whether there are no notes of bytes.
    pub fn has_no_bytes(&self) -> bool
        ensures { result ≡ true → self.now.runs ≡ [] }
    {
        match &self.inner {
            None => true,
            Some(inner) => inner.bytes.is_empty(),
        }
    }

    /// Returns whether there are no notes of single places.
    pub fn has_no_odd(&self) -> bool
        ensures { result ≡ true → self.now.odd ≡ [] }
    {
        match &self.inner {
            None => true,
            Some(inner) => inner.odd.is_empty(),
        }
    }

    /// Returns the notes of single places.
    pub fn odd(&self) -> &[Change]
        ensures { result.now ≡ self.now.odd }
    {
        match &self.inner {
            None => &[],
            Some(inner) => inner.odd.as_slice(),
        }
    }

    /// Returns whether one of the notes of single places has this place.
    pub fn names(&self, place: Place) -> bool
        ensures { result ≡ is_some (named self.now.odd place) }
    {
        match &self.inner {
            None => false,
            Some(inner) => inner.odd.names(place),
        }
    }

    /// Returns how many bytes of memory the notes take, besides this struct.
    pub fn kept_bytes(&self) -> usize {
        match &self.inner {
            None => 0,
            Some(inner) => inner.kept_bytes(),
        }
    }
}
