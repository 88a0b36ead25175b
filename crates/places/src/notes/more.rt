//! The part of a record that is not packed.
ghost use Rattle.std.specs.Prelude.{◌≡◌, is_some};
ghost use Rattle.places.specs.View.{named};
ghost use Rattle.places.specs.Runs.{run_changes};

use crate::notes::byte_changes::{ByteChanges, Stretches};
use crate::notes::completions::CompletionNote;
use crate::notes::kept::{Inner, Kept};
use crate::notes::numbers::NumberNote;
use crate::notes::rows::RowNote;
use crate::notes::wide::{Kinds, Wide};
use crate::place::Place;
use crate::value::Change;
use std::marker::Model;

/// Which notes a record has besides its packed ones: none; only the rarer kinds; or all
/// kinds, if packing failed.
#[derive(Drop)]
pub enum Held {
    Nothing,
    Few(Box<Inner>),
    Each(Box<Kinds>),
}

/// Unpacked notes of a record, in at most one box.
#[derive(Drop)]
pub struct More {
    held: Held,
}

impl Model for More {
    ghost use Rattle.places.specs.MoreList.{MoreList};

    ghost Value = { MoreList };

    ghost use Rattle.places.specs.MoreOf.{more_of};

    ghost view = { λ a. more_of a.held };
}

impl More {
    /// Joins unpacked notes of numbers, completions and rows with those of the rarer
    /// kinds. Allocates nothing.
    #[inline(always)]
    pub fn new(wide: Wide, rest: Kept) -> More
        ensures wide { result.wide ≡ wide }
        ensures rest { result.rest ≡ rest }
    {
        match wide.kinds {
            Some(mut kinds) => {
                kinds.rest = rest;
                More {
                    held: Held::Each(kinds),
                }
            }
            None => match rest.inner {
                Some(inner) => More {
                    held: Held::Few(inner),
                },
                None => More {
                    held: Held::Nothing,
                },
            },
        }
    }

    pub fn numbers(&self) -> &[NumberNote]
        ensures { result.now ≡ self.now.wide.numbers }
    {
        match &self.held {
            Held::Each(kinds) => &kinds.numbers,
            _ => &[],
        }
    }

    pub fn completions(&self) -> &[CompletionNote]
        ensures { result.now ≡ self.now.wide.completions }
    {
        match &self.held {
            Held::Each(kinds) => &kinds.completions,
            _ => &[],
        }
    }

    pub fn rows(&self) -> &[RowNote]
        ensures { result.now ≡ self.now.wide.rows }
    {
        match &self.held {
            Held::Each(kinds) => &kinds.rows,
            _ => &[],
        }
    }

    /// Returns an iterator over the old bytes.
    pub fn bytes(&self) -> ByteChanges<'_>
        ensures { result.left ≡ run_changes self.now.rest.runs self.now.rest.olds }
    {
        match &self.held {
            Held::Nothing => ByteChanges::none(),
            Held::Few(inner) => inner.bytes.changes(),
            Held::Each(kinds) => kinds.rest.bytes(),
        }
    }

    /// Returns an iterator over the runs of bytes.
    pub fn stretches(&self) -> Stretches<'_>
        ensures { result.left ≡ run_changes self.now.rest.runs self.now.rest.olds }
    {
        match &self.held {
            Held::Nothing => Stretches::none(),
            Held::Few(inner) => inner.bytes.stretches(),
            Held::Each(kinds) => kinds.rest.stretches(),
        }
    }

    /// Returns the notes of single places.
    pub fn odd(&self) -> &[Change]
        ensures { result.now ≡ self.now.rest.odd }
    {
        match &self.held {
            Held::Nothing => &[],
            Held::Few(inner) => inner.odd.as_slice(),
            Held::Each(kinds) => kinds.rest.odd(),
        }
    }

    /// Returns whether one of the notes of single places has this place.
    pub fn names(&self, place: Place) -> bool
        ensures { result ≡ is_some (named self.now.rest.odd place) }
    {
        match &self.held {
            Held::Nothing => false,
            Held::Few(inner) => inner.odd.names(place),
            Held::Each(kinds) => kinds.rest.names(place),
        }
    }

    /// Returns whether a byte that is still recorded has this place.
    pub fn names_byte(&self, place: Place) -> bool
        ensures { result
            ≡ is_some (named (run_changes self.now.rest.runs self.now.rest.olds) place) }
    {
        let mut stretches = self.stretches();
        stretches.names(place)
    }

    /// Returns how many bytes of memory the notes take, besides this struct.
    pub fn kept_bytes(&self) -> usize {
        match &self.held {
            Held::Nothing => 0,
            Held::Few(inner) => inner.kept_bytes(),
            Held::Each(kinds) => kinds.kept_bytes(),
        }
    }
}
