//! Undo records: the places that a step changed, with their old values.
ghost use Rattle.std.specs.Prelude.{◌≡◌, ◌∷◌, ◌++◌, [], map, is_some, true, MatchOption, None};
ghost use Rattle.places.specs.View.{named, NamesOnce};
ghost use Rattle.places.specs.Heads.{number_was};
ghost use Rattle.places.specs.declared.listed.Listed.TheVariants.{Requests, Overflowed};
ghost use Rattle.places.specs.Notes.{IsLeft, left};
ghost use Rattle.places.specs.Slots.{row_change};
ghost use Rattle.places.specs.All.{all_changes, record_changes};
ghost use Rattle.places.specs.Summaries.{Summed};

use crate::listed::Listed;
use crate::notes::byte_changes::{ByteChanges, Stretches};
use crate::notes::completions::CompletionNote;
use crate::notes::kept::Kept;
use crate::notes::leaving::left_after;
use crate::notes::more::More;
use crate::notes::numbers::NumberNote;
use crate::notes::rows::RowNote;
use crate::notes::slots::{Slotted, either, names_place};
use crate::notes::wide::Wide;
use crate::packing::changes::PackedChanges;
use crate::packing::packed::Packed;
use crate::place::Place;
use crate::summary::has_place;
use crate::value::Change;
use std::marker::Model;

/// The undo record of one step: each place whose value changed, once, with its old value. Notes of
/// numbers, completions and rows are packed; if packing failed, they are stored as they were made.
#[derive(Drop)]
pub struct Record {
    packed: Packed,
    more: More,
    /// The bits of the places.
    summary: u64,
}

impl Model for Record {
    ghost use Rattle.std.specs.Prelude.{List};
    ghost use Rattle.places.specs.declared.value.Change.{Change};
    ghost use Rattle.places.specs.View.{NamesOnce};
    ghost use Rattle.places.specs.All.{record_changes};
    ghost use Rattle.places.specs.Summaries.{Summed};

    ghost Value = { List Change };

    ghost view = { λ a. record_changes a.packed a.more.wide a.more.rest };

    ghost invariant = { λ a. NamesOnce (record_changes a.packed a.more.wide a.more.rest)
        × Summed a.summary (record_changes a.packed a.more.wide a.more.rest) };
}

/// An iterator over the changes of a record.
#[derive(Drop)]
pub struct Changes<'a> {
    packed: PackedChanges<'a>,
    numbers: &'a [NumberNote],
    completions: &'a [CompletionNote],
    rows: &'a [RowNote],
    bytes: ByteChanges<'a>,
    odd: &'a [Change],
}

impl<'a> Model for Changes<'a> {
    ghost use Rattle.std.specs.Prelude.{List, ◌++◌};
    ghost use Rattle.places.specs.declared.value.Change.{Change};
    ghost use Rattle.places.specs.All.{kind_changes};

    ghost Value = { List Change };

    ghost view = { λ a. a.packed
        ++ (kind_changes a.numbers.now a.completions.now a.rows.now a.bytes.left ++ a.odd.now) };
}

impl<'a> Changes<'a> {
    /// Returns the next change.
    pub fn next(&mut self) -> Option<Change>
        ensures yields { MatchOption result (self.old ≡ []) (λ c. self.old ≡ c ∷ self.new) }
        ensures none { result ≡ None → self.new ≡ [] }
    {
        if let Some(change) = self.packed.next() {
            return Some(change);
        }
        if let [first, rest @ ..] = self.numbers {
            self.numbers = rest;
            return Some(first.change());
        }
        if let [first, rest @ ..] = self.completions {
            self.completions = rest;
            return Some(first.change());
        }
        if let [first, rest @ ..] = self.rows {
            self.rows = rest;
            return Some(first.change());
        }
        if let Some(change) = self.bytes.next() {
            return Some(change);
        }
        match self.odd {
            [] => None,
            [first, rest @ ..] => {
                self.odd = rest;
                Some(*first)
            }
        }
    }

    /// Returns the place and old number of the next change, if it is packed and its old value is a
    /// number. Otherwise it consumes nothing.
    pub fn next_number(&mut self) -> Option<(Place, u64)>
        ensures { MatchOption result (self.new ≡ self.old)
            (λ n. self.old ≡ number_was n.0 n.1 ∷ self.new) }
    {
        self.packed.next_number()
    }
}

impl Record {
    #[inline(always)]
    pub(crate) fn from_parts(packed: Packed, wide: Wide, rest: Kept, summary: u64) -> Record
        requires once { NamesOnce (record_changes packed wide rest) }
        requires summed { Summed summary (record_changes packed wide rest) }
        ensures { result ≡ record_changes packed wide rest }
    {
        Record {
            packed,
            more: More::new(wide, rest),
            summary,
        }
    }

    /// Returns an iterator over the changes, each of another place.
    pub fn changes(&self) -> Changes<'_>
        ensures value { result ≡ self.now }
        ensures once { NamesOnce self.now }
    {
        Changes {
            packed: self.packed.changes(),
            numbers: self.more.numbers(),
            completions: self.more.completions(),
            rows: self.more.rows(),
            bytes: self.more.bytes(),
            odd: self.more.odd(),
        }
    }

    /// Returns the changes as three iterators: numbers, completions and rows; runs
    /// of bytes; single places.
    pub fn parts(&self) -> (Changes<'_>, Stretches<'_>, Changes<'_>)
        ensures value { self.now ≡ result.0 ++ (result.1.left ++ result.2) }
        ensures once { NamesOnce self.now }
    {
        let kinds = Changes {
            packed: self.packed.changes(),
            numbers: self.more.numbers(),
            completions: self.more.completions(),
            rows: self.more.rows(),
            bytes: ByteChanges::none(),
            odd: &[],
        };
        let others = Changes {
            packed: PackedChanges::none(),
            numbers: &[],
            completions: &[],
            rows: &[],
            bytes: ByteChanges::none(),
            odd: self.more.odd(),
        };
        (kinds, self.more.stretches(), others)
    }

    /// Returns whether the record may name a place. One test of bits, which is true for each place
    /// that the record names, and for few others.
    pub fn may_name(&self, place: Place) -> bool
        ensures { is_some (named self.now place) ≡ true → result ≡ true }
    {
        has_place(self.summary, place)
    }

    /// Returns whether the record names a place.
    pub fn names(&self, place: Place) -> bool
        ensures { result ≡ is_some (named self.now place) }
    {
        let by_slot = either(
            names_place(self.more.completions(), place),
            names_place(self.more.rows(), place),
        );
        let by_kind = either(
            self.more.names_byte(place),
            either(names_place(self.more.numbers(), place), by_slot),
        );
        let mut packed = self.packed.changes();
        either(packed.names(place), either(self.more.names(place), by_kind))
    }

    /// Drops the record.
    pub fn discard(self) {
        drop(self);
    }

    /// Returns how many of `rows` requests and of `backlog` overflowed completions remain after
    /// undoing the record. An element that was absent is removed with all after it.
    pub fn lengths_left(&self, rows: usize, backlog: usize) -> (usize, usize)
        ensures rows { IsLeft Requests self.now rows result.0 }
        ensures backlog { IsLeft Overflowed self.now backlog result.1 }
    {
        let (rows_left, backlog_left) = self.packed.lengths_left(rows, backlog);
        (
            left_unpacked(Listed::Requests, &self.more, rows_left),
            left_unpacked(Listed::Overflowed, &self.more, backlog_left),
        )
    }

    /// Returns how many bytes of memory the record takes, this struct included.
    pub fn kept_bytes(&self) -> usize {
        size_of::<Record>()
            .saturating_add(self.packed.kept_bytes())
            .saturating_add(self.more.kept_bytes())
    }
}

fn left_unpacked(list: Listed, more: &More, n: usize) -> usize
    ensures { result ≡ left list (all_changes more.now.wide.numbers more.now.wide.completions
        more.now.wide.rows more.now.rest) n }
{
    left_by(list, more.odd(), left_of(list, more.rows(), n))
}

fn left_of(list: Listed, rows: &[RowNote], n: usize) -> usize
    ensures { result ≡ left list (map row_change rows.now) n }
{
    let mut left = n;
    for note in rows {
        left = note.left_after(list, left);
    }
    left
}

fn left_by(list: Listed, changes: &[Change], n: usize) -> usize
    ensures { result ≡ left list changes.now n }
{
    let mut left = n;
    for change in changes {
        left = left_after(list, *change, left);
    }
    left
}
