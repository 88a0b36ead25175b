//! Notes of requests, and of the places that hold neither a number, a byte nor
//! a completion of the ring.
ghost use Rattle.std.specs.Prelude.{◌≡◌, ◌↔◌, ◌∷◌, [], Some, option_map, true, not, is_some, IsTrue, MatchOption, OnOk};
ghost use Rattle.entries.specs.declared.row.Row.{Row};
ghost use Rattle.places.specs.declared.value.Value.TheVariants.{Requested};
ghost use Rattle.places.specs.declared.place.Place.TheVariants.{Request};
ghost use Rattle.places.specs.Slots.{row_change, value_of, other_place, slot_at};
ghost use Rattle.places.specs.Places.{is_other, kind_of};
ghost use Rattle.places.specs.PlaceNumbers.{place_of};
ghost use Rattle.places.specs.Notes.{after_change};
ghost use Rattle.compact_size.specs.Reading.{Puts};
ghost use Rattle.places.specs.Packed.{change_of, after_change as after_packed};

use crate::listed::Listed;
use crate::notes::slots::{Slotted, differs};
use crate::packing::changes::{
    AWAKE, COMPLETION, ENTRY, REAPED, ROW, SIGNED, STAGE, put_absence, put_framed,
    put_number_change,
};
use crate::packing::values::{
    awake_numbers, completion_numbers, entry_numbers, reaped_numbers, row_numbers, signed_numbers,
    stage_numbers,
};
use crate::part::At;
use crate::place::Place;
use crate::value::{Change, Stage, Value};
use entries::{Cqe, Row, Sqe};
use std::alloc::AllocError;

/// Any value other than a row.
#[derive(Clone, Copy)]
pub enum Small {
    Amount(u64),
    Answer(i64),
    Octet(u8),
    Submitted(Sqe),
    Posted(Cqe),
    Next(Stage),
    Taken(Option<Cqe>),
    Up(bool),
}

/// A request that was absent, a request with its old row, or another place, as its kind and index,
/// with its old value if it had one.
#[derive(Clone, Copy)]
pub enum RowNote {
    Absent(u32),
    Was(u32, Row),
    Other(u8, u32, Option<Small>),
}

impl Small {
    /// Converts a value; returns `None` for a row.
    #[inline(always)]
    pub fn from_value(value: Value) -> Option<Small>
        ensures { MatchOption result ((row : Row)
            × (value ≡ Requested row)) (λ s. value_of s ≡ value) }
    {
        match value {
            Value::Number(n) => Some(Small::Amount(n)),
            Value::Signed(n) => Some(Small::Answer(n)),
            Value::Byte(b) => Some(Small::Octet(b)),
            Value::Entry(entry) => Some(Small::Submitted(entry)),
            Value::Completed(completion) => Some(Small::Posted(completion)),
            Value::Requested(_) => None,
            Value::Staged(stage) => Some(Small::Next(stage)),
            Value::Reaped(completion) => Some(Small::Taken(completion)),
            Value::Awake(awake) => Some(Small::Up(awake)),
        }
    }

    fn value(&self) -> Value
        ensures { result ≡ value_of self.now }
    {
        match self {
            Small::Amount(n) => Value::Number(*n),
            Small::Answer(n) => Value::Signed(*n),
            Small::Octet(b) => Value::Byte(*b),
            Small::Submitted(entry) => Value::Entry(*entry),
            Small::Posted(completion) => Value::Completed(*completion),
            Small::Next(stage) => Value::Staged(*stage),
            Small::Taken(completion) => Value::Reaped(*completion),
            Small::Up(awake) => Value::Awake(*awake),
        }
    }
}

impl RowNote {
    /// Builds the note of a request.
    #[inline(always)]
    pub fn new(row: u32, old: Option<Row>) -> RowNote
        ensures { row_change result
            ≡ record { place = Request row; old = option_map Requested old } }
    {
        match old {
            None => RowNote::Absent(row),
            Some(before) => RowNote::Was(row, before),
        }
    }

    /// Builds the note of another place.
    #[inline(always)]
    pub fn of_other(place: Place, old: Option<Small>) -> RowNote
        requires { is_other place ≡ true }
        ensures { row_change result ≡ record { place = place; old = option_map value_of old } }
    {
        RowNote::Other(place.kind(), place.index(), old)
    }

    /// Returns whether the place was absent.
    pub fn is_absence(&self) -> bool
        ensures { result ≡ not (is_some (row_change self.now).old) }
    {
        matches!(self, RowNote::Absent(_) | RowNote::Other(_, _, None))
    }

    /// Returns how many of `left` elements of a list remain after undoing this note. An element
    /// that was absent is removed with all after it.
    #[tactic(auto, unfolding(crate::specs::Slots::other_place))]
    pub fn left_after(&self, list: Listed, left: usize) -> usize
        ensures { result ≡ after_change list (row_change self.now).place
            (row_change self.now).old left }
    {
        match (list, self) {
            (Listed::Requests, RowNote::Absent(row)) => left.min(*row as usize),
            (Listed::Overflowed, RowNote::Other(21, index, None)) => left.min(*index as usize),
            _ => left,
        }
    }
}

#[tactic(auto, unfolding(crate::specs::Slots::other_place))]
fn place_of_other(kind: u8, index: u32) -> Place
    ensures { result ≡ other_place kind index }
{
    match kind {
        7 => Place::Slot(index),
        21 => Place::Backlog(index),
        25 => Place::PollerStage,
        27 => Place::ThreadStage(index),
        28 => Place::Last(index),
        _ => Place::Got(index),
    }
}

/// Returns the slot of a place. The slots modulo 4 are: requests 0, overflowed completions 1,
/// entry slots 2, all others 3.
#[tactic(auto, unfolding(crate::specs::Slots::slot_at))]
fn slot_of(place: Place) -> usize
    ensures { result ≡ slot_at place }
{
    let kind = place.kind() as usize;
    let index = place.index() as usize;
    match kind {
        20 => 4 * index,
        21 => 4 * index + 1,
        7 => 4 * index + 2,
        _ => 4 * (30 * index + kind) + 3,
    }
}

fn small_value(old: Option<Small>) -> Option<Value>
    ensures { result ≡ option_map value_of old }
{
    match old {
        None => None,
        Some(small) => Some(small.value()),
    }
}

// Returns whether `now` is the old value, or both are absent.
fn is_value(old: &Option<Small>, now: &Option<Value>) -> bool
    ensures { IsTrue result ↔ (option_map value_of old.now ≡ now.now) }
{
    match (old, now) {
        (None, None) => true,
        (Some(old), Some(now)) => old.value().equals(now),
        _ => false,
    }
}

/// Appends a place and its old value to packed bytes. A byte has no packed form: it is refused as
/// if an allocation failed, and the record then stays unpacked.
fn put_small(out: &mut Vec<u8>, place: Place, index: u32, old: &Small) -> Result<(), AllocError>
    requires { place_of (kind_of place) index 0 ≡ place }
    ensures { OnOk result (Puts change_of after_packed out.old.items
        (record { place = place; old = Some (value_of old.now) } ∷ []) out.new.items) }
{
    match old {
        Small::Amount(number) => put_number_change(out, place, index, *number),
        Small::Answer(number) => {
            put_framed(out, place, index, SIGNED, &signed_numbers(*number))?;
            Ok(())
        }
        Small::Octet(_) => Err(AllocError),
        Small::Submitted(entry) => {
            put_framed(out, place, index, ENTRY, &entry_numbers(*entry))?;
            Ok(())
        }
        Small::Posted(completion) => {
            put_framed(
                out,
                place,
                index,
                COMPLETION,
                &completion_numbers(*completion),
            )?;
            Ok(())
        }
        Small::Next(stage) => {
            put_framed(out, place, index, STAGE, &stage_numbers(*stage))?;
            Ok(())
        }
        Small::Taken(reaped) => {
            put_framed(out, place, index, REAPED, &reaped_numbers(*reaped))?;
            Ok(())
        }
        Small::Up(awake) => {
            put_framed(out, place, index, AWAKE, &awake_numbers(*awake))?;
            Ok(())
        }
    }
}

/// Appends a place and its old value, or that it had none, to packed bytes.
fn put_other(
    out: &mut Vec<u8>,
    place: Place,
    index: u32,
    old: &Option<Small>,
) -> Result<(), AllocError>
    requires { place_of (kind_of place) index 0 ≡ place }
    ensures { OnOk result (Puts change_of after_packed out.old.items
        (record { place = place; old = option_map value_of old.now } ∷ []) out.new.items) }
{
    match old {
        None => {
            put_absence(out, place, index)?;
            Ok(())
        }
        Some(small) => {
            put_small(out, place, index, small)?;
            Ok(())
        }
    }
}

impl Slotted for RowNote {
    ghost use Rattle.places.specs.Slots.{row_slot_of, row_change};
    ghost use Rattle.places.specs.SlotLaws.{one_row, one_row_slot};

    ghost slot = { row_slot_of };

    ghost change = { row_change };

    ghost one_place = { one_row };

    ghost one_slot = { one_row_slot };

    fn slot(&self) -> usize {
        slot_of(self.place())
    }

    fn place(&self) -> Place {
        match self {
            RowNote::Absent(row) | RowNote::Was(row, _) => Place::Request(*row),
            RowNote::Other(kind, index, _) => place_of_other(*kind, *index),
        }
    }

    fn change(&self) -> Change {
        match self {
            RowNote::Absent(row) => Change {
                place: Place::Request(*row),
                old: None,
            },
            RowNote::Was(row, old) => Change {
                place: Place::Request(*row),
                old: Some(Value::Requested(*old)),
            },
            RowNote::Other(kind, index, old) => Change {
                place: place_of_other(*kind, *index),
                old: small_value(*old),
            },
        }
    }

    fn pack(&self, out: &mut Vec<u8>) -> Result<(), AllocError> {
        match self {
            RowNote::Absent(row) => {
                put_absence(out, Place::Request(*row), *row)?;
                Ok(())
            }
            RowNote::Was(row, old) => {
                let Some(numbers) = row_numbers(*old) else {
                    return Err(AllocError);
                };
                put_framed(out, Place::Request(*row), *row, ROW, &numbers)?;
                Ok(())
            }
            RowNote::Other(kind, index, old) => {
                put_other(out, place_of_other(*kind, *index), *index, old)?;
                Ok(())
            }
        }
    }

    fn differs<A: At>(&self, whole: &A) -> bool {
        match self {
            RowNote::Absent(row) => whole.row_at(*row).is_some() || differs(self.change(), whole),
            RowNote::Was(row, old) => match whole.row_at(*row) {
                Some(now) => !now.equals(old),
                None => differs(self.change(), whole),
            },
            RowNote::Other(kind, index, old) => {
                !is_value(old, &whole.at(place_of_other(*kind, *index)))
            }
        }
    }
}
