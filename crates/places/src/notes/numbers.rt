//! Notes of places that hold an unsigned number.
ghost use Rattle.std.specs.Prelude.{◌≡◌, Some, true};
ghost use Rattle.places.specs.declared.value.Value.TheVariants.{Number};
ghost use Rattle.places.specs.Places.{is_number};
ghost use Rattle.places.specs.Slots.{number_place, number_slot, number_change};

use crate::notes::slots::{Slotted, differs};
use crate::packing::changes::put_number_change;
use crate::part::At;
use crate::place::Place;
use crate::value::{Change, Value};
use std::alloc::AllocError;

/// A place of a number, as its kind and index, with the old number.
#[derive(Clone, Copy)]
pub struct NumberNote {
    pub kind: u8,
    pub index: u32,
    pub old: u64,
}

impl NumberNote {
    /// Builds the note of a place.
    pub fn new(place: Place, old: u64) -> NumberNote
        requires { is_number place ≡ true }
        ensures { number_change result ≡ record { place = place; old = Some (Number old) } }
    {
        NumberNote {
            kind: place.kind(),
            index: place.index(),
            old,
        }
    }
}

/// Returns the place with this kind and index.
#[tactic(auto, unfolding(crate::specs::Slots::number_place))]
fn place_of_number(kind: u8, index: u32) -> Place
    ensures { result ≡ number_place kind index }
{
    match kind {
        0 => Place::SubmissionHead,
        1 => Place::SubmissionTail,
        2 => Place::SubmissionFlags,
        3 => Place::SubmissionDropped,
        4 => Place::CompletionHead,
        5 => Place::CompletionTail,
        6 => Place::Array(index),
        12 => Place::FileLength(index),
        13 => Place::DurableLength(index),
        14 => Place::Position(index),
        15 => Place::OpenMark(index),
        17 => Place::PutCount(index),
        18 => Place::TakenCount(index),
        19 => Place::EventCount(index),
        22 => Place::BacklogFront,
        23 => Place::Clock,
        24 => Place::Counted,
        _ => Place::ProgramCounter(index),
    }
}

/// Returns the slot of a place: odd slots for the words of the submission
/// array, even ones for others.
#[tactic(auto, unfolding(crate::specs::Slots::number_slot))]
fn slot_of(place: Place) -> usize
    ensures { result ≡ number_slot place }
{
    let kind = place.kind() as usize;
    let index = place.index() as usize;
    if kind == 6 {
        2 * index + 1
    } else {
        2 * (30 * index + kind)
    }
}

impl Slotted for NumberNote {
    ghost use Rattle.places.specs.Slots.{number_slot_of, number_change};
    ghost use Rattle.places.specs.SlotLaws.{one_number, one_number_slot};

    ghost slot = { number_slot_of };

    ghost change = { number_change };

    ghost one_place = { one_number };

    ghost one_slot = { one_number_slot };

    fn slot(&self) -> usize {
        slot_of(self.place())
    }

    fn place(&self) -> Place {
        place_of_number(self.kind, self.index)
    }

    fn change(&self) -> Change {
        Change {
            place: self.place(),
            old: Some(Value::Number(self.old)),
        }
    }

    fn pack(&self, out: &mut Vec<u8>) -> Result<(), AllocError> {
        put_number_change(out, self.place(), self.index, self.old)
    }

    fn differs<A: At>(&self, whole: &A) -> bool {
        match whole.number_at(self.place()) {
            Some(now) => now != self.old,
            None => differs(self.change(), whole),
        }
    }
}
