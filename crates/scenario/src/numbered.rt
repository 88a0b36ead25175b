//! Names of places that consist of a word and a number.
ghost use Rattle.std.specs.Prelude.{◌≡◌};
ghost use Rattle.scenario.specs.Names.{kind_named, number_of, member_of, descriptor_at, is_open_file, completion_size};

use crate::limits::{completion_entries, ring_size};
use crate::names::{PlaceFault, read_number};
use crate::owned::{ObjectKind, is_of};
use crate::place_text::is_word_of;
use crate::setup::Setup;
use places::{Descriptor, Place};

/// A kind of place of which there are several, told apart by number.
#[derive(Clone, Copy)]
pub enum PlaceKind {
    Array,
    Slots,
    Completions,
    MemoryBytes,
    Positions,
    OpenMarks,
    Requests,
    Backlogs,
    ProgramCounters,
    Stages,
    Lasts,
    Gots,
}

const KINDS: [PlaceKind; 12] = [
    PlaceKind::Array,
    PlaceKind::Slots,
    PlaceKind::Completions,
    PlaceKind::MemoryBytes,
    PlaceKind::Positions,
    PlaceKind::OpenMarks,
    PlaceKind::Requests,
    PlaceKind::Backlogs,
    PlaceKind::ProgramCounters,
    PlaceKind::Stages,
    PlaceKind::Lasts,
    PlaceKind::Gots,
];

/// Returns the kind of place that a word followed by a number names. The first words of the places
/// of a kind are the same.
pub(crate) fn kind_of_name(name: &[u8]) -> Option<PlaceKind>
    ensures { result ≡ kind_named name.now }
{
    KINDS
        .iter()
        .find(|kind| is_word_of(name, kind.place(0)))
        .copied()
}

/// Returns the place of this kind with the number in `word`.
pub(crate) fn member(setup: &Setup, kind: PlaceKind, word: &[u8]) -> Result<Place, PlaceFault>
    ensures { result ≡ member_of setup.now kind (number_of word.now) }
{
    let Some(index) = read_number(word) else {
        return Err(PlaceFault::Number);
    };
    if kind.is_member(setup, index) {
        Ok(kind.place(index))
    } else {
        Err(PlaceFault::Place)
    }
}

impl PlaceKind {
    ghost use Rattle.scenario.specs.Names.{is_member, place_in};

    // Returns whether the place of this kind and number exists.
    fn is_member(self, setup: &Setup, index: u32) -> bool
        ensures { result ≡ is_member setup.now self index }
    {
        match self {
            PlaceKind::Array | PlaceKind::Slots => index < ring_size(setup.entries),
            PlaceKind::Completions => index < completion_size(setup),
            PlaceKind::MemoryBytes | PlaceKind::Requests | PlaceKind::Backlogs => index < 65536,
            PlaceKind::Positions => is_open_file(setup, index),
            PlaceKind::OpenMarks => descriptor_at(setup, index).is_some(),
            PlaceKind::ProgramCounters | PlaceKind::Stages | PlaceKind::Lasts | PlaceKind::Gots => {
                (index as usize) < setup.threads.len()
            }
        }
    }

    fn place(self, index: u32) -> Place
        ensures { result ≡ place_in self index }
    {
        match self {
            PlaceKind::Array => Place::Array(index),
            PlaceKind::Slots => Place::Slot(index),
            PlaceKind::Completions => Place::Completion(index),
            PlaceKind::MemoryBytes => Place::MemoryByte(index),
            PlaceKind::Positions => Place::Position(index),
            PlaceKind::OpenMarks => Place::OpenMark(index),
            PlaceKind::Requests => Place::Request(index),
            PlaceKind::Backlogs => Place::Backlog(index),
            PlaceKind::ProgramCounters => Place::ProgramCounter(index),
            PlaceKind::Stages => Place::ThreadStage(index),
            PlaceKind::Lasts => Place::Last(index),
            PlaceKind::Gots => Place::Got(index),
        }
    }
}

// Returns how many slots the completion ring has.
fn completion_size(setup: &Setup) -> u32
    ensures { result ≡ completion_size setup.now }
{
    ring_size(completion_entries(setup.entries, setup.cq))
}

// Returns the descriptor with a number. Descriptors are numbered from 3.
fn descriptor_at(setup: &Setup, number: u32) -> Option<Descriptor>
    ensures { result ≡ descriptor_at setup.now number }
{
    if number < 3 {
        return None;
    }
    setup.fds.as_slice().get(number as usize - 3).copied()
}

fn is_open_file(setup: &Setup, number: u32) -> bool
    ensures { result ≡ is_open_file setup.now (descriptor_at setup.now number) }
{
    let Some(descriptor) = descriptor_at(setup, number) else {
        return false;
    };
    match setup.objects.as_slice().get(descriptor.object as usize) {
        Some(object) => is_of(ObjectKind::File, &object.contents),
        None => false,
    }
}
