//! Printing of the names of places.
ghost use Rattle.std.specs.Prelude.{◌≡◌, ◌++◌, Some, OnOk};
ghost use Rattle.scenario.specs.PlaceTexts.{word_of, is_word_of, owner_of, number_of, owner_text, number_text, place_text};

use crate::setup::Setup;
use places::Place;
use std::alloc::{AllocError, Global};

// Returns the first word of a place's name.
fn word_of(place: Place) -> &'static str
    ensures { result.now ≡ word_of place }
{
    match place {
        Place::SubmissionHead => "sq.head",
        Place::SubmissionTail => "sq.tail",
        Place::SubmissionFlags => "sq.flags",
        Place::SubmissionDropped => "sq.dropped",
        Place::CompletionHead => "cq.head",
        Place::CompletionTail => "cq.tail",
        Place::Array(_) => "array",
        Place::Slot(_) => "slot",
        Place::Completion(_) => "cqe",
        Place::MemoryByte(_) => "mem",
        Place::FileByte(_, _) => "file",
        Place::DurableByte(_, _) => "durable",
        Place::FileLength(_) => "len",
        Place::DurableLength(_) => "dlen",
        Place::Position(_) => "pos",
        Place::OpenMark(_) => "open",
        Place::PipeByte(_, _) => "pipe",
        Place::PutCount(_) => "put",
        Place::TakenCount(_) => "taken",
        Place::EventCount(_) => "event",
        Place::Request(_) => "row",
        Place::Backlog(_) => "backlog",
        Place::BacklogFront => "bfront",
        Place::Clock => "clock",
        Place::Counted => "counted",
        Place::PollerStage => "poller",
        Place::ProgramCounter(_) => "pc",
        Place::ThreadStage(_) => "stage",
        Place::Last(_) => "last",
        Place::Got(_) => "got",
    }
}

/// Returns whether a word is the first word of a place's name.
pub(crate) fn is_word_of(word: &[u8], place: Place) -> bool
    ensures { result ≡ is_word_of word.now place }
{
    word == word_of(place).as_bytes()
}

// Returns the object that a place belongs to, if its name says so.
fn owner_of(place: Place) -> Option<u32>
    ensures { result ≡ owner_of place }
{
    match place {
        Place::FileByte(object, _)
        | Place::DurableByte(object, _)
        | Place::PipeByte(object, _)
        | Place::FileLength(object)
        | Place::DurableLength(object)
        | Place::PutCount(object)
        | Place::TakenCount(object)
        | Place::EventCount(object) => Some(object),
        _ => None,
    }
}

/// Returns the number at the end of a place's name, if it has one.
pub fn number_of(place: Place) -> Option<u32>
    ensures { result ≡ number_of place }
{
    match place {
        Place::Array(number)
        | Place::Slot(number)
        | Place::Completion(number)
        | Place::MemoryByte(number)
        | Place::FileByte(_, number)
        | Place::DurableByte(_, number)
        | Place::Position(number)
        | Place::OpenMark(number)
        | Place::PipeByte(_, number)
        | Place::Request(number)
        | Place::Backlog(number)
        | Place::ProgramCounter(number)
        | Place::ThreadStage(number)
        | Place::Last(number)
        | Place::Got(number) => Some(number),
        _ => None,
    }
}

// Writes an object's name after a space.
fn put_owner(out: &mut Vec<u8>, setup: &Setup, object: u32) -> Result<(), AllocError>
    ensures { OnOk result (out.new.items ≡ out.old.items ++ owner_text setup.now (Some object)) }
{
    out.extend_from_slice(b" ")?;
    match setup.objects.as_slice().get(object as usize) {
        Some(object) => out.extend_from_slice(object.name.as_slice()),
        None => Ok(()),
    }
}

/// Writes a number after a text.
pub fn put_number(
    alloc: Global,
    out: &mut Vec<u8>,
    before: &str,
    number: u32,
) -> Result<(), AllocError>
    ensures { OnOk result (out.new.items ≡ out.old.items
        ++ number_text before.entry.now (Some number)) }
{
    let text = format!(in alloc; "{before}{number}")?;
    out.extend_from_slice(text.as_bytes())
}

/// Writes a place's name, as the commands of a session spell it.
pub fn put_place(
    alloc: Global,
    out: &mut Vec<u8>,
    setup: &Setup,
    place: Place,
) -> Result<(), AllocError>
    ensures { OnOk result (out.new.items ≡ out.old.items ++ place_text setup.now place) }
{
    out.extend_from_slice(word_of(place).as_bytes())?;
    if let Some(object) = owner_of(place) {
        put_owner(out, setup, object)?;
    }
    match number_of(place) {
        Some(number) => put_number(alloc, out, " ", number),
        None => Ok(()),
    }
}
