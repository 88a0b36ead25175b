//! The places of a state, other than bytes, by what they are numbered by.
#![tactic(auto)]

ghost use Rattle.std.specs.Prelude.{◌≡◌};
ghost use Rattle.state_places.specs.Lists.{lone_places, places_of_slot, places_of_part, places_of_request};

use places::Place;

/// One more than the largest number of a slot: the size of the largest completion ring.
pub const SLOTS: u32 = 8192;

/// One more than the largest number of an object, a descriptor or a thread.
pub const PARTS: u32 = 128;

/// One more than the largest number of a request or an overflowed completion, or index of a byte.
pub const REQUESTS: u32 = 65536;

/// Returns the places without a number.
pub fn lone_places() -> [Place; 10]
    ensures { result ≡ lone_places }
{
    [
        Place::SubmissionHead,
        Place::SubmissionTail,
        Place::SubmissionFlags,
        Place::SubmissionDropped,
        Place::CompletionHead,
        Place::CompletionTail,
        Place::BacklogFront,
        Place::Clock,
        Place::Counted,
        Place::PollerStage,
    ]
}

/// Returns the places of a slot of the rings.
pub fn places_of_slot(number: u32) -> [Place; 3]
    ensures { result ≡ places_of_slot number }
{
    [
        Place::Array(number),
        Place::Slot(number),
        Place::Completion(number),
    ]
}

/// Returns the places of an object, of a descriptor and of a thread with a number.
pub fn places_of_part(number: u32) -> [Place; 11]
    ensures { result ≡ places_of_part number }
{
    [
        Place::FileLength(number),
        Place::DurableLength(number),
        Place::PutCount(number),
        Place::TakenCount(number),
        Place::EventCount(number),
        Place::Position(number),
        Place::OpenMark(number),
        Place::ProgramCounter(number),
        Place::ThreadStage(number),
        Place::Last(number),
        Place::Got(number),
    ]
}

/// Returns the places of a request and of an overflowed completion with a number.
pub fn places_of_request(number: u32) -> [Place; 2]
    ensures { result ≡ places_of_request number }
{
    [Place::Request(number), Place::Backlog(number)]
}
