//! Typed values of places.
ghost use Rattle.std.specs.Prelude.{◌≡◌};
ghost use Rattle.finding_kinds.specs.{Common.DurableByte, Common.FileByte, Common.WellFormed, Common.view, Values.byte_in, Values.differ, Values.number_in};

use machine::State;
use places::{Place, Value};

/// Returns the number in a place, or None if the place holds no number.
pub fn number_at(state: &State, place: Place) -> Option<u64>
    ensures value { result ≡ number_in (view state.now place) }
    ensures formed { WellFormed state.now }
{
    match state.value(place) {
        Some(Value::Number(number)) => Some(number),
        _ => None,
    }
}

fn byte_at(state: &State, place: Place) -> Option<u8>
    ensures { result ≡ byte_in (view state.now place) }
{
    match state.value(place) {
        Some(Value::Byte(byte)) => Some(byte),
        _ => None,
    }
}

/// Returns whether a byte of a file differs from its durable value (fsync(2)). False if either is
/// absent.
pub fn differs_at(state: &State, object: u32, at: u32) -> bool
    ensures { result ≡ differ (byte_in (view state.now (FileByte object at)))
        (byte_in (view state.now (DurableByte object at))) }
{
    match (
        byte_at(state, Place::FileByte(object, at)),
        byte_at(state, Place::DurableByte(object, at)),
    ) {
        (Some(byte), Some(durable)) => byte != durable,
        _ => false,
    }
}
