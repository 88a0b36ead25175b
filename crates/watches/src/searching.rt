//! Searches the undo records of a run for the event that stops a walk.
ghost use Rattle.std.specs.Prelude.{◌≡◌, ◌+◌, ◌<◌, ◌≤◌, ◌↔◌, [], Some, length, IsTrue, IsOk, IfOk, MatchBool};
ghost use Rattle.std.specs.List.{list_any};
ghost use Rattle.places.specs.View.{Exact, named};
ghost use Rattle.watches.specs.Stops.{names, seen, reverse_stop, forward_stop, IsEarlier, IsLater, IsStop, Unmet};

use crate::stopping::Stop;
use crate::watched::{Break, Watches};
use inverse_log::Walker;
use places::{Place, Record, Value};
use std::alloc::AllocError;

/// Returns the latest moment before the position whose next event changes a watched place, or the
/// start. Reads the undo records and does not move.
pub fn earlier(walker: &Walker, watches: &Watches) -> Stop
    ensures stop { result ≡ reverse_stop walker.now watches.now.watchpoints }
    ensures meaning { IsEarlier walker.now watches.now.watchpoints result }
{
    earlier_among(walker, watches.places())
}

/// Returns the first moment after the position whose previous event changed a watched place, or
/// else met a break, or the end. Reads the undo records and does not move. It allocates only to
/// find the value of a break's place at the end of the run.
pub fn later(walker: &Walker, watches: &Watches) -> Result<Stop, AllocError>
    ensures stop { IfOk result (λ stop. stop ≡ forward_stop walker.now watches.now) }
    ensures meaning { IfOk result (IsLater walker.now watches.now) }
    ensures unbroken { watches.now.breakpoints ≡ [] → IsOk result }
    ensures none { walker.now.at ≡ length walker.now.events → IsOk result }
{
    for moment in walker.at()..walker.len() {
        let found = stop_after(walker, watches, moment)?;
        if let Some(stop) = found {
            return Ok(stop);
        }
    }
    Ok(Stop::End)
}

// Returns the latest moment before the position whose next event changes one of the places.
fn earlier_among(walker: &Walker, places: &[Place]) -> Stop
    ensures { IsEarlier walker.now places.now result }
{
    let mut moment = walker.at();
    while moment > 0 {
        moment -= 1;
        if names_any(record_of(walker, moment), places) {
            return Stop::Change(moment);
        }
    }
    Stop::Start
}

// Returns the stop of the event after a moment, if it stops a walk forward.
fn stop_after(walker: &Walker, watches: &Watches, moment: usize) -> Result<Option<Stop>, AllocError>
    requires { moment < length walker.now.events }
    ensures stop { IfOk result (IsStop walker.now watches.now moment) }
    ensures unbroken { watches.now.breakpoints ≡ [] → IsOk result }
{
    if names_any(record_of(walker, moment), watches.places()) {
        return Ok(Some(Stop::Change(moment + 1)));
    }
    let is_met = meets_any(walker, watches.breaks(), moment)?;
    if is_met {
        return Ok(Some(Stop::Met(moment + 1)));
    }
    Ok(None)
}

// Returns the undo record of the event after a moment.
fn record_of(walker: &Walker, moment: usize) -> &Record
    requires { moment < length walker.now.events }
    ensures exact { Exact (seen walker.now moment) (seen walker.now (moment + 1)) result.now }
    ensures few { moment < 1048576 }
{
    // Brings the limit on the length of a trace into the proof: the index fits.
    let _len = walker.len();
    &walker.records()[moment]
}

fn names_any(past: &Record, places: &[Place]) -> bool
    ensures { result ≡ list_any (names past.now) places.now }
{
    places.iter().any(|place| names_place(past, *place))
}

fn names_place(past: &Record, place: Place) -> bool
    ensures { result ≡ names past.now place }
{
    past.may_name(place) && past.names(place)
}

// Returns whether the event after a moment meets one of the breaks.
fn meets_any(walker: &Walker, breaks: &[Break], moment: usize) -> Result<bool, AllocError>
    requires { moment < length walker.now.events }
    ensures met { IfOk result (λ is_met. MatchBool is_met
        (Unmet walker.now breaks.now moment → ⊥) (Unmet walker.now breaks.now moment)) }
    ensures none { breaks.now ≡ [] → IsOk result }
{
    for stop in breaks {
        let is_met = meets(walker, stop, moment)?;
        if is_met {
            return Ok(true);
        }
    }
    Ok(false)
}

// Returns whether the event after a moment meets a break: it changes the place, to the value.
fn meets(walker: &Walker, stop: &Break, moment: usize) -> Result<bool, AllocError>
    requires { moment < length walker.now.events }
    ensures { IfOk result (λ is_met. MatchBool is_met
        ((seen walker.now (moment + 1) stop.now.place ≡ Some stop.now.value
        → seen walker.now moment stop.now.place ≡ Some stop.now.value) → ⊥)
        (seen walker.now (moment + 1) stop.now.place ≡ Some stop.now.value
        → seen walker.now moment stop.now.place ≡ Some stop.now.value)) }
{
    if !names_place(record_of(walker, moment), stop.place) {
        return Ok(false);
    }
    let found = value_at(walker, stop.place, moment + 1)?;
    Ok(is_value(found, stop.value))
}

fn is_value(found: Option<Value>, value: Value) -> bool
    ensures { IsTrue result ↔ (found ≡ Some value) }
{
    match found {
        Some(found) => found.equals(&value),
        None => false,
    }
}

// Returns the value of a place at a moment: the old value in the next record that names the place,
// or else the value at the end of the run.
fn value_at(walker: &Walker, place: Place, moment: usize) -> Result<Option<Value>, AllocError>
    requires { moment ≤ length walker.now.events }
    ensures { IfOk result (λ value. value ≡ seen walker.now moment place) }
{
    for next in moment..walker.len() {
        if let Some(old) = old_value(record_of(walker, next), place) {
            return Ok(old);
        }
    }
    let last = walker.last_state()?;
    Ok(last.value(place))
}

// Returns the old value of a place, if a record names it.
fn old_value(past: &Record, place: Place) -> Option<Option<Value>>
    ensures { result ≡ named past.now place }
{
    if !names_place(past, place) {
        return None;
    }
    let mut changes = past.changes();
    while let Some(change) = changes.next() {
        if change.place.equals(&place) {
            return Some(change.old);
        }
    }
    None
}
