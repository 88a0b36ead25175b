//! Replaces the schedule of a script's text.
ghost use Rattle.std.specs.Prelude.{◌≡◌, ◌++◌, ◌≤◌, ◌↔◌, Ok, length, IsTrue, IfOk, IfErr};
ghost use Rattle.script.specs.Scripts.{Scenario, Reads};
ghost use Rattle.rewriting.specs.Rewriting.{IsList, IsRewritten, IsUnreplaced, IsUnwritten};

use crate::fault::RewriteFault;
use crate::layout::{Layout, schedule_text};
use crate::place::{Place, place_of_schedule};
use scenario::{Event, Setup};
use script::{ScriptFault, read_script};
use serde_json::Value;
use std::alloc::{AllocError, Global};

/// The most bytes of a script.
const LIMIT: usize = 8_388_608;

/// More bytes than the layout uses for an event, and for the brackets.
const MOST_LINE: usize = 128;

// Returns whether bytes are a JSON list.
fn is_list(alloc: Global, bytes: &[u8]) -> Result<bool, AllocError>
    ensures { IfOk result (λ is. IsTrue is → IsList bytes.now) }
{
    match Value::from_slice(alloc, bytes) {
        Ok(value) => Ok(value.is_array()),
        Err(e) => {
            if e.is_memory() {
                return Err(AllocError);
            }
            Ok(false)
        }
    }
}

// Returns whether two lists of events are equal.
fn are_same_events(xs: &[Event], ys: &[Event]) -> bool
    ensures { IsTrue result ↔ (xs.now ≡ ys.now) }
{
    if xs.len() != ys.len() {
        return false;
    }
    for i in 0..xs.len() {
        if xs[i] != ys[i] {
            return false;
        }
    }
    true
}

// Returns whether a text is a script with this setup and these events.
fn is_script_of(
    alloc: Global,
    text: &[u8],
    setup: &Setup,
    events: &[Event],
) -> Result<bool, AllocError>
    ensures { IfOk result (λ is. IsTrue is → Reads text.now
        (Ok (record { setup = setup.now; schedule = events.now }))) }
{
    match read_script(alloc, text) {
        Ok(script) => {
            Ok(script.setup().equals(setup) && are_same_events(script.schedule(), events))
        }
        Err(ScriptFault::Memory) => Err(AllocError),
        Err(_) => Ok(false),
    }
}

// Returns the text of a place with another value.
fn replaced(alloc: Global, place: Place<'_>, value: &[u8]) -> Result<Vec<u8>, AllocError>
    ensures { IfOk result (λ made. made.items
        ≡ place.entry.before.now ++ (value.now ++ place.entry.after.now)) }
{
    let mut made = Vec::from_slice(alloc, place.before)?;
    made.extend_from_slice(value)?;
    made.extend_from_slice(place.after)?;
    Ok(made)
}

// Returns the fault of a result that is longer than a script.
fn excess_fault(text: &[u8], events: &[Event]) -> RewriteFault
    requires few { length events.now ≤ 65536 }
    ensures { IsUnreplaced text.now events.now result }
{
    if text.len() > LIMIT || text.len() + MOST_LINE * (events.len() + 1) > LIMIT {
        RewriteFault::TooLong
    } else {
        RewriteFault::Place
    }
}

/// Replaces the schedule of a script with this setup.
pub(crate) fn rewritten(
    alloc: Global,
    text: &[u8],
    setup: &Setup,
    events: &[Event],
) -> Result<Vec<u8>, RewriteFault>
    requires few { length events.now ≤ 65536 }
    ensures ok { IfOk result (λ made. IsRewritten text.now setup.now events.now made.items) }
    ensures err { IfErr result (IsUnreplaced text.now events.now) }
{
    let Some(place) = place_of_schedule(alloc, text)? else {
        return Err(RewriteFault::Place);
    };
    let value = schedule_text(alloc, Layout::new(text, place), events)?;
    let made = replaced(alloc, place, &value)?;
    if made.len() > LIMIT {
        return Err(excess_fault(text, events));
    }
    if is_list(alloc, place.value)?
        && is_list(alloc, &value)?
        && is_script_of(alloc, &made, setup, events)?
    {
        Ok(made)
    } else {
        Err(RewriteFault::Place)
    }
}

/// Returns the text of a script with these events as its schedule, and keeps each other byte. If a
/// text has two schedules, the last one is replaced. The result fails with `Place` if an event is a
/// short transfer of 0 bytes, which no script can have.
pub fn with_schedule(alloc: Global, text: &[u8], events: &[Event]) -> Result<Vec<u8>, RewriteFault>
    requires few { length events.now ≤ 65536 }
    // The result is a script with the text's setup and these events.
    ensures ok { IfOk result (λ made. (p : Scenario) × Reads text.now (Ok p)
        × IsRewritten text.now p.setup events.now made.items) }
    ensures err { IfErr result (IsUnwritten text.now events.now) }
{
    match read_script(alloc, text) {
        Ok(script) => rewritten(alloc, text, script.setup(), events),
        Err(ScriptFault::Memory) => Err(RewriteFault::Memory),
        Err(fault) => Err(RewriteFault::Script(fault)),
    }
}
