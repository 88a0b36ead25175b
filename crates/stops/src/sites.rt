//! The moments at which a breakpoint on an item of a script stops.
ghost use Rattle.std.specs.Prelude.{◌≡◌, ◌<◌, ◌+◌, length, reverse, unwrap_or, IfOk};
ghost use Rattle.std.specs.List.{flat_map};
ghost use Rattle.places.specs.declared.place.Place.TheVariants.{ProgramCounter};
ghost use Rattle.places.specs.View.{Exact, named};
ghost use Rattle.machine.specs.Whole.{view};
ghost use Rattle.machine.specs.Runs.{moment as at_moment};
ghost use Rattle.inverse_log.specs.Walks.{ending};
ghost use Rattle.stops.specs.Nearest.{sorted};
ghost use Rattle.stops.specs.SiteMoments.{is_step, is_number, is_next, moments_before};

use crate::moments::Moments;
use inverse_log::Walker;
use machine::State;
use places::{Place, Record, Value};
use scenario::Event;
use std::alloc::{AllocError, Global};

/// What a breakpoint is set on. It stops a run before the event that carries it out.
#[derive(Clone, Copy)]
pub enum Site {
    /// An event of the schedule, by its index.
    Event(usize),
    /// An instruction, by its thread and its index in the thread's program.
    Instruction(u32, u32),
}

/// Returns the undo record of the event after a moment.
pub fn record_of(walker: &Walker, moment: usize) -> &Record
    requires { moment < length walker.now.events }
    ensures { Exact (view (at_moment walker.now.setup walker.now.events moment))
        (view (at_moment walker.now.setup walker.now.events (moment + 1))) result.now }
{
    // Brings the limit on the length of a trace into the proof: the index fits.
    let _len = walker.len();
    &walker.records()[moment]
}

// Returns the old value of a place, if a record names it.
fn old_value(past: &Record, place: Place) -> Option<Option<Value>>
    ensures { result ≡ named past.now place }
{
    if !past.names(place) {
        return None;
    }
    let mut changes = past.changes();
    while let Some(change) = changes.next() {
        if change.place.equals(&place) {
            return Some(change.old);
        }
    }
    None
}

// Returns the value of a place before the event of a record, given the value after it.
fn value_before(past: &Record, place: Place, after: Option<Value>) -> Option<Value>
    ensures { result ≡ unwrap_or (named past.now place) after }
{
    match old_value(past, place) {
        Some(old) => old,
        None => after,
    }
}

fn is_step(thread: u32, event: Event) -> bool
    ensures { result ≡ is_step thread event }
{
    match event {
        Event::Step(stepped) => stepped == thread,
        _ => false,
    }
}

fn is_number(index: u32, value: Option<Value>) -> bool
    ensures { result ≡ is_number index value }
{
    match value {
        Some(Value::Number(number)) => number == index as u64,
        _ => false,
    }
}

// Returns whether the event after a moment carries out an instruction. `counter` is the program
// counter of its thread at the moment.
fn carries_out(
    walker: &Walker,
    thread: u32,
    index: u32,
    moment: usize,
    counter: Option<Value>,
) -> bool
    requires within { moment < length walker.now.events }
    requires counter { counter
        ≡ view (at_moment walker.now.setup walker.now.events moment) (ProgramCounter thread) }
    ensures { result ≡ is_next walker.now (Site.Instruction thread index) moment }
{
    is_step(thread, walker.events()[moment]) && is_number(index, counter)
}

// Returns the moments before an instruction, from the last one down.
fn instruction_moments(
    alloc: Global,
    walker: &Walker,
    end: &State,
    thread: u32,
    index: u32,
) -> Result<Vec<usize>, AllocError>
    requires { end.now ≡ ending walker.now }
    ensures { IfOk result (λ v. reverse v.items
        ≡ moments_before walker.now (Site.Instruction thread index)) }
{
    let place = Place::ProgramCounter(thread);
    let mut counter = end.value(place);
    let mut moments = Vec::new(alloc);
    let mut moment = walker.len();
    while moment > 0 {
        moment -= 1;
        counter = value_before(record_of(walker, moment), place, counter);
        if carries_out(walker, thread, index, moment, counter) {
            moments.push(moment)?;
        }
    }
    Ok(moments)
}

/// Returns the moments before the events that carry out a site's item, in ascending order. `end` is
/// the state at the end of the run.
pub fn moments_before(
    alloc: Global,
    walker: &Walker,
    end: &State,
    site: Site,
) -> Result<Vec<usize>, AllocError>
    requires { end.now ≡ ending walker.now }
    ensures { IfOk result (λ v. v.items ≡ moments_before walker.now site) }
{
    match site {
        Site::Event(index) => event_moments(alloc, walker, index),
        Site::Instruction(thread, index) => {
            let mut moments = instruction_moments(alloc, walker, end, thread, index)?;
            moments.reverse();
            Ok(moments)
        }
    }
}

// Returns the moment before an event, if the run has it.
fn event_moments(alloc: Global, walker: &Walker, index: usize) -> Result<Vec<usize>, AllocError>
    ensures { IfOk result (λ v. v.items ≡ moments_before walker.now (Site.Event index)) }
{
    let mut moments = Vec::new(alloc);
    if index >= walker.len() {
        return Ok(moments);
    }
    moments.push(index)?;
    Ok(moments)
}

/// Returns the moments at which breakpoints on some sites stop.
pub fn breakpoints(
    alloc: Global,
    walker: &Walker,
    end: &State,
    sites: &[Site],
) -> Result<Moments, AllocError>
    requires { end.now ≡ ending walker.now }
    ensures { IfOk result (λ ms. ms ≡ sorted (flat_map (moments_before walker.now) sites.now)) }
{
    let mut moments = Vec::new(alloc);
    for site in sites {
        let before = moments_before(alloc, walker, end, *site)?;
        moments.extend_from_slice(&before)?;
    }
    Ok(Moments::from_vec(moments))
}
