//! Schedules that may be simpler than a given one. Some of their events may be refused.

use crate::costs::actor_of;
use entries::Choice;
use machine::Event;
use std::alloc::{AllocError, Global};

// Appends the events from one index to another, if the schedule has that many.
fn append(
    out: &mut Vec<Event>,
    events: &[Event],
    start: usize,
    end: usize,
) -> Result<(), AllocError> {
    if start <= end && end <= events.len() {
        out.extend_from_slice(&events[start..end])
    } else {
        Ok(())
    }
}

/// Returns a schedule without the events from one index to another.
pub(crate) fn without(
    alloc: Global,
    events: &[Event],
    start: usize,
    end: usize,
) -> Result<Vec<Event>, AllocError> {
    let mut out = Vec::new(alloc);
    append(&mut out, events, 0, start)?;
    append(&mut out, events, end, events.len())?;
    Ok(out)
}

/// Returns a schedule in which the request that finishes at this index does so in full.
pub(crate) fn in_full(
    alloc: Global,
    events: &[Event],
    index: usize,
) -> Result<Vec<Event>, AllocError> {
    let mut out = events.to_vec(alloc)?;
    if index < out.len() {
        if let Event::Finish(request, _) = out[index] {
            out[index] = Event::Finish(request, Choice::Full);
        }
    }
    Ok(out)
}

// Returns the index after the last event before `start` whose actor is that of the event there.
fn end_of_earlier(events: &[Event], start: usize) -> Option<usize> {
    let actor = actor_of(*events.get(start)?);
    for index in (0..start).rev() {
        if let Some(event) = events.get(index) {
            if actor_of(*event) == actor {
                return Some(index + 1);
            }
        }
    }
    None
}

// Returns the index of the first event from `start` on whose actor isn't that of the event there.
fn end_of_block(events: &[Event], start: usize) -> usize {
    for index in start..events.len() {
        if actor_of(events[index]) != actor_of(events[start]) {
            return index;
        }
    }
    events.len()
}

/// Returns a schedule in which the events by one actor from `start` on come directly after its
/// earlier ones. None if they do already, or if there are none.
pub(crate) fn merged(
    alloc: Global,
    events: &[Event],
    start: usize,
) -> Result<Option<Vec<Event>>, AllocError> {
    let Some(to) = end_of_earlier(events, start) else {
        return Ok(None);
    };
    if to == start {
        return Ok(None);
    }
    let end = end_of_block(events, start);
    let mut out = Vec::new(alloc);
    append(&mut out, events, 0, to)?;
    append(&mut out, events, start, end)?;
    append(&mut out, events, to, start)?;
    append(&mut out, events, end, events.len())?;
    Ok(Some(out))
}
