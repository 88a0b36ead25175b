//! Trying a candidate.
ghost use Rattle.std.specs.Prelude.{OnOk, ◌≤◌};
ghost use Rattle.shrinking.specs.Shrinking.{IsKept};

use crate::costs::Cost;
use crate::goal::{Goal, replay};
use crate::origins::Origins;
use machine::{Event, Refusal, Setup, State};
use prompt_order::{begun_by, next_due};
use std::alloc::{AllocError, Global};
use symptoms::Sighting;

/// The greatest number of events of one submission: each request is issued, and may complete.
const MOST_DUE: u32 = 131_072;

/// The simplest schedule so far, and how many candidates may still be tried.
#[derive(Drop)]
pub(crate) struct Best {
    pub(crate) events: Vec<Event>,
    pub(crate) origins: Origins,
    /// Where it shows the symptom.
    pub(crate) sighting: Sighting,
    pub(crate) attempts: u32,
}

// Steps an event, and returns whether it was accepted.
fn step(state: &mut State, event: Event) -> Result<bool, AllocError> {
    match state.step(event) {
        Ok(past) => {
            past.discard();
            Ok(true)
        }
        Err(Refusal::Memory) => Err(AllocError),
        Err(_) => Ok(false),
    }
}

// A schedule whose events are all accepted.
#[derive(Drop)]
struct Accepted {
    events: Vec<Event>,
    // Who submitted each request.
    origins: Origins,
}

impl Accepted {
    // Steps an event, and appends it if it is accepted. Returns whether it is.
    fn add(&mut self, state: &mut State, event: Event) -> Result<bool, AllocError> {
        if !step(state, event)? {
            return Ok(false);
        }
        self.origins.note(state, event)?;
        self.events.push(event)?;
        Ok(true)
    }

    // Does what the submission of the requests from number `from` on does, up to its end.
    fn submit(&mut self, state: &mut State, from: u32) -> Result<(), AllocError> {
        for _event in 0..MOST_DUE {
            match next_due(state, from) {
                Some(due) => {
                    self.add(state, due.event)?;
                }
                None => return Ok(()),
            }
        }
        Ok(())
    }
}

// Steps some events, and returns those that are accepted. An event names the request that has the
// origin of the one that it named before, in a schedule with the origins `named`. If the events are
// to be prompt, what a submission does comes before each.
fn stepped(
    alloc: Global,
    state: &mut State,
    events: &[Event],
    named: &Origins,
    is_prompt: bool,
) -> Result<Accepted, AllocError> {
    let mut accepted = Accepted {
        events: Vec::new(alloc),
        origins: Origins::new(alloc),
    };
    let mut from = 0;
    for event in events {
        if is_prompt {
            accepted.submit(state, from)?;
        }
        if let Some(event) = accepted.origins.renumbered(*event, named) {
            let begun = begun_by(state, event);
            if accepted.add(state, event)? {
                from = begun;
            }
        }
    }
    Ok(accepted)
}

// Steps some events from the start, and returns those that are accepted.
fn stepped_from_start(
    alloc: Global,
    goal: Goal<'_>,
    events: &[Event],
    named: &Origins,
) -> Result<Accepted, AllocError> {
    let Ok(mut state) = State::new(alloc, goal.program.setup()) else {
        return Err(AllocError);
    };
    stepped(alloc, &mut state, events, named, goal.is_prompt)
}

/// Returns who submitted each request of a run.
pub(crate) fn origins_of(
    alloc: Global,
    setup: &Setup,
    events: &[Event],
) -> Result<Origins, AllocError> {
    let Ok(mut state) = State::new(alloc, setup) else {
        return Err(AllocError);
    };
    let mut origins = Origins::new(alloc);
    for event in events {
        if step(&mut state, *event)? {
            origins.note(&state, *event)?;
        }
    }
    Ok(origins)
}

/// Runs a candidate without the events that are refused. It becomes the best schedule if it is
/// simpler and keeps the goal.
pub(crate) fn attempt(
    alloc: Global,
    goal: Goal<'_>,
    best: &mut Best,
    candidate: &[Event],
) -> Result<(), AllocError>
    requires most { goal.most ≤ 1048576 }
    requires kept { IsKept goal best.old.events.items best.old.sighting }
    ensures { OnOk result (IsKept goal.entry best.new.events.items best.new.sighting) }
{
    best.attempts = best.attempts.saturating_sub(1);
    let Accepted { events, origins } = stepped_from_start(alloc, goal, candidate, &best.origins)?;
    if events.len() > best.events.len() || Cost::new(&events) >= Cost::new(&best.events) {
        return Ok(());
    }
    if let Some(sighting) = replay(alloc, goal, &events)? {
        best.events = events;
        best.origins = origins;
        best.sighting = sighting;
    }
    Ok(())
}
