//! What a schedule keeps while it is made short.
ghost use Rattle.std.specs.Prelude.{◌≡◌, ◌≤◌, true, length, IfOk, IfSome};
ghost use Rattle.machine.specs.Runs.{start, Accepts};
ghost use Rattle.shrinking.specs.Shrinking.{IsCandidate, IsKept, KeepsLock, StaysPrompt};

use machine::{Event, State};
use prompt_order::is_prompt;
use runs::Ended;
use sampling::{Program, keep_lock};
use std::alloc::{AllocError, Global};
use symptoms::{Sighting, Symptom, examine};

/// What each schedule keeps.
#[derive(Clone, Copy)]
pub(crate) struct Goal<'a> {
    pub(crate) program: &'a Program<'a>,
    pub(crate) symptom: Symptom<'a>,
    /// The greatest number of events.
    pub(crate) most: usize,
    /// Whether no thread's step comes between another's put, push and enter.
    pub(crate) keeps_lock: bool,
    /// Whether no request is issued later than by its submission.
    pub(crate) is_prompt: bool,
}

// Runs a schedule from the start. Returns where it shows the symptom, if it is a candidate.
fn replay_from(
    alloc: Global,
    state: &mut State,
    goal: Goal<'_>,
    events: &[Event],
) -> Result<Option<Sighting>, AllocError>
    requires starts { state.old ≡ start goal.program.now }
    requires most { goal.most ≤ 1048576 }
    requires short { length events.now ≤ goal.most }
    ensures { IfOk result (λ x. IfSome x (IsCandidate goal.entry events.now)) }
{
    match examine(alloc, state, goal.program.setup(), events, &goal.symptom) {
        Ok(examined) => Ok(examined.sighting),
        Err(Ended::Refused(_, _)) => Ok(None),
        Err(_) => Err(AllocError),
    }
}

// Returns whether a schedule keeps the lock, if the goal does.
fn has_lock(alloc: Global, goal: Goal<'_>, events: &[Event]) -> Result<bool, AllocError>
    requires { Accepts (start goal.program.now) events.now }
    ensures { IfOk result (λ kept. kept ≡ true → KeepsLock goal.entry events.now) }
{
    if goal.keeps_lock {
        keep_lock(alloc, goal.program, events)
    } else {
        Ok(true)
    }
}

// Returns whether a schedule is prompt, if the goal is.
fn stays_prompt(alloc: Global, goal: Goal<'_>, events: &[Event]) -> Result<bool, AllocError>
    ensures { IfOk result (λ prompt. prompt ≡ true → StaysPrompt goal.entry events.now) }
{
    if goal.is_prompt {
        is_prompt(alloc, goal.program.setup(), events)
    } else {
        Ok(true)
    }
}

// Returns whether a schedule keeps the lock and is prompt, if the goal does and is.
fn keeps_order(alloc: Global, goal: Goal<'_>, events: &[Event]) -> Result<bool, AllocError>
    requires { Accepts (start goal.program.now) events.now }
    ensures lock { IfOk result (λ kept. kept ≡ true → KeepsLock goal.entry events.now) }
    ensures prompt { IfOk result (λ kept. kept ≡ true → StaysPrompt goal.entry events.now) }
{
    Ok(has_lock(alloc, goal, events)? && stays_prompt(alloc, goal, events)?)
}

/// Runs a schedule. Returns where it shows the symptom, if it keeps the goal.
pub(crate) fn replay(
    alloc: Global,
    goal: Goal<'_>,
    events: &[Event],
) -> Result<Option<Sighting>, AllocError>
    requires most { goal.most ≤ 1048576 }
    requires short { length events.now ≤ goal.most }
    ensures { IfOk result (λ x. IfSome x (IsKept goal.entry events.now)) }
{
    let Ok(mut state) = State::new(alloc, goal.program.setup()) else {
        return Err(AllocError);
    };
    match replay_from(alloc, &mut state, goal, events)? {
        Some(sighting) if keeps_order(alloc, goal, events)? => Ok(Some(sighting)),
        _ => Ok(None),
    }
}
