//! Whether a run is prompt.
ghost use Rattle.std.specs.Prelude.{◌≡◌, ◌≢◌, IfOk, IfErr, IfSome, IfNone};
ghost use Rattle.machine.specs.Runs.{start};
ghost use Rattle.prompt_order.specs.Prompt.{IsDue, IsPromptNext, IsPrompt, SaysPrompt, IsFirstLate};

use crate::due::{Due, begun_by, next_due};
use machine::{Event, Setup, State};
use std::alloc::{AllocError, Global};

/// An event that comes before what a submission does next.
#[derive(Clone, Copy)]
pub struct Late {
    /// The index of the event.
    pub index: usize,
    /// What the submission does next.
    pub due: Due,
}

// Returns the first request of the submission after an event, given that it is `from` before it, or
// what that submission does instead of the event.
fn submitted_after(state: &State, from: u32, event: Event) -> Result<u32, Due>
    ensures prompt { IfOk result (λ next. IsPromptNext state.now from event next) }
    ensures due { IfErr result (λ d. IsDue state.now from d.row d.event) }
    ensures late { IfErr result (λ d. event ≢ d.event) }
{
    match next_due(state, from) {
        Some(due) => {
            if due.event == event {
                Ok(from)
            } else {
                Err(due)
            }
        }
        None => Ok(begun_by(state, event)),
    }
}

// Steps the events of a run as long as they are prompt, and returns the first that isn't.
fn first_late_from(
    state: &mut State,
    setup: &Setup,
    events: &[Event],
) -> Result<Option<Late>, AllocError>
    requires starts { state.old ≡ start setup.now }
    ensures none { IfOk result (λ late. IfNone late (IsPrompt setup.now events.now)) }
    ensures some { IfOk result (λ late. IfSome late
        (λ l. IsFirstLate setup.now events.now l.index l.due.row l.due.event)) }
{
    let mut from = 0;
    for index in 0..events.len() {
        let event = events[index];
        match submitted_after(state, from, event) {
            Ok(next) => from = next,
            Err(due) => return Ok(Some(Late { index, due })),
        }
        match state.step(event) {
            Ok(past) => past.discard(),
            Err(_) => return Err(AllocError),
        }
    }
    Ok(None)
}

/// Returns the first event of a run that isn't prompt, if there is one. Steps the events before it.
/// Fails if an allocation fails, if no run can start from the setup, or if an event before that one
/// is refused.
pub fn first_late(
    alloc: Global,
    setup: &Setup,
    events: &[Event],
) -> Result<Option<Late>, AllocError>
    ensures none { IfOk result (λ late. IfNone late (IsPrompt setup.now events.now)) }
    ensures some { IfOk result (λ late. IfSome late
        (λ l. IsFirstLate setup.now events.now l.index l.due.row l.due.event)) }
{
    match State::new(alloc, setup) {
        Ok(mut state) => first_late_from(&mut state, setup, events),
        Err(_) => Err(AllocError),
    }
}

/// Returns whether a run is prompt. Steps its events as long as they are. Fails as `first_late`
/// does.
pub fn is_prompt(alloc: Global, setup: &Setup, events: &[Event]) -> Result<bool, AllocError>
    ensures { IfOk result (λ prompt. SaysPrompt prompt setup.now events.now) }
{
    match first_late(alloc, setup, events)? {
        Some(_) => Ok(false),
        None => Ok(true),
    }
}
