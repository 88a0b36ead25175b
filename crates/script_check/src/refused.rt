//! The sentence about the first event of a run that is refused.
ghost use Rattle.std.specs.Prelude.{◌≡◌, ◌≤◌, None, length};
ghost use Rattle.scenario.specs.Setups.{setup_refusal};

use crate::document::Wording;
use crate::refusals::sentence;
use machine::{Event, Refusal, Setup, State};
use runs::{Ended, drive};
use std::alloc::{AllocError, Global};

/// Returns the sentence about the event at an index, which is refused in a state.
pub(crate) fn sentence_at(
    alloc: Global,
    state: &State,
    setup: &Setup,
    events: &[Event],
    index: u32,
    refusal: Refusal,
) -> Wording {
    match events.get(index as usize) {
        Some(event) => sentence(alloc, state, setup, *event, refusal),
        None => Ok(String::new(alloc)),
    }
}

/// Runs some events from a setup, and returns the sentence about the first event that is refused. It
/// is empty if none is.
pub fn refusal_sentence(
    alloc: Global,
    setup: &Setup,
    events: &[Event],
) -> Result<String, AllocError>
    requires starts { setup_refusal setup.now ≡ None }
    requires most { length events.now ≤ 1048576 }
{
    let Ok(mut state) = State::new(alloc, setup) else {
        return Err(AllocError);
    };
    match drive(&mut state, setup, events, &mut ()) {
        Ok(()) => Ok(String::new(alloc)),
        Err(Ended::Refused(index, refusal)) => {
            sentence_at(alloc, &state, setup, events, index, refusal)
        }
        Err(Ended::Memory) => Err(AllocError),
    }
}
