//! Steps each event of a run once, and calls an observer.
ghost use Rattle.std.specs.Prelude.{◌≡◌, ◌≤◌, ◌<◌, ◌+◌, length, OnOk, IfErr};
ghost use Rattle.runs.specs.{Common.Accepts, Common.start, Moments.Ends, Moments.IsAt};

use crate::observer::{Observed, Observer};
use machine::{Event, Refusal, Setup, State};

/// Why a run ended early.
#[derive(Drop)]
pub enum Ended<E> {
    /// The event at this index was refused for this reason.
    Refused(u32, Refusal),
    /// An allocation failed.
    Memory,
    /// The observer stopped the run for this reason.
    Stopped(E),
}

// Steps one event, and calls the observer before and after it.
fn step<O: Observer>(
    state: &mut State,
    setup: &Setup,
    events: &[Event],
    index: usize,
    observer: &mut O,
) -> Result<(), Ended<O::Stop>>
    requires within { index < length events.now }
    requires most { length events.now ≤ 1048576 }
    requires at { IsAt setup.now events.now index state.old }
    requires seen { O.has_seen observer.old setup.now events.now index }
    ensures at { OnOk result (IsAt setup.now events.now (index + 1) state.new) }
    ensures seen { OnOk result (O.has_seen observer.new setup.now events.now (index + 1)) }
    ensures err { IfErr result
        (Ends O.has_seen O.stops setup.now events.now state.new observer.new) }
{
    let event = events[index];
    let before = Observed {
        setup,
        events,
        index,
        event,
        state,
    };
    let note = match observer.before(before) {
        Ok(note) => note,
        Err(stop) => return Err(Ended::Stopped(stop)),
    };
    let past = match state.step(event) {
        Ok(past) => past,
        Err(refusal) => {
            if let Refusal::Memory = refusal {
                return Err(Ended::Memory);
            }
            return Err(Ended::Refused(index as u32, refusal));
        }
    };
    let after = Observed {
        setup,
        events,
        index,
        event,
        state,
    };
    match observer.after(after, &past, note) {
        Ok(()) => Ok(()),
        Err(stop) => Err(Ended::Stopped(stop)),
    }
}

/// Steps each event of a run once, from its start, and calls the observer before and after each. If
/// an event is refused, leaves the state before it.
pub fn drive<O: Observer>(
    state: &mut State,
    setup: &Setup,
    events: &[Event],
    observer: &mut O,
) -> Result<(), Ended<O::Stop>>
    requires starts { state.old ≡ start setup.now }
    requires most { length events.now ≤ 1048576 }
    requires seen { O.has_seen observer.old setup.now events.now 0 }
    ensures at { OnOk result (IsAt setup.now events.now (length events.now) state.new) }
    ensures accepted { OnOk result (Accepts (start setup.now) events.now) }
    ensures seen { OnOk result
        (O.has_seen observer.new setup.now events.now (length events.now)) }
    ensures err { IfErr result
        (Ends O.has_seen O.stops setup.now events.now state.new observer.new) }
{
    for index in 0..events.len() {
        step(state, setup, events, index, observer)?;
    }
    Ok(())
}
