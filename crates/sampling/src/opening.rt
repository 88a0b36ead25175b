//! The opening of a program: the events at its start that no draw decides. All runs share it.
ghost use Rattle.std.specs.Prelude.{◌≡◌, ◌≤◌, ◌<◌, ℕ, Some, None, true, false, length, map, IfSome, OnOk};
ghost use Rattle.machine.specs.Runs.{start, Linked};
ghost use Rattle.machine.specs.Threads.{program_of};
ghost use Rattle.sampling.specs.declared.draws.Source.{Source};
ghost use Rattle.sampling.specs.Offers.{poller_offer};
ghost use Rattle.sampling.specs.Choosing.{IsChosen};
ghost use Rattle.sampling.specs.Samples.{IsForced, IsOpening, SaysOnly, StaysSeen};

use crate::choosing::{NextEvent, due_event};
use crate::draws::SampleOptions;
use crate::program::Program;
use crate::running::advance;
use crate::samples::Sample;
use machine::{Event, Refusal, State};
use prompt_order::begun_by;
use runs::Observer;
use std::alloc::AllocError;

/// Steps the opening of a program from its start, and calls the observer before and after each
/// event. Fails if an allocation fails or the observer stops.
pub fn begin<O: Observer>(
    state: &mut State,
    program: &Program<'_>,
    options: SampleOptions,
    into: &mut Sample,
    observer: &mut O,
) -> Result<(), AllocError>
    requires opening { IsOpening program.now options into.old.events.items into.old.next_row }
    requires linked { Linked (start program.now) into.old.events.items into.old.records.items
        state.old }
    requires most { options.most ≤ 1048576 }
    requires stays { StaysSeen O.has_seen program.now }
    requires seen { O.has_seen observer.old program.now into.old.events.items
        (length into.old.events.items) }
    ensures opening { OnOk result (IsOpening program.now options into.new.events.items
        into.new.next_row) }
    ensures linked { Linked (start program.now) into.new.events.items into.new.records.items
        state.new }
    ensures seen { OnOk result (O.has_seen observer.new program.now into.new.events.items
        (length into.new.events.items)) }
{
    'events: while into.events.len() < options.most as usize {
        let Some(next) = forced(state, program, options.late, into.next_row) else {
            return Ok(());
        };
        advance(state, program.setup(), next.event, into, observer)?;
        into.next_row = next.row;
    }
    Ok(())
}

// Returns what each run does next whose last submission is of the requests from number `from` on,
// or None if a draw may decide.
fn forced(state: &State, program: &Program<'_>, late: bool, from: u32) -> Option<NextEvent>
    requires programs { map program_of state.now.threads ≡ program.now.threads }
    ensures { IfSome result (λ n. IsForced late state.now from n.event n.row) }
{
    if let Some(next) = due_event(state, late, from) {
        return Some(next);
    }
    let event = forced_step(state, program)?;
    let row = begun_by(state, event);
    Some(NextEvent { event, row })
}

// Returns the step that each run chooses. There is one only where no request is incomplete and the
// poller does nothing.
fn forced_step(state: &State, program: &Program<'_>) -> Option<Event>
    requires programs { map program_of state.now.threads ≡ program.now.threads }
    ensures { IfSome result (λ e. (s : Source) → IsChosen s state.now e) }
{
    if state.next_unfinished(0).is_some() || has_poller_awake(state) {
        return None;
    }
    match only_thread(state, program) {
        Some(thread) => Some(Event::Step(thread)),
        None => None,
    }
}

fn has_poller_awake(state: &State) -> bool
    ensures { result ≡ false → (s : Source) → poller_offer s state.now ≡ None }
{
    match state.refuses(Event::Sleep) {
        Some(Refusal::NoPoller) => false,
        Some(Refusal::Asleep) => false,
        _ => true,
    }
}

// Returns the one thread that can do a step, if no other can.
fn only_thread(state: &State, program: &Program<'_>) -> Option<u32>
    requires programs { map program_of state.now.threads ≡ program.now.threads }
    ensures only { IfSome result (λ t. (n : ℕ) → SaysOnly state.now n (Some t)) }
    ensures few { IfSome result (λ t. t < 16) }
{
    let mut only = None;
    for thread in 0..program.thread_count() {
        if state.refuses(Event::Step(thread)).is_none() {
            if only.is_some() {
                return None;
            }
            only = Some(thread);
        }
    }
    only
}
