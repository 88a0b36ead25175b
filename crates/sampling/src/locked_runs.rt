//! Whether a run keeps the lock that an application holds around its submission ring.
ghost use Rattle.std.specs.Prelude.{◌≡◌, IfOk, map};
ghost use Rattle.machine.specs.Runs.{start, Accepts};
ghost use Rattle.machine.specs.Threads.{program_of};
ghost use Rattle.sampling.specs.Locks.{may_step, keeps_lock, keep_lock};

use crate::locks::{holds, is_locked, spot_of};
use crate::program::Program;
use machine::{Event, State};
use std::alloc::{AllocError, Global};

// Whether a thread needs no lock for a step, or holds it.
fn may_step(state: &State, program: &Program<'_>, thread: u32) -> bool
    requires programs { map program_of state.now.threads ≡ program.now.threads }
    ensures { result ≡ may_step state.now thread }
{
    if is_locked(state, program) {
        holds(state, program, thread, spot_of(state, thread))
    } else {
        true
    }
}

// Whether an event keeps the lock. Only steps of threads may not.
fn keeps_lock(state: &State, program: &Program<'_>, event: Event) -> bool
    requires programs { map program_of state.now.threads ≡ program.now.threads }
    ensures { result ≡ keeps_lock state.now event }
{
    match event {
        Event::Step(thread) => may_step(state, program, thread),
        Event::Take(_)
        | Event::Sleep
        | Event::Issue(_)
        | Event::Finish(_, _)
        | Event::Expire(_)
        | Event::Tick(_) => true,
    }
}

// Steps the events of a run while they keep the lock. Returns whether all do.
fn keep_lock_from(
    state: &mut State,
    program: &Program<'_>,
    events: &[Event],
) -> Result<bool, AllocError>
    requires starts { state.old ≡ start program.now }
    requires accepted { Accepts (start program.now) events.now }
    ensures { IfOk result (λ kept. kept ≡ keep_lock (start program.now) events.now) }
{
    for event in events {
        if !keeps_lock(state, program, *event) {
            return Ok(false);
        }
        match state.step(*event) {
            Ok(past) => past.discard(),
            Err(_) => return Err(AllocError),
        }
    }
    Ok(true)
}

/// Returns whether a run keeps the lock: whether no thread's step comes between the put, push and
/// enter of another thread that can step. Steps all events of the run.
pub fn keep_lock(alloc: Global, program: &Program<'_>, events: &[Event]) -> Result<bool, AllocError>
    requires { Accepts (start program.now) events.now }
    ensures { IfOk result (λ kept. kept ≡ keep_lock (start program.now) events.now) }
{
    match State::new(alloc, program.setup()) {
        Ok(mut state) => keep_lock_from(&mut state, program, events),
        Err(_) => Err(AllocError),
    }
}
