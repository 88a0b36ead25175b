//! Runs events to check that they are accepted, without storing undo records.
ghost use Rattle.std.specs.Prelude.{◌≡◌, ◌≤◌, ℕ, [], None, length, IsOk, OnOk, IfErr, ◌∷◌};
ghost use Rattle.machine.specs.Runs.{start, Accepts, IsRefused};
ghost use Rattle.scenario.specs.declared.event.Refusal.{Refusal};
ghost use Rattle.scenario.specs.declared.setup.Setup.{Setup};
ghost use Rattle.scenario.specs.Setups.{setup_refusal};
ghost use Rattle.debug_server.specs.Kinds.{IsOf, OfSchedule, OfMemory};
ghost use Rattle.debug_server.specs.Schedules.{StopsBy, fault_by};

use crate::faults::RunFault;
use machine::{Event, Refusal, Setup, State};
use script::Script;
use std::alloc::Global;

/// Returns the fault of a schedule whose event at an index is refused.
pub(crate) fn fault_by(index: u32, refusal: Refusal) -> RunFault
    ensures { result ≡ fault_by index refusal }
{
    match refusal {
        Refusal::Memory => RunFault::Memory,
        refusal => RunFault::Schedule(index, refusal),
    }
}

/// Runs the schedule of a script.
pub(crate) fn run_schedule(alloc: Global, script: &Script) -> Result<(), RunFault>
    ensures accepts { OnOk result (Accepts (start script.now.setup) script.now.schedule) }
    ensures schedule { IfErr result (λ e. (i : ℕ) → (n : Refusal) → e ≡ RunFault.Schedule i n
        → IsRefused script.now.setup script.now.schedule i n) }
    ensures other { IfErr result (IsOf (OfSchedule ∷ OfMemory ∷ [])) }
{
    run_from(alloc, script.setup(), script.schedule())
}

// Runs events from the start of a setup.
fn run_from(alloc: Global, setup: &Setup, events: &[Event]) -> Result<(), RunFault>
    requires starts { setup_refusal setup.now ≡ None }
    requires most { length events.now ≤ 1048576 }
    ensures accepts { OnOk result (Accepts (start setup.now) events.now) }
    ensures stops { IfErr result (λ e. StopsBy setup.now events.now e) }
{
    let Ok(mut state) = State::new(alloc, setup) else {
        return Err(RunFault::Memory);
    };
    step_all(&mut state, events)
}

// Runs events, and drops each undo record.
fn step_all(state: &mut State, events: &[Event]) -> Result<(), RunFault>
    requires most { length events.now ≤ 1048576 }
    ensures accepts { OnOk result (Accepts state.old events.now) }
    ensures none { events.now ≡ [] → IsOk result }
    ensures stops { IfErr result (λ e. (setup : Setup) → state.old ≡ start setup
        → StopsBy setup events.now e) }
{
    for i in 0..events.len() {
        if let Err(refusal) = state.step(events[i]) {
            return Err(fault_by(i as u32, refusal));
        }
    }
    Ok(())
}
