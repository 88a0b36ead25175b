//! Writing traces of scripts, and migrating traces to the second form.
ghost use Rattle.std.specs.Prelude.{◌≡◌, ◌≤◌, ℕ, List, Ok, Err, length, IfOk, IfErr, IsTrue, ◌∷◌, []};
ghost use Rattle.std.specs.List.{list_all};
ghost use Rattle.machine.specs.Runs.{start, Accepts, IsRefused};
ghost use Rattle.scenario.specs.declared.event.Event.{Event};
ghost use Rattle.scenario.specs.declared.event.Refusal.{Refusal};
ghost use Rattle.script.specs.Scripts.{Scenario, Reads};
ghost use Rattle.script.specs.declared.fault.ScriptFault.{ScriptFault};
ghost use Rattle.traces.specs.Faults.{IsFault};
ghost use Rattle.traces.specs.Setups.{canonical, IsTrace2};
ghost use Rattle.traces.specs.Spelling.{most_events, has_transfer, IsTrace};
ghost use Rattle.traces.specs.declared.fault.TraceFault.{TraceFault};
ghost use Rattle.eager_runs.specs.Eager.{IsEager, IsRefusedEagerly};
ghost use Rattle.debug_server.specs.Kinds.{IsOf, OfScript, OfSchedule, OfMemory, OfTrace};
ghost use Rattle.debug_server.specs.Tracing.{IsSpelling, IsTraceOf, IsEagerTrace, StopsEagerly};

use crate::faults::RunFault;
use crate::running::run_schedule;
use crate::scripts::script_of;
use command_line::Form;
use eager_runs::{EagerFault, eager_run};
use scenario::Event;
use script::Script;
use std::alloc::{AllocError, Global};
use traces::{TraceFault, read_trace, write_trace, write_trace2};

/// A trace that was written.
#[derive(Drop)]
pub struct Traced {
    /// The number of its events.
    pub events: u32,
    /// The contents of the trace file.
    pub bytes: Vec<u8>,
}

/// Reads a script, runs its schedule, and writes the trace in the given form.
pub fn trace_script(alloc: Global, text: &[u8], form: Form) -> Result<Traced, RunFault>
    ensures ok { IfOk result (λ t. (p : Scenario) × Reads text.now (Ok p)
        × Accepts (start p.setup) p.schedule × IsTraceOf form p.setup p.schedule t) }
    ensures script { IfErr result (λ e. (f : ScriptFault) → e ≡ RunFault.Script f
        → Reads text.now (Err f)) }
    ensures schedule { IfErr result (λ e. (i : ℕ) → (n : Refusal) → e ≡ RunFault.Schedule i n
        → (p : Scenario) × Reads text.now (Ok p) × IsRefused p.setup p.schedule i n) }
    ensures other { IfErr result (IsOf (OfScript ∷ OfSchedule ∷ OfMemory ∷ [])) }
{
    let script = script_of(alloc, text)?;
    Ok(trace_of(alloc, &script, form)?)
}

/// Reads a script, runs its schedule, and writes the trace of its eager run in the given form. A
/// schedule fault names the first event that the schedule's own run refuses, or else the eager one.
pub fn trace_eager(alloc: Global, text: &[u8], form: Form) -> Result<Traced, RunFault>
    ensures ok { IfOk result (λ t. (p : Scenario) × Reads text.now (Ok p) × IsEagerTrace form p t) }
    ensures script { IfErr result (λ e. (f : ScriptFault) → e ≡ RunFault.Script f
        → Reads text.now (Err f)) }
    ensures schedule { IfErr result (λ e. (i : ℕ) → (n : Refusal) → e ≡ RunFault.Schedule i n
        → (p : Scenario) × Reads text.now (Ok p) × StopsEagerly p i n) }
    ensures other { IfErr result (IsOf (OfScript ∷ OfSchedule ∷ OfMemory ∷ [])) }
{
    let script = script_of(alloc, text)?;
    Ok(trace_eagerly(alloc, &script, form)?)
}

// Writes the trace of a script's eager run in the given form.
fn trace_eagerly(alloc: Global, script: &Script, form: Form) -> Result<Traced, RunFault>
    ensures ok { IfOk result (λ t. IsEagerTrace form script.now t) }
    ensures schedule { IfErr result (λ e. (i : ℕ) → (n : Refusal) → e ≡ RunFault.Schedule i n
        → StopsEagerly script.now i n) }
    ensures other { IfErr result (IsOf (OfSchedule ∷ OfMemory ∷ [])) }
{
    run_schedule(alloc, script)?;
    let events = eager_events(alloc, script)?;
    match spelled(alloc, script, &events, form) {
        Ok(bytes) => Ok(Traced {
            events: events.len() as u32,
            bytes,
        }),
        Err(_) => Err(RunFault::Memory),
    }
}

// Returns the eager run of a script.
fn eager_events(alloc: Global, script: &Script) -> Result<Vec<Event>, RunFault>
    ensures accepts { IfOk result (λ events. Accepts (start script.now.setup) events.items) }
    ensures eager { IfOk result (λ events.
        IsEager script.now.setup script.now.schedule events.items) }
    ensures few { IfOk result (λ events. length events.items ≤ 1048576) }
    ensures schedule { IfErr result (λ e. (i : ℕ) → (n : Refusal) → e ≡ RunFault.Schedule i n
        → IsRefusedEagerly script.now.setup script.now.schedule i n) }
    ensures other { IfErr result (IsOf (OfSchedule ∷ OfMemory ∷ [])) }
{
    match eager_run(alloc, script.setup(), script.schedule()) {
        Ok(events) => Ok(events),
        Err(EagerFault::Refused(index, refusal)) => Err(RunFault::Schedule(index, refusal)),
        Err(EagerFault::Memory) => Err(RunFault::Memory),
    }
}

// Runs a script's schedule, and writes its trace in the given form.
fn trace_of(alloc: Global, script: &Script, form: Form) -> Result<Traced, RunFault>
    ensures ok { IfOk result (λ t. Accepts (start script.now.setup) script.now.schedule
        × IsTraceOf form script.now.setup script.now.schedule t) }
    ensures schedule { IfErr result (λ e. (i : ℕ) → (n : Refusal) → e ≡ RunFault.Schedule i n
        → IsRefused script.now.setup script.now.schedule i n) }
    ensures other { IfErr result (IsOf (OfSchedule ∷ OfMemory ∷ [])) }
{
    run_schedule(alloc, script)?;
    match spelled(alloc, script, script.schedule(), form) {
        Ok(bytes) => Ok(Traced {
            events: script.schedule().len() as u32,
            bytes,
        }),
        Err(_) => Err(RunFault::Memory),
    }
}

/// Reads a script and a trace of the first form, and writes both as a trace of the second form. The
/// new trace has the script's setup and the old trace's events, and none of them is run.
pub fn migrate_trace(alloc: Global, text: &[u8], trace: &[u8]) -> Result<Traced, RunFault>
    ensures ok { IfOk result (λ t. (p : Scenario) × Reads text.now (Ok p) × (events : List Event)
        × IsTrace events trace.now
        × IsTrace2 (canonical p.setup) events t.bytes.items × (t.events ≡ length events)) }
    ensures script { IfErr result (λ e. (f : ScriptFault) → e ≡ RunFault.Script f
        → Reads text.now (Err f)) }
    ensures trace { IfErr result (λ e. (f : TraceFault) → e ≡ RunFault.Trace f
        → ((p : Scenario) × Reads text.now (Ok p)) × IsFault trace.now f) }
    ensures other { IfErr result (IsOf (OfScript ∷ OfTrace ∷ OfMemory ∷ [])) }
{
    let script = script_of(alloc, text)?;
    Ok(migrate_with(alloc, &script, trace)?)
}

// Converts a trace of the first form to the second form, with the setup of a script.
fn migrate_with(alloc: Global, script: &Script, trace: &[u8]) -> Result<Traced, RunFault>
    ensures ok { IfOk result (λ t. (events : List Event) × IsTrace events trace.now
        × IsTrace2 (canonical script.now.setup) events t.bytes.items × (t.events ≡ length events)) }
    ensures trace { IfErr result (λ e. (f : TraceFault) → e ≡ RunFault.Trace f
        → IsFault trace.now f) }
    ensures other { IfErr result (IsOf (OfTrace ∷ OfMemory ∷ [])) }
{
    let events = match read_trace(alloc, trace) {
        Ok(events) => events,
        Err(TraceFault::Memory) => return Err(RunFault::Memory),
        Err(fault) => return Err(RunFault::Trace(fault)),
    };
    match whole_of(alloc, script, &events) {
        Ok(bytes) => Ok(Traced {
            events: events.len() as u32,
            bytes,
        }),
        Err(_) => Err(RunFault::Memory),
    }
}

// Writes the trace of a script's setup and these events in the given form.
fn spelled(
    alloc: Global,
    script: &Script,
    events: &[Event],
    form: Form,
) -> Result<Vec<u8>, AllocError>
    requires few { length events.now ≤ most_events }
    requires transfers { IsTrue (list_all has_transfer events.now) }
    ensures { IfOk result (λ bytes.
        IsSpelling form script.now.setup events.now bytes.items) }
{
    match form {
        Form::Events => write_trace(alloc, events),
        Form::Whole => whole_of(alloc, script, events),
    }
}

// Writes a trace of the second form, from a script's setup and events.
fn whole_of(alloc: Global, script: &Script, events: &[Event]) -> Result<Vec<u8>, AllocError>
    requires few { length events.now ≤ most_events }
    requires transfers { IsTrue (list_all has_transfer events.now) }
    ensures { IfOk result (λ bytes. IsTrace2 (canonical script.now.setup) events.now bytes.items) }
{
    write_trace2(alloc, script.setup(), events)
}
