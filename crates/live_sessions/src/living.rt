//! Live runs of a script's setup: the runs, sessions over them, and their traces.
ghost use Rattle.std.specs.Prelude.{◌≡◌, ◌≢◌, ◌≤◌, ◌∷◌, [], false, Ok, Err, IfOk, IfErr, OnOk, length};
ghost use Rattle.std.specs.Io.KnownBytes.{Keeps};
ghost use Rattle.live_runner.specs.Actors.{actors};
ghost use Rattle.live_runner.specs.History.{Whole};
ghost use Rattle.script.specs.Scripts.{Scenario, Reads};
ghost use Rattle.script.specs.declared.fault.ScriptFault.{ScriptFault};
ghost use Rattle.traces.specs.Setups.{canonical, IsTrace2};
ghost use Rattle.debug_server.specs.declared.faults.ServeFault.{ServeFault};
ghost use Rattle.debug_server.specs.declared.faults.ServeFault.TheVariants.{Closed as WasClosed};
ghost use Rattle.live_sessions.specs.Living.{IsOfLive, IsOfRunning};
ghost use Rattle.debug_server.specs.Kinds.{IsOf, is_kind, OfServing, OfMemory};
ghost use Rattle.debug_server.specs.Transcripts.{streams};
ghost use Rattle.debug_server.specs.Walked.{Walked, BrokenOff};

use debug_server::{Fault, RunFault, Traced, script_of, walk_events};
use live_runner::{AlwaysOpen, Closed, LiveFault, run_live};
use script::Script;
use std::alloc::{AllocError, Global};
use std::io::{Read, Write};
use std::sync::Wait;
use std::thread::Threads;
use std::time::Clock;
use traces::write_trace2;

/// Reads a script and runs its setup with one thread per actor, each of which takes `turns` turns.
/// The script's schedule isn't used. `kernel` is the number of kernel workers.
pub fn live_script<R: Threads + Wait + Clock + Sync>(
    rt: &R,
    alloc: Global,
    text: &[u8],
    turns: u32,
    kernel: u32,
) -> Result<Closed, Fault>
    requires { kernel ≤ 8 }
    // The run is whole: its events are accepted and lead to its state. Its setup is the script's.
    ensures ok { IfOk result (λ c. Whole c
        × ((p : Scenario) × Reads text.now (Ok p) × (c.setup ≡ p.setup)
        × (c.actors ≡ actors p.setup kernel))) }
    ensures script { IfErr result (λ e. (f : ScriptFault) → e ≡ Fault.Run (RunFault.Script f)
        → Reads text.now (Err f)) }
    ensures other { IfErr result (IsOfLive text.now kernel) }
{
    let script = match script_of(alloc, text) {
        Ok(script) => script,
        Err(fault) => return Err(Fault::Run(fault)),
    };
    match run_setup(rt, alloc, &script, turns, kernel) {
        Ok(closed) => Ok(closed),
        Err(fault) => Err(Fault::Live(fault)),
    }
}

// Runs a script's setup with one thread per actor.
fn run_setup<R: Threads + Wait + Clock + Sync>(
    rt: &R,
    alloc: Global,
    script: &Script,
    turns: u32,
    kernel: u32,
) -> Result<Closed, LiveFault>
    requires { kernel ≤ 8 }
    ensures whole { IfOk result Whole }
    ensures same { IfOk result (λ c. (c.setup ≡ script.now.setup)
        × (c.actors ≡ actors script.now.setup kernel)) }
    ensures other { IfErr result
        (IsOfRunning script.now.setup (actors script.now.setup kernel)) }
{
    run_live(rt, alloc, script.setup(), kernel, turns, &AlwaysOpen)
}

/// Replies to the reader's lines in a session over a closed run. The session's memory isn't freed:
/// a program ends after the last reply.
pub fn answer_closed<R: Read, W: Write>(
    alloc: Global,
    closed: &Closed,
    reader: &mut R,
    writer: &mut W,
) -> Result<(), RunFault>
    // The bytes written are the output of a session over the run's setup and events, without a
    // source.
    ensures ok { OnOk result (Walked closed.now.setup closed.now.events
        (streams (R.remaining reader.old) (W.contents writer.old))
        (streams (R.remaining reader.new) (W.contents writer.new))) }
    ensures memory { IfErr result (λ e. e ≡ RunFault.Memory
        → Keeps (W.contents writer.old) (W.contents writer.new)) }
    // Unless serving failed, nothing was read.
    ensures unread { IfErr result (λ e. is_kind e OfServing ≡ false
        → Keeps (R.remaining reader.old) (R.remaining reader.new)) }
    // If serving failed, a prefix of that output was written.
    ensures begins { IfErr result (λ e. (f : ServeFault) → e ≡ RunFault.Serve f
        → BrokenOff closed.now.setup closed.now.events
        (streams (R.remaining reader.old) (W.contents writer.old))
        (streams (R.remaining reader.new) (W.contents writer.new)) f) }
    ensures open { result ≢ Err (RunFault.Serve WasClosed) }
    // No event is refused.
    ensures other { IfErr result (IsOf (OfServing ∷ OfMemory ∷ [])) }
{
    walk_events(alloc, closed.setup(), closed.events(), reader, writer)
}

/// Writes the trace of a closed run, in the second form.
pub fn trace_closed(alloc: Global, closed: &Closed) -> Result<Traced, AllocError>
    ensures { IfOk result
        (λ t. IsTrace2 (canonical closed.now.setup) closed.now.events t.bytes.items
        × (t.events ≡ length closed.now.events)) }
{
    let events = closed.events();
    Ok(Traced {
        events: events.len() as u32,
        bytes: write_trace2(alloc, closed.setup(), events)?,
    })
}
