//! Sessions over a trace of the second form, which contains its setup.
ghost use Rattle.std.specs.Prelude.{◌≡◌, ◌≢◌, ℕ, false, List, None, Err, OnOk, IfErr, ◌∷◌, []};
ghost use Rattle.std.specs.Io.KnownBytes.{Keeps};
ghost use Rattle.machine.specs.Runs.{IsRefused};
ghost use Rattle.scenario.specs.declared.event.Event.{Event};
ghost use Rattle.scenario.specs.declared.event.Refusal.{Refusal};
ghost use Rattle.scenario.specs.Setups.{setup_refusal};
ghost use Rattle.scenario.specs.declared.setup.Setup.{Setup};
ghost use Rattle.traces.specs.Reading.{IsFault2};
ghost use Rattle.traces.specs.Setups.{canonical, IsTrace2};
ghost use Rattle.traces.specs.declared.fault.TraceFault.{TraceFault};
ghost use Rattle.debug_server.specs.Kinds.{IsOf, is_kind, OfSchedule, OfServing, OfMemory, OfTrace};
ghost use Rattle.debug_server.specs.declared.faults.ServeFault.{ServeFault};
ghost use Rattle.debug_server.specs.declared.faults.ServeFault.TheVariants.{Closed};
ghost use Rattle.debug_server.specs.Transcripts.{streams};
ghost use Rattle.debug_server.specs.Walked.{Walked, BrokenOff};

use crate::faults::RunFault;
use crate::session::Session;
use crate::walking::reply_to_all;
use std::alloc::Global;
use std::io::{Read, Write};
use traces::{TraceFault, read_trace2};

/// Reads a trace of the second form, runs its events from its setup, and replies to the reader's
/// lines. The session's memory isn't freed: a program ends after the last reply.
pub fn replay<R: Read, W: Write>(
    alloc: Global,
    trace: &[u8],
    reader: &mut R,
    writer: &mut W,
) -> Result<(), RunFault>
    // The events are accepted, and the bytes written are the output of a session over the trace's
    // setup and events, without a source.
    ensures ok { OnOk result ((setup : Setup) × (events : List Event)
        × IsTrace2 setup events trace.now × Walked setup events
        (streams (R.remaining reader.old) (W.contents writer.old))
        (streams (R.remaining reader.new) (W.contents writer.new))) }
    // If the trace was written of a setup and events, this is the session over them.
    ensures again { (setup : Setup) → (events : List Event) → setup_refusal setup ≡ None
        → IsTrace2 (canonical setup) events trace.now → OnOk result (Walked setup events
        (streams (R.remaining reader.old) (W.contents writer.old))
        (streams (R.remaining reader.new) (W.contents writer.new))) }
    // A trace fault is the trace's first one, and a schedule fault names the first refused event.
    // In both cases nothing was written.
    ensures trace { IfErr result (λ e. (f : TraceFault) → e ≡ RunFault.Trace f
        → IsFault2 trace.now f × Keeps (W.contents writer.old) (W.contents writer.new)) }
    ensures schedule { IfErr result (λ e. (i : ℕ) → (n : Refusal) → e ≡ RunFault.Schedule i n
        → (setup : Setup) × (events : List Event) × IsTrace2 setup events trace.now
        × IsRefused setup events i n × Keeps (W.contents writer.old) (W.contents writer.new)) }
    ensures memory { IfErr result (λ e. e ≡ RunFault.Memory
        → Keeps (W.contents writer.old) (W.contents writer.new)) }
    // Unless serving failed, nothing was read.
    ensures unread { IfErr result (λ e. is_kind e OfServing ≡ false
        → Keeps (R.remaining reader.old) (R.remaining reader.new)) }
    // If serving failed, a prefix of that output was written.
    ensures begins { IfErr result (λ e. (f : ServeFault) → e ≡ RunFault.Serve f → (setup : Setup)
        × (events : List Event) × IsTrace2 setup events trace.now × BrokenOff setup events
        (streams (R.remaining reader.old) (W.contents writer.old))
        (streams (R.remaining reader.new) (W.contents writer.new)) f) }
    ensures open { result ≢ Err (RunFault.Serve Closed) }
    ensures other { IfErr result (IsOf (OfTrace ∷ OfSchedule ∷ OfServing ∷ OfMemory ∷ [])) }
{
    let (setup, events) = match read_trace2(alloc, trace) {
        Ok(found) => found,
        Err(TraceFault::Memory) => return Err(RunFault::Memory),
        Err(fault) => return Err(RunFault::Trace(fault)),
    };
    let session = Session::owning(alloc, setup, &events)?;
    reply_to_all(session, reader, writer)
}
