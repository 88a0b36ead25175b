//! Sessions over a script or over a list of events.
ghost use Rattle.std.specs.Prelude.{◌≡◌, ◌≢◌, ◌≤◌, ℕ, false, Ok, Err, None, OnOk, IfErr, length, ◌∷◌, []};
ghost use Rattle.std.specs.Io.KnownBytes.{Keeps};
ghost use Rattle.machine.specs.Runs.{IsRefused};
ghost use Rattle.scenario.specs.Setups.{setup_refusal};
ghost use Rattle.scenario.specs.declared.event.Refusal.{Refusal};
ghost use Rattle.script.specs.Scripts.{Scenario, Reads};
ghost use Rattle.script.specs.declared.fault.ScriptFault.{ScriptFault};
ghost use Rattle.debug_server.specs.Kinds.{IsOf, is_kind, OfScript, OfSchedule, OfServing, OfMemory};
ghost use Rattle.debug_server.specs.declared.faults.ServeFault.{ServeFault};
ghost use Rattle.debug_server.specs.declared.faults.ServeFault.TheVariants.{Closed};
ghost use Rattle.debug_server.specs.Transcripts.{streams};
ghost use Rattle.debug_server.specs.Walked.{Walked, BrokenOff, Replied, BrokenBy};

use crate::faults::RunFault;
use crate::serving::serve;
use crate::session::Session;
use crate::source::NoSource;
use machine::{Event, Setup};
use script::{Script, ScriptFault, read_script};
use std::alloc::Global;
use std::io::{Read, Write};
use std::mem;

/// Reads a script, runs its schedule, and replies to the reader's lines. The session's memory isn't
/// freed: a program ends after the last reply.
pub fn walk<R: Read, W: Write>(
    alloc: Global,
    text: &[u8],
    reader: &mut R,
    writer: &mut W,
) -> Result<(), RunFault>
    // The schedule is accepted, and the bytes written are the output of the script's session,
    // without a source.
    ensures ok { OnOk result ((p : Scenario) × Reads text.now (Ok p) × Walked p.setup p.schedule
        (streams (R.remaining reader.old) (W.contents writer.old))
        (streams (R.remaining reader.new) (W.contents writer.new))) }
    // A script fault is the script's first one, and a schedule fault names the first refused event.
    // In both cases nothing was written.
    ensures script { IfErr result (λ e. (f : ScriptFault) → e ≡ RunFault.Script f
        → Reads text.now (Err f) × Keeps (W.contents writer.old) (W.contents writer.new)) }
    ensures schedule { IfErr result (λ e. (i : ℕ) → (n : Refusal) → e ≡ RunFault.Schedule i n
        → (p : Scenario) × Reads text.now (Ok p) × IsRefused p.setup p.schedule i n
        × Keeps (W.contents writer.old) (W.contents writer.new)) }
    ensures memory { IfErr result (λ e. e ≡ RunFault.Memory
        → Keeps (W.contents writer.old) (W.contents writer.new)) }
    // Unless serving failed, nothing was read.
    ensures unread { IfErr result (λ e. is_kind e OfServing ≡ false
        → Keeps (R.remaining reader.old) (R.remaining reader.new)) }
    // If serving failed, a prefix of that output was written.
    ensures begins { IfErr result (λ e. (f : ServeFault) → e ≡ RunFault.Serve f → (p : Scenario)
        × Reads text.now (Ok p) × BrokenOff p.setup p.schedule
        (streams (R.remaining reader.old) (W.contents writer.old))
        (streams (R.remaining reader.new) (W.contents writer.new)) f) }
    ensures open { result ≢ Err (RunFault.Serve Closed) }
    ensures other { IfErr result (IsOf (OfScript ∷ OfSchedule ∷ OfServing ∷ OfMemory ∷ [])) }
{
    let script = match read_script(alloc, text) {
        Ok(script) => script,
        Err(ScriptFault::Memory) => return Err(RunFault::Memory),
        Err(fault) => return Err(RunFault::Script(fault)),
    };
    walk_script(alloc, &script, reader, writer)?;
    Ok(())
}

// Runs a script's schedule, and replies to the reader's lines.
fn walk_script<R: Read, W: Write>(
    alloc: Global,
    script: &Script,
    reader: &mut R,
    writer: &mut W,
) -> Result<(), RunFault>
    ensures ok { OnOk result (Walked script.now.setup script.now.schedule
        (streams (R.remaining reader.old) (W.contents writer.old))
        (streams (R.remaining reader.new) (W.contents writer.new))) }
    ensures script { IfErr result (λ e. (f : ScriptFault) → e ≢ RunFault.Script f) }
    ensures schedule { IfErr result (λ e. (i : ℕ) → (n : Refusal) → e ≡ RunFault.Schedule i n
        → IsRefused script.now.setup script.now.schedule i n
        × Keeps (W.contents writer.old) (W.contents writer.new)) }
    ensures memory { IfErr result (λ e. e ≡ RunFault.Memory
        → Keeps (W.contents writer.old) (W.contents writer.new)) }
    ensures unread { IfErr result (λ e. is_kind e OfServing ≡ false
        → Keeps (R.remaining reader.old) (R.remaining reader.new)) }
    ensures begins { IfErr result (λ e. (f : ServeFault) → e ≡ RunFault.Serve f
        → BrokenOff script.now.setup script.now.schedule
        (streams (R.remaining reader.old) (W.contents writer.old))
        (streams (R.remaining reader.new) (W.contents writer.new)) f) }
    ensures open { result ≢ Err (RunFault.Serve Closed) }
    ensures other { IfErr result (IsOf (OfScript ∷ OfSchedule ∷ OfServing ∷ OfMemory ∷ [])) }
{
    walk_events(alloc, script.setup(), script.schedule(), reader, writer)
}

/// Runs events from the start of a setup, and replies to the reader's lines. The session's memory
/// isn't freed: a program ends after the last reply.
pub fn walk_events<R: Read, W: Write>(
    alloc: Global,
    setup: &Setup,
    events: &[Event],
    reader: &mut R,
    writer: &mut W,
) -> Result<(), RunFault>
    requires starts { setup_refusal setup.now ≡ None }
    requires most { length events.now ≤ 1048576 }
    ensures ok { OnOk result (Walked setup.now events.now
        (streams (R.remaining reader.old) (W.contents writer.old))
        (streams (R.remaining reader.new) (W.contents writer.new))) }
    ensures schedule { IfErr result (λ e. (i : ℕ) → (n : Refusal) → e ≡ RunFault.Schedule i n
        → IsRefused setup.now events.now i n
        × Keeps (W.contents writer.old) (W.contents writer.new)) }
    ensures memory { IfErr result (λ e. e ≡ RunFault.Memory
        → Keeps (W.contents writer.old) (W.contents writer.new)) }
    ensures unread { IfErr result (λ e. is_kind e OfServing ≡ false
        → Keeps (R.remaining reader.old) (R.remaining reader.new)) }
    ensures begins { IfErr result (λ e. (f : ServeFault) → e ≡ RunFault.Serve f
        → BrokenOff setup.now events.now
        (streams (R.remaining reader.old) (W.contents writer.old))
        (streams (R.remaining reader.new) (W.contents writer.new)) f) }
    ensures open { result ≢ Err (RunFault.Serve Closed) }
    ensures other { IfErr result (IsOf (OfSchedule ∷ OfServing ∷ OfMemory ∷ [])) }
{
    let session = Session::of(alloc, setup, events)?;
    reply_to_all(session, reader, writer)
}

/// Replies to the reader's lines, without a source. A program ends after the last of them, so the
/// session is forgotten, which takes no time, and not freed record by record.
pub(crate) fn reply_to_all<R: Read, W: Write>(
    session: Session,
    reader: &mut R,
    writer: &mut W,
) -> Result<(), RunFault>
    requires { session.is_closed ≡ false }
    ensures ok { OnOk result (Replied session.state
        (streams (R.remaining reader.old) (W.contents writer.old))
        (streams (R.remaining reader.new) (W.contents writer.new))) }
    ensures err { IfErr result (BrokenBy session.state
        (streams (R.remaining reader.old) (W.contents writer.old))
        (streams (R.remaining reader.new) (W.contents writer.new))) }
    ensures open { result ≢ Err (RunFault.Serve Closed) }
{
    let mut session = session;
    let ended = serve(&mut session, reader, writer, &mut NoSource);
    mem::forget(session);
    match ended {
        Ok(()) => Ok(()),
        Err(fault) => Err(RunFault::Serve(fault)),
    }
}
