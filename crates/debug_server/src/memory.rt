//! Sessions whose input and output are in memory.
ghost use Rattle.std.specs.Prelude.{◌≡◌, ◌≢◌, ℕ, Ok, Err, IfOk, IfErr, ◌∷◌, []};
ghost use Rattle.machine.specs.Runs.{start, Accepts, IsRefused};
ghost use Rattle.scenario.specs.declared.event.Refusal.{Refusal};
ghost use Rattle.script.specs.declared.fault.ScriptFault.{ScriptFault};
ghost use Rattle.script.specs.Scripts.{Scenario, Reads};
ghost use Rattle.debug_server.specs.Kinds.{IsOf, OfScript, OfSchedule, OfServing, OfMemory};
ghost use Rattle.debug_server.specs.Lines.{lines_of};
ghost use Rattle.debug_server.specs.Transcripts.{unanswered, output};
ghost use Rattle.debug_server.specs.Schedules.{state_over};
ghost use Rattle.debug_server.specs.declared.faults.ServeFault.{ServeFault};
ghost use Rattle.debug_server.specs.declared.faults.ServeFault.TheVariants.{Closed};

use crate::faults::RunFault;
use crate::walking::walk;
use std::alloc::Global;

/// Returns the replies of a script's session to the input. The session's memory isn't freed.
pub fn replies(alloc: Global, script: &[u8], input: &[u8]) -> Result<Vec<u8>, RunFault>
    // The schedule was accepted, and the result is exactly the replies to the input's lines, up to
    // `quit`, without a source.
    ensures ok { IfOk result (λ out. (p : Scenario) × Reads script.now (Ok p)
        × Accepts (start p.setup) p.schedule
        × (out.items
        ≡ output (state_over p.setup p.schedule) (lines_of input.now)
        (unanswered (lines_of input.now)))) }
    // A script fault is the script's first one, and a schedule fault names the first refused event.
    ensures script { IfErr result (λ e. (f : ScriptFault) → e ≡ RunFault.Script f
        → Reads script.now (Err f)) }
    ensures schedule { IfErr result (λ e. (i : ℕ) → (n : Refusal) → e ≡ RunFault.Schedule i n
        → (p : Scenario) × Reads script.now (Ok p) × IsRefused p.setup p.schedule i n) }
    // Serving fails only after the whole schedule has run.
    ensures begins { IfErr result (λ e. (f : ServeFault) → e ≡ RunFault.Serve f
        → (p : Scenario) × Reads script.now (Ok p) × Accepts (start p.setup) p.schedule) }
    ensures other { IfErr result (IsOf (OfScript ∷ OfSchedule ∷ OfServing ∷ OfMemory ∷ [])) }
    ensures open { result ≢ Err (RunFault.Serve Closed) }
{
    let mut reader = input;
    let mut out = Vec::new(alloc);
    walk(alloc, script, &mut reader, &mut out)?;
    Ok(out)
}
