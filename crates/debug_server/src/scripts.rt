//! Reading the script of a run.
ghost use Rattle.std.specs.Prelude.{◌≡◌, ◌∷◌, [], Ok, Err, IfOk, IfErr};
ghost use Rattle.script.specs.Scripts.{Reads};
ghost use Rattle.script.specs.declared.fault.ScriptFault.{ScriptFault};
ghost use Rattle.debug_server.specs.Kinds.{IsOf, OfScript, OfMemory};

use crate::faults::RunFault;
use script::{Script, ScriptFault, read_script};
use std::alloc::Global;

/// Reads a script. An allocation failure is reported as `RunFault::Memory`.
pub fn script_of(alloc: Global, text: &[u8]) -> Result<Script, RunFault>
    ensures ok { IfOk result (λ s. Reads text.now (Ok s)) }
    ensures script { IfErr result (λ e. (f : ScriptFault) → e ≡ RunFault.Script f
        → Reads text.now (Err f)) }
    ensures other { IfErr result (IsOf (OfScript ∷ OfMemory ∷ [])) }
{
    match read_script(alloc, text) {
        Ok(script) => Ok(script),
        Err(ScriptFault::Memory) => Err(RunFault::Memory),
        Err(fault) => Err(RunFault::Script(fault)),
    }
}
