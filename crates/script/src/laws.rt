//! Laws of the definitions.
ghost use Rattle.std.specs.Prelude.{◌≡◌, ℕ, List, Result};
ghost use Rattle.script.specs.declared.fault.ScriptFault.{ScriptFault};
ghost use Rattle.script.specs.Scripts.{Scenario, Reads};

/// A text has one reading: a script, or its first fault.
pub fn texts_read_alike()
    ensures { (text : List ℕ) (one other : Result Scenario ScriptFault) → Reads text one
        → Reads text other → one ≡ other }
{}
