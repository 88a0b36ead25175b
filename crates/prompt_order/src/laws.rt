//! Theorems about the definitions in specs/.
ghost use Rattle.std.specs.Prelude.{◌≡◌, ℕ, List, ◌∷◌, []};
ghost use Rattle.machine.specs.Runs.{start, run};
ghost use Rattle.machine.specs.Whole.{WellFormed};
ghost use Rattle.machine.specs.declared.whole.Machine.{Machine};
ghost use Rattle.scenario.specs.declared.event.Event.{Event};
ghost use Rattle.quiescence.specs.Over.{IsActive};
ghost use Rattle.prompt_order.specs.Prompt.{IsPromptNext, IsPromptFrom};

/// A prompt run ends only where it is over: wherever an event is accepted that isn't idle, such an
/// event is next.
pub fn goes_on()
    ensures { (m : Machine) (from : ℕ) (e : Event) → IsActive m e
        → (f : Event) × (next : ℕ) × IsActive m f × IsPromptNext m from f next }
{}

/// At most one event is due, and only where a submission hasn't ended, so that the events determine
/// how far submissions are.
pub fn one_way()
    ensures { (m : Machine) (from a b : ℕ) (e : Event) → IsPromptNext m from e a
        → IsPromptNext m from e b → a ≡ b }
{}
