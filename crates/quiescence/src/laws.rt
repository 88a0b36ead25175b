//! Theorems about the definitions in specs/.
ghost use Rattle.std.specs.Prelude.{◌≡◌, None};
ghost use Rattle.machine.specs.Steps.{refusal, after};
ghost use Rattle.machine.specs.Whole.{WellFormed};
ghost use Rattle.machine.specs.declared.whole.Machine.{Machine};
ghost use Rattle.scenario.specs.declared.event.Event.{Event};
ghost use Rattle.quiescence.specs.Over.{IsOver};

/// A machine that is over stays over: it accepts only idle events, and is over after each of them.
pub fn stays_over()
    ensures { (m : Machine) (e : Event) → WellFormed m → IsOver m → refusal m e ≡ None
        → IsOver (after m e) }
{}
