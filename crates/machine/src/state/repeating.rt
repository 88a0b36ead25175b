//! Steps that were made before: their records are there, so none is made.
ghost use Rattle.std.specs.Prelude.{◌≡◌, Some, None, OnOk, OnErr, IfErr};
ghost use Rattle.machine.specs.Whole.{WellFormed};
ghost use Rattle.machine.specs.Steps.{Next, refusal};
ghost use Rattle.scenario.specs.declared.event.Refusal.{Refusal};
ghost use Rattle.scenario.specs.declared.event.Refusal.TheVariants.{Memory};

use super::State;
use scenario::{Event, Refusal};
use std::mem;

impl State {
    /// Carries out one event as `step` does, but makes no record.
    pub fn repeat(&mut self, event: Event) -> Result<(), Refusal>
        ensures next { OnOk result (Next self.old event self.new) }
        ensures refused { (n : Refusal) → refusal self.old event ≡ Some n → result ≡ Err n }
        ensures only_memory { IfErr result (λ n. refusal self.old event ≡ None → n ≡ Memory) }
        ensures err { OnErr result (self.new ≡ self.old) }
        ensures formed { WellFormed self.old }
    {
        let plan = self.machine.plan(event)?;
        let done = self.machine.perform(plan, &mut self.notes);
        match done {
            Ok(()) => {
                self.notes.forget();
                Ok(())
            }
            Err(_) => {
                let past = self.notes.finish(&self.machine);
                self.machine.restore(&past);
                past.discard();
                Err(Refusal::Memory)
            }
        }
    }

    /// Swaps two states. The memory for the notes of steps stays with each. Allocates nothing.
    pub fn exchange(&mut self, other: &mut State)
        ensures this { self.new ≡ other.old }
        ensures that { other.new ≡ self.old }
    {
        mem::swap(&mut self.machine, &mut other.machine);
    }
}
