//! Theorems about the definitions in specs/.
ghost use Rattle.std.specs.Prelude.{◌≡◌, ℕ, map};
ghost use Rattle.finding_rules.specs.{Step, Setup, Machine, refusal, program_of, is_stuck, is_of_ring};

/// A thread is stuck exactly if its next step is refused because the submission ring is full or the
/// completion ring is empty, in a machine whose threads have the programs of the setup.
pub fn stuck_steps_are_refused()
    ensures { (s : Setup) (m : Machine) (t : ℕ) → map program_of m.threads ≡ s.threads
        → is_stuck s m t ≡ is_of_ring (refusal m (Step t)) }
{}
