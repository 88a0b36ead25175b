//! Numbered runs, some of which show what is searched for.
ghost use Rattle.std.specs.Prelude.{◌↔◌, ℕ, IsTrue, OnOk, IfOk};
ghost use Rattle.search_rounds.specs.declared.outcome.Outcome.{Outcome};

use crate::outcome::Outcome;
use std::alloc::AllocError;

/// Numbered runs, each of which can be repeated. Threads share an experiment, and each has its own
/// worker.
pub trait Experiment: Sync {
    type Worker: Send + Drop;

    // Whether the run of a number shows what is searched for.
    ghost shows: { Self → ℕ → Type 0 };

    // What the run of a number shows.
    ghost gives: { Self → ℕ → Outcome → Type 0 };

    // Whether a worker can make a run.
    ghost is_ready: { Self → Self.Worker → Type 0 };

    /// Makes the run of a number.
    fn run(&self, worker: &mut Self::Worker, number: u32) -> Result<Outcome, AllocError>
        requires { is_ready self.now worker.old }
        ensures ready { OnOk result (is_ready self.now worker.new) }
        ensures shows { IfOk result (λ o. IsTrue o.shows ↔ shows self.now number) }
        ensures gives { IfOk result (gives self.now number) };
}
