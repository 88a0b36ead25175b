//! Sources, which supply a session with the events of a live run.
ghost use Rattle.std.specs.Prelude.{◌≡◌, IfOk, OnErr, Option, List, None, option_map};
ghost use Rattle.scenario.specs.declared.event.Event.{Event};

use machine::Event;
use std::alloc::AllocError;

/// A live trace, which may grow between calls.
pub trait Source {
    /// Which answers a call may return, and the source after it.
    ghost gives: { Self → Option (List Event) → Self → Type 0 };

    /// The source after a call in which an allocation failed.
    ghost fails: { Self → Self → Type 0 };

    /// Returns the trace so far, or `None` if there is no live run.
    fn trace(&mut self) -> Result<Option<Vec<Event>>, AllocError>
        ensures answers_as { IfOk result
            (λ answer. gives self.old (option_map (λ v. v.items) answer) self.new) }
        ensures fails_as { OnErr result (fails self.old self.new) };
}

/// The source of a session that has no live run.
#[derive(Clone, Copy)]
pub struct NoSource;

impl Source for NoSource {
    ghost gives = { λ _ answer _. answer ≡ None };

    ghost fails = { λ _ _. ⊥ };

    fn trace(&mut self) -> Result<Option<Vec<Event>>, AllocError> {
        Ok(None)
    }
}
