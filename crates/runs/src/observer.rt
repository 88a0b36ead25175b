//! Observers, which are called before and after each event of a run.
ghost use Rattle.std.specs.Prelude.{ℕ, List, IfOk, OnOk, IfErr, ◌+◌};
ghost use Rattle.runs.specs.{Common.Event, Common.Setup, Moments.IsAfter, Moments.IsBefore};

use machine::{Event, Setup, State};
use places::Record;

/// An event of a run, and the state before or after it.
#[derive(Clone, Copy)]
pub struct Observed<'a> {
    pub setup: &'a Setup,
    pub events: &'a [Event],
    /// The event's index, counted from 0.
    pub index: usize,
    pub event: Event,
    pub state: &'a State,
}

/// An observer of a run. It is called before and after each event, and may stop the run.
pub trait Observer {
    /// What the observer remembers of the state before an event, for the call after the event.
    type Note: Drop;
    /// Why the observer stops a run.
    type Stop: Drop;

    /// The invariant of an observer that has seen this number of a run's events.
    ghost has_seen: { Self → Setup → List Event → ℕ → Type 0 };

    /// The contract of a note about the event at an index.
    ghost notes: { Setup → List Event → ℕ → Self.Note → Type 0 };

    /// The contract of an observer that stops at the event at an index, and of its reason.
    ghost stops: { Self → Setup → List Event → ℕ → Self.Stop → Type 0 };

    /// Inspects an event that is about to be stepped.
    fn before(&self, at: Observed<'_>) -> Result<Self::Note, Self::Stop>
        requires at { IsBefore at.setup.now at.events.now at.index at.event at.state.now }
        requires seen { has_seen self.now at.setup.now at.events.now at.index }
        ensures ok { IfOk result (notes at.entry.setup.now at.entry.events.now at.entry.index) }
        ensures err { IfErr result
            (stops self.now at.entry.setup.now at.entry.events.now at.entry.index) };

    /// Inspects an event that was stepped, with its undo record and the note from before it.
    fn after(&mut self, at: Observed<'_>, past: &Record, note: Self::Note) -> Result<(), Self::Stop>
        requires at { IsAfter at.setup.now at.events.now at.index at.event past.now at.state.now }
        requires seen { has_seen self.old at.setup.now at.events.now at.index }
        requires note { notes at.setup.now at.events.now at.index note }
        ensures ok { OnOk result
            (has_seen self.new at.entry.setup.now at.entry.events.now (at.entry.index + 1)) }
        ensures err { IfErr result
            (stops self.new at.entry.setup.now at.entry.events.now at.entry.index) };
}
