//! The state of a run, and its steps.

mod extents;
mod repeating;
mod rows;
mod snapshot;

use crate::whole::Machine;
use places::{At, Place, Record, Recorder, Value};
use ring_words::{ComRing, SubRing};
use scenario::{Event, Refusal, Setup, SetupRefusal, setup_refusal};
pub use snapshot::Snapshot;
use std::alloc::{AllocError, Global};
use std::marker::Model;

/// The state of a run: the machine, and a recorder for the undo record of the next step.
pub struct State {
    machine: Machine,
    /// Empty between steps. Its memory is reused by the next step.
    notes: Recorder,
}

// Written by hand, so that dropping a state is one step of a proof.
impl Drop for State {
    fn drop(self) {
        let State {
            machine: _,
            notes: _,
        } = self;
    }
}

impl Model for State {
    ghost use Rattle.machine.specs.declared.whole.Machine.{Machine};
    ghost use Rattle.machine.specs.Whole.{WellFormed};
    ghost use Rattle.std.specs.Prelude.{◌≡◌, []};

    ghost Value = { Machine };

    ghost view = { λ a. a.machine };

    ghost invariant = { λ a. WellFormed a.machine × (a.notes.made ≡ []) };
}

impl State {
    ghost use Rattle.std.specs.Prelude.{◌≡◌, List, Some, None, IfOk, OnOk, OnErr, IfErr};
    ghost use Rattle.places.specs.declared.place.Place.{Place};
    ghost use Rattle.places.specs.View.{Exact, LeadsBack, undo, undo_all};
    ghost use Rattle.machine.specs.Whole.{view, WellFormed};
    ghost use Rattle.machine.specs.Steps.{Next, refusal};
    ghost use Rattle.machine.specs.Runs.{start, Link, Linked};
    ghost use Rattle.scenario.specs.Setups.{setup_refusal};
    ghost use Rattle.scenario.specs.declared.setup.SetupRefusal.{SetupRefusal};
    ghost use Rattle.scenario.specs.declared.setup.SetupRefusal.TheVariants.{Memory as OutOfMemory};
    ghost use Rattle.scenario.specs.declared.event.Event.{Event};
    ghost use Rattle.scenario.specs.declared.event.Refusal.{Refusal};
    ghost use Rattle.scenario.specs.declared.event.Refusal.TheVariants.{Memory};
    ghost use Rattle.machine.specs.declared.whole.Machine.{Machine};

    /// Builds the initial state. An invalid setup is refused with its first error, even when memory
    /// is short.
    pub fn new(alloc: Global, setup: &Setup) -> Result<State, SetupRefusal>
        ensures start { IfOk result (λ s. s ≡ start setup.now) }
        ensures refused { (r : SetupRefusal) → setup_refusal setup.now ≡ Some r → result ≡ Err r }
        ensures only_memory { IfErr result (λ r. setup_refusal setup.now ≡ None → r ≡ OutOfMemory) }
    {
        if let Some(r) = setup_refusal(setup) {
            return Err(r);
        }
        match Machine::new(alloc, setup) {
            Ok(machine) => Ok(State {
                machine,
                notes: Recorder::new(alloc),
            }),
            Err(_) => Err(SetupRefusal::Memory),
        }
    }

    /// Copies the state.
    pub fn copy(&self, alloc: Global) -> Result<State, AllocError>
        ensures { IfOk result (λ s. s ≡ self.now) }
    {
        Ok(State {
            machine: self.machine.copy(alloc)?,
            notes: Recorder::new(alloc),
        })
    }

    /// Returns the value of a place. Doesn't allocate.
    pub fn value(&self, place: Place) -> Option<Value>
        ensures value { result ≡ view self.now place }
        ensures formed { WellFormed self.now }
    {
        self.machine.at(place)
    }

    /// Returns the clock, in nanoseconds.
    pub fn clock(&self) -> u64
        ensures value { result ≡ self.now.clock }
        ensures formed { WellFormed self.now }
    {
        self.machine.clock
    }

    /// Returns the submission ring.
    pub fn submissions(&self) -> &SubRing
        ensures { result.now ≡ self.now.submissions }
    {
        &self.machine.submissions
    }

    /// Returns the completion ring.
    pub fn completions(&self) -> &ComRing
        ensures { result.now ≡ self.now.completions }
    {
        &self.machine.completions
    }

    /// Returns why an event is refused, if it is. Doesn't allocate.
    pub fn refuses(&self, event: Event) -> Option<Refusal>
        ensures { result ≡ refusal self.now event }
    {
        self.machine.refuses(event)
    }

    /// Carries out one event atomically. Returns the undo record: the places whose value changed,
    /// with their old values. If the event is refused, or an allocation fails, the state is
    /// unchanged.
    #[inline(always)]
    pub fn step(&mut self, event: Event) -> Result<Record, Refusal>
        ensures next { OnOk result (Next self.old event self.new) }
        ensures exact { IfOk result (λ r. Exact (view self.old) (view self.new) r) }
        ensures leads_back { IfOk result (λ r. LeadsBack (view self.old) (view self.new) r) }

        // The reason for a refusal doesn't depend on memory. An accepted event can only run out of
        // memory.
        ensures refused { (n : Refusal) → refusal self.old event ≡ Some n → result ≡ Err n }
        ensures only_memory { IfErr result (λ n. refusal self.old event ≡ None → n ≡ Memory) }
        ensures err { OnErr result (self.new ≡ self.old) }
        ensures formed { WellFormed self.old }
    {
        let plan = self.machine.plan(event)?;
        let done = self.machine.perform(plan, &mut self.notes);
        let past = self.notes.finish(&self.machine);
        match done {
            Ok(()) => Ok(past),
            Err(_) => {
                self.machine.restore(&past);
                past.discard();
                Err(Refusal::Memory)
            }
        }
    }

    /// Undoes the last step, given its record. Doesn't allocate.
    pub fn put_back(&mut self, past: &Record)
        requires { (s : Machine) × (e : Event) × Link s e past.now self.old }
        ensures undone { (p : Place) → view self.new p ≡ undo (view self.old) past.now p }
        ensures back { (s : Machine) (e : Event) → Link s e past.now self.old → self.new ≡ s }
    {
        self.machine.restore(past);
    }

    /// Undoes several steps, the last one first, given their records. Doesn't allocate.
    pub fn unwind(&mut self, records: &[Record])
        requires { (s : Machine) × (es : List Event) × Linked s es records.now self.old }
        ensures undone { (p : Place) → view self.new p ≡ undo_all (view self.old) records.now p }
        ensures back { (s : Machine) (es : List Event) → Linked s es records.now self.old
            → self.new ≡ s }
    {
        let mut i = records.len();
        while i > 0 {
            i -= 1;
            self.put_back(&records[i]);
        }
    }
}
