//! A run that is walked one event at a time. `Walker` adds checkpoints and jumps to it.
ghost use Rattle.std.specs.Prelude.{◌≡◌, ℕ, ◌-◌, ◌+◌, ◌^◌, ◌<◌, ◌≤◌, ◌⊎◌, ◌∷◌, ◌++◌, [], Some, None, List, length, take, OnOk, OnErr, IfErr, IfOk};
ghost use Rattle.machine.specs.declared.whole.Machine.{Machine};
ghost use Rattle.scenario.specs.declared.event.Refusal.{Refusal};
ghost use Rattle.scenario.specs.declared.setup.SetupRefusal.{SetupRefusal};
ghost use Rattle.machine.specs.Steps.{refusal};
ghost use Rattle.machine.specs.Runs.{start, moment, Accepts, Linked, setup_refusal};
ghost use Rattle.inverse_log.specs.Tracks.{tallied as tallied_by};

use crate::refusal::ExtendRefusal;
use machine::{Event, Refusal, Setup, SetupRefusal, Snapshot, State};
use places::Record;
use std::alloc::{AllocError, Global};
use std::marker::Model;
use std::mem;

/// A run with a record of each event, at one of its moments.
#[derive(Drop)]
pub struct Trail {
    alloc: Global,
    setup: Setup,
    events: Vec<Event>,
    records: Vec<Record>,
    at: usize,
    state: State,
    /// A state whose storage the next far jump reuses.
    spare: Option<State>,
    walked: u64,
}

/// Whether steps are added to the count of `walked`: those of a jump are.
#[derive(Clone, Copy)]
pub enum Tally {
    Counted,
    Free,
}

impl Model for Trail {
    ghost use Rattle.inverse_log.specs.Tracks.{Track, Keeps};

    ghost Value = { Track };

    ghost view = { λ t. record
        { setup = t.setup; events = t.events.items; at = t.at; walked = t.walked } };

    ghost invariant = { λ t. Keeps t.setup t.events.items t.records.items t.at t.state t.walked };
}

impl Trail {
    ghost use Rattle.inverse_log.specs.Tracks.{current, ends, stepped, reached, grown, RefusedAt, Recorded, Covers};

    /// Returns a run without events, at its start. Fails as `State::new` does: if the setup breaks
    /// a limit, or with `Memory`.
    pub fn new(alloc: Global, setup: &Setup) -> Result<Trail, SetupRefusal>
        ensures fresh { IfOk result (λ t. t
            ≡ record { setup = setup.now; events = []; at = 0; walked = 0 }) }
        ensures refused { (r : SetupRefusal) → setup_refusal setup.now ≡ Some r → result ≡ Err r }
        ensures only_memory { IfErr result (λ r. setup_refusal setup.now ≡ None
            → r ≡ SetupRefusal.Memory) }
    {
        let state = State::new(alloc, setup)?;
        match setup.copy(alloc) {
            Ok(setup) => Ok(at_start(alloc, setup, state)),
            Err(_) => Err(SetupRefusal::Memory),
        }
    }

    /// The same as `new`, but keeps the setup itself and not a copy.
    pub fn of(alloc: Global, setup: Setup) -> Result<Trail, SetupRefusal>
        ensures fresh { IfOk result (λ t. t
            ≡ record { setup = setup; events = []; at = 0; walked = 0 }) }
        ensures refused { (r : SetupRefusal) → setup_refusal setup ≡ Some r → result ≡ Err r }
        ensures only_memory { IfErr result (λ r. setup_refusal setup ≡ None
            → r ≡ SetupRefusal.Memory) }
    {
        let state = State::new(alloc, &setup)?;
        Ok(at_start(alloc, setup, state))
    }

    /// Returns the setup that the run starts from.
    pub fn setup(&self) -> &Setup
        ensures { result.now ≡ self.now.setup }
    {
        &self.setup
    }

    /// Returns the position: the number of events that have been applied.
    pub fn at(&self) -> usize
        ensures value { result ≡ self.now.at }
        ensures within { self.now.at ≤ length self.now.events }
        ensures counted { self.now.walked < 2 ^ 64 }
    {
        self.at
    }

    /// Returns how many events the run has.
    pub fn len(&self) -> usize
        ensures value { result ≡ length self.now.events }
        ensures within { self.now.at ≤ length self.now.events }
        ensures most { length self.now.events ≤ 1048576 }
        ensures runs { Accepts (start self.now.setup) self.now.events }
    {
        self.events.len()
    }

    /// Returns the state at the position.
    pub fn state(&self) -> &State
        ensures { result.now ≡ current self.now }
    {
        &self.state
    }

    /// Returns the events, in order.
    pub fn events(&self) -> &[Event]
        ensures { result.now ≡ self.now.events }
    {
        self.events.as_slice()
    }

    /// Returns the undo records of the events, in order.
    pub fn records(&self) -> &[Record]
        ensures linked { Linked (start self.now.setup) self.now.events result.now (ends self.now) }
        ensures recorded { Recorded (start self.now.setup) self.now.events result.now }
    {
        self.records.as_slice()
    }

    /// Returns how many steps were counted. The count saturates at 2^64 - 1.
    pub fn walked(&self) -> u64
        ensures { result ≡ self.now.walked }
    {
        self.walked
    }

    /// Goes back to an earlier moment by undoing events. Allocates nothing.
    pub fn back_to(&mut self, moment: usize, tally: Tally)
        requires { moment ≤ self.old.at }
        ensures { self.new ≡ stepped tally self.old moment }
    {
        for _step in 0..self.at() - moment {
            self.step_back(tally);
        }
    }

    /// Goes forward to a later moment by repeating events. If an allocation fails, it returns to
    /// the position that it started from.
    pub fn on_to(&mut self, moment: usize, tally: Tally) -> Result<(), AllocError>
        requires later { self.old.at ≤ moment }
        requires within { moment ≤ length self.old.events }
        ensures ok { OnOk result (self.new ≡ stepped tally self.old moment) }
        ensures err { OnErr result (self.new ≡ self.old) }
    {
        let (before, walked) = (self.at(), self.walked());
        for _at in before..moment {
            if self.step_on(tally).is_err() {
                self.back_to(before, Tally::Free);
                self.walked = walked;
                return Err(AllocError);
            }
        }
        Ok(())
    }

    /// Goes to the moment `to` from a copy of moment `from` by single steps. If an allocation
    /// fails, the position is unchanged.
    pub fn on_from(
        &mut self,
        copy: &Snapshot,
        from: usize,
        to: usize,
        tally: Tally,
    ) -> Result<(), AllocError>
        requires state { copy.now ≡ moment self.old.setup self.old.events from }
        requires later { from ≤ to }
        requires within { to ≤ length self.old.events }
        ensures ok { OnOk result (self.new ≡ reached tally self.old to (to - from)) }
        ensures err { OnErr result (self.new ≡ self.old) }
    {
        let mut state = match self.spare.take() {
            Some(room) => copy.restore(self.alloc, room)?,
            None => copy.to_state(self.alloc)?,
        };
        let gone = self.on_from_state(&mut state, from, to, tally);
        self.spare = Some(state);
        gone
    }

    // Exchanges the state with that of moment `from`, and goes to the moment `to` by single steps.
    // If an allocation fails, both are exchanged back.
    fn on_from_state(
        &mut self,
        state: &mut State,
        from: usize,
        to: usize,
        tally: Tally,
    ) -> Result<(), AllocError>
        requires state { state.old ≡ moment self.old.setup self.old.events from }
        requires later { from ≤ to }
        requires within { to ≤ length self.old.events }
        ensures ok { OnOk result (self.new ≡ reached tally self.old to (to - from)) }
        ensures err { OnErr result (self.new ≡ self.old) }
    {
        self.state.exchange(state);
        let at = mem::replace(&mut self.at, from);
        let gone = self.on_to(to, tally);
        if gone.is_err() {
            self.state.exchange(state);
            self.at = at;
        }
        gone
    }

    /// Appends events and applies them, one step each, from the end of the run to the new end.
    /// Returns copies of the states at the multiples of `every` that the run passes. If an event is
    /// refused, none is appended.
    pub fn run_on(&mut self, events: &[Event], every: u32) -> Result<Vec<Snapshot>, ExtendRefusal>
        requires last { self.old.at ≡ length self.old.events }
        requires some { 0 < every }
        requires room { length self.old.events + length events.now ≤ 1048576 }
        ensures ok { OnOk result (self.new
            ≡ grown self.old events.now (self.old.at + length events.now)) }
        ensures accepts { OnOk result (Accepts (ends self.old) events.now) }
        ensures covers { IfOk result (λ copies. (xs : List Machine)
            → Covers self.old.setup self.old.events every xs
            → Covers self.new.setup self.new.events every (xs ++ copies.items)) }
        ensures refused { IfErr result (λ e. (i : ℕ) × (n : Refusal)
            × (e ≡ ExtendRefusal.Refused i n) × RefusedAt (ends self.old) events.now i n) }
        ensures err { OnErr result (self.new ≡ self.old) }
    {
        let len = self.len();
        let added = self.push_all(events, every);
        if added.is_err() {
            self.back_to(len, Tally::Free);
            self.cut(len);
        }
        added
    }

    /// Returns a copy of the state at the position.
    pub fn snapshot(&mut self) -> Result<Snapshot, AllocError>
        ensures ok { IfOk result (λ copy. copy ≡ current self.old) }
        ensures same { self.new ≡ self.old }
    {
        self.state.snapshot(self.alloc)
    }

    /// Truncates the run to its first `len` events.
    pub fn cut(&mut self, len: usize)
        requires { self.old.at ≤ len }
        ensures { self.new
            ≡ record {
              setup = self.old.setup;
              events = take len self.old.events;
              at = self.old.at;
              walked = self.old.walked;
            } }
    {
        self.events.truncate(len);
        self.records.truncate(len);
    }

    // Goes back one event. Allocates nothing.
    fn step_back(&mut self, tally: Tally)
        requires { 0 < self.old.at }
        ensures { self.new ≡ stepped tally self.old (self.old.at - 1) }
    {
        self.at -= 1;
        self.state.put_back(&self.records[self.at]);
        self.walked = tallied(self.walked, tally);
    }

    // Goes forward one event, which can fail only by an allocation failure: the
    // event was accepted before.
    fn step_on(&mut self, tally: Tally) -> Result<(), AllocError>
        requires { self.old.at < length self.old.events }
        ensures ok { OnOk result (self.new ≡ stepped tally self.old (self.old.at + 1)) }
        ensures err { OnErr result (self.new ≡ self.old) }
    {
        let event = self.events[self.at];
        match self.state.repeat(event) {
            Ok(()) => {
                self.at += 1;
                self.walked = tallied(self.walked, tally);
                Ok(())
            }
            Err(_) => Err(AllocError),
        }
    }

    // Applies one event at the end of the run, and appends it with its record. It reserves memory
    // for both first, so that a refused event changes nothing.
    fn push(&mut self, event: Event) -> Result<(), Refusal>
        requires last { self.old.at ≡ length self.old.events }
        requires room { length self.old.events < 1048576 }
        ensures ok { OnOk result (self.new ≡ grown self.old (event ∷ []) (self.old.at + 1)) }
        ensures accepts { OnOk result (refusal (current self.old) event ≡ None) }
        ensures refuses { IfErr result (λ n. (refusal (current self.old) event ≡ Some n)
            ⊎ ((n ≡ Refusal.Memory) × (refusal (current self.old) event ≡ None))) }
        ensures err { OnErr result (self.new ≡ self.old) }
    {
        if self.records.reserve(1).is_err() || self.events.reserve(1).is_err() {
            return Err(self.state.refuses(event).unwrap_or(Refusal::Memory));
        }
        let past = self.state.step(event)?;
        self.records.push(past).unwrap();
        self.events.push(event).unwrap();
        self.at += 1;
        Ok(())
    }

    // Pushes a copy of the state at the end of the run to `copies`, if its moment
    // is a multiple of `every`.
    fn copy_at(&mut self, every: u32, copies: &mut Vec<Snapshot>) -> Result<(), AllocError>
        requires last { self.old.at ≡ length self.old.events }
        requires some { 0 < every }
        ensures same { self.new ≡ self.old }
        ensures covers { OnOk result ((events : List Event) (event : Event) (xs : List Machine)
            → self.old.events ≡ events ++ event ∷ []
            → Covers self.old.setup events every (xs ++ copies.old.items)
            → Covers self.old.setup self.old.events every (xs ++ copies.new.items)) }
    {
        if self.at % every as usize == 0 {
            self.push_copy(copies)?;
        }
        Ok(())
    }

    // Pushes a copy of the state. A function of its own, so that an event that needs no copy
    // reserves no stack for one.
    #[inline(never)]
    fn push_copy(&mut self, copies: &mut Vec<Snapshot>) -> Result<(), AllocError>
        ensures same { self.new ≡ self.old }
        ensures ok { OnOk result (copies.new.items ≡ copies.old.items ++ current self.old ∷ []) }
    {
        copies.push(self.snapshot()?)?;
        Ok(())
    }

    // Appends events and applies them, up to the first that is refused. Returns copies of the
    // states at the multiples of `every`. After an error the accepted events are still there.
    fn push_all(&mut self, events: &[Event], every: u32) -> Result<Vec<Snapshot>, ExtendRefusal>
        requires last { self.old.at ≡ length self.old.events }
        requires some { 0 < every }
        requires room { length self.old.events + length events.now ≤ 1048576 }
        ensures ok { OnOk result (self.new
            ≡ grown self.old events.now (self.old.at + length events.now)) }
        ensures accepts { OnOk result (Accepts (ends self.old) events.now) }
        ensures covers { IfOk result (λ copies. (xs : List Machine)
            → Covers self.old.setup self.old.events every xs
            → Covers self.new.setup self.new.events every (xs ++ copies.items)) }
        ensures refused { IfErr result (λ e. (i : ℕ) × (n : Refusal)
            × (e ≡ ExtendRefusal.Refused i n) × RefusedAt (ends self.old) events.now i n) }
        ensures err { OnErr result ((i : ℕ)
            × (self.new ≡ grown self.old (take i events.now) (self.old.at + i))) }
    {
        let mut copies = Vec::new(self.alloc);
        for (i, event) in events.iter().enumerate() {
            if let Err(refusal) = self.push(*event) {
                return Err(ExtendRefusal::Refused(i as u32, refusal));
            }
            if let Err(_) = self.copy_at(every, &mut copies) {
                return Err(ExtendRefusal::Refused(i as u32, Refusal::Memory));
            }
        }
        Ok(copies)
    }
}

// Returns a run without events, given the state that its setup starts from.
fn at_start(alloc: Global, setup: Setup, state: State) -> Trail
    requires { state ≡ start setup }
    ensures { result ≡ record { setup = setup; events = []; at = 0; walked = 0 } }
{
    Trail {
        alloc,
        setup,
        events: Vec::new(alloc),
        records: Vec::new(alloc),
        at: 0,
        state,
        spare: None,
        walked: 0,
    }
}

fn tallied(walked: u64, tally: Tally) -> u64
    ensures { result ≡ tallied_by tally walked 1 }
{
    match tally {
        Tally::Counted => walked.saturating_add(1),
        Tally::Free => walked,
    }
}
