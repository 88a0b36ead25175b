//! The walker: a run that can be extended at its end, stepped through in both
//! directions, and jumped through.
ghost use Rattle.std.specs.Prelude.{◌≡◌, ℕ, ◌-◌, ◌+◌, ◌^◌, ◌<◌, ◌≤◌, ◌↔◌, ◌⊎◌, ◌∷◌, [], Some, None, length, min, nat_lt, IsOk, OnOk, OnErr, IfErr, IfOk, MatchBool};
ghost use Rattle.scenario.specs.declared.event.Refusal.{Refusal};
ghost use Rattle.scenario.specs.declared.setup.SetupRefusal.{SetupRefusal};
ghost use Rattle.machine.specs.Runs.{start, run, Accepts, Linked, setup_refusal};
ghost use Rattle.inverse_log.specs.Tracks.{current};
ghost use Rattle.inverse_log.specs.Walks.{fresh_with};

use crate::refusal::{ExtendRefusal, WalkRefusal};
use crate::trail::{Tally, Trail};
use checkpoints::Kept;
use machine::{Event, Refusal, Setup, SetupRefusal, State};
use places::Record;
use std::alloc::{AllocError, Global};
use std::marker::Model;

/// The greatest number of events of a trace.
pub const TRACE_LIMIT: usize = 1048576;

/// A run with undo records and checkpoints, at one of its moments. Its state is always the one that
/// the events up to the position lead to.
pub struct Walker {
    alloc: Global,
    trail: Trail,
    kept: Kept,
}

// Written by hand, so that dropping a walker is one step of a proof.
impl Drop for Walker {
    fn drop(self) {
        let Walker {
            alloc: _,
            trail: _,
            kept: _,
        } = self;
    }
}

impl Model for Walker {
    ghost use Rattle.inverse_log.specs.Tracks.{Covers};
    ghost use Rattle.inverse_log.specs.Walks.{Walk};

    ghost Value = { Walk };

    ghost view = { λ w. record {
      setup = w.trail.setup;
      events = w.trail.events;
      at = w.trail.at;
      walked = w.trail.walked;
      every = w.kept.every;
      window = w.kept.window;
    } };

    ghost invariant = { λ w. Covers w.trail.setup w.trail.events w.kept.every w.kept.states };
}

impl Walker {
    ghost use Rattle.inverse_log.specs.Tracks.{Covers, RefusedAt, Recorded};
    ghost use Rattle.inverse_log.specs.Walks.{here, ending, fresh, moved, jumped, gone, steps_to, extended};

    /// Returns a run without events, at its start, with a checkpoint each 1,024 events and a window
    /// of 256. Fails as `State::new` does: if the setup breaks a limit, or with `Memory`.
    pub fn new(alloc: Global, setup: &Setup) -> Result<Walker, SetupRefusal>
        ensures fresh { IfOk result (λ w. w ≡ fresh setup.now) }
        ensures refused { (r : SetupRefusal) → setup_refusal setup.now ≡ Some r → result ≡ Err r }
        ensures only_memory { IfErr result (λ r. setup_refusal setup.now ≡ None
            → r ≡ SetupRefusal.Memory) }
    {
        Walker::with(alloc, setup, 1024, 256)
    }

    /// The same with a checkpoint each `every` events, and jumps that undo at most
    /// `window` events one by one.
    pub fn with(
        alloc: Global,
        setup: &Setup,
        every: u32,
        window: u32,
    ) -> Result<Walker, SetupRefusal>
        requires { 0 < every }
        ensures fresh { IfOk result (λ w. w ≡ fresh_with setup.now every window) }
        ensures refused { (r : SetupRefusal) → setup_refusal setup.now ≡ Some r → result ≡ Err r }
        ensures only_memory { IfErr result (λ r. setup_refusal setup.now ≡ None
            → r ≡ SetupRefusal.Memory) }
    {
        let trail = Trail::new(alloc, setup)?;
        over_trail(alloc, trail, every, window)
    }

    /// The same as `with`, but keeps the setup itself and not a copy.
    pub fn of(alloc: Global, setup: Setup, every: u32, window: u32) -> Result<Walker, SetupRefusal>
        requires { 0 < every }
        ensures fresh { IfOk result (λ w. w ≡ fresh_with setup every window) }
        ensures refused { (r : SetupRefusal) → setup_refusal setup ≡ Some r → result ≡ Err r }
        ensures only_memory { IfErr result (λ r. setup_refusal setup ≡ None
            → r ≡ SetupRefusal.Memory) }
    {
        let trail = Trail::of(alloc, setup)?;
        over_trail(alloc, trail, every, window)
    }

    /// Returns the setup that the run starts from.
    pub fn setup(&self) -> &Setup
        ensures { result.now ≡ self.now.setup }
    {
        self.trail.setup()
    }

    /// Returns the position: the number of events that have been applied.
    pub fn at(&self) -> usize
        ensures value { result ≡ self.now.at }
        ensures within { self.now.at ≤ length self.now.events }
        ensures counted { self.now.walked < 2 ^ 64 }
    {
        self.trail.at()
    }

    /// Returns how many events the trace has.
    pub fn len(&self) -> usize
        ensures value { result ≡ length self.now.events }
        ensures within { self.now.at ≤ length self.now.events }
        ensures most { length self.now.events ≤ 1048576 }
        ensures runs { Accepts (start self.now.setup) self.now.events }
    {
        self.trail.len()
    }

    /// Returns the state at the position.
    pub fn state(&self) -> &State
        ensures { result.now ≡ here self.now }
    {
        self.trail.state()
    }

    /// Returns the events of the trace, in order.
    pub fn events(&self) -> &[Event]
        ensures { result.now ≡ self.now.events }
    {
        self.trail.events()
    }

    /// Returns the undo records of the events, in order.
    pub fn records(&self) -> &[Record]
        ensures linked { Linked (start self.now.setup) self.now.events result.now
            (ending self.now) }
        ensures recorded { Recorded (start self.now.setup) self.now.events result.now }
    {
        self.trail.records()
    }

    /// Returns the checkpoints: the states at all multiples of `every` that are moments of the run.
    pub fn kept(&self) -> &Kept
        ensures every { result.now.every ≡ self.now.every }
        ensures window { result.now.window ≡ self.now.window }
        ensures covers { Covers self.now.setup self.now.events self.now.every result.now.states }
    {
        &self.kept
    }

    /// Returns how many single steps jumps have made. The count saturates at 2^64 - 1.
    pub fn walked(&self) -> u64
        ensures { result ≡ self.now.walked }
    {
        self.trail.walked()
    }

    /// Appends events to the trace and keeps the position. Each event must be accepted, in
    /// order, or none is appended.
    ///
    /// If a checkpoint cannot be copied, the refusal is `Memory` at the event that leads to it. If
    /// the list of checkpoints cannot grow, it is `Memory` at the last event.
    pub fn extend(&mut self, events: &[Event]) -> Result<(), ExtendRefusal>
        ensures ok { OnOk result (self.new ≡ extended self.old events.now) }
        ensures accepts { OnOk result (Accepts (ending self.old) events.now) }
        ensures full { (result ≡ Err ExtendRefusal.TraceFull)
            ↔ (1048576 < length self.old.events + length events.now) }
        ensures refused { (i : ℕ) (n : Refusal) → result ≡ Err (ExtendRefusal.Refused i n)
            → RefusedAt (ending self.old) events.now i n }
        ensures none { events.now ≡ [] → IsOk result }
        ensures err { OnErr result (self.new ≡ self.old) }
    {
        if self.has_no_room_for(events) {
            return Err(ExtendRefusal::TraceFull);
        }
        if events.is_empty() {
            return Ok(());
        }
        let (from, len) = (self.at(), self.len());
        if self.trail.on_to(len, Tally::Free).is_err() {
            return Err(ExtendRefusal::Refused(0, Refusal::Memory));
        }
        let added = self.run_on(events);
        self.trail.back_to(from, Tally::Free);
        added
    }

    /// The same as `extend`, from the end of the trace to its new end, so
    /// that each event is one step.
    pub fn run_on(&mut self, events: &[Event]) -> Result<(), ExtendRefusal>
        requires { self.old.at ≡ length self.old.events }
        ensures ok { OnOk result (self.new
            ≡ moved (extended self.old events.now) (length self.old.events + length events.now)) }
        ensures accepts { OnOk result (Accepts (ending self.old) events.now) }
        ensures full { (result ≡ Err ExtendRefusal.TraceFull)
            ↔ (1048576 < length self.old.events + length events.now) }
        ensures refused { (i : ℕ) (n : Refusal) → result ≡ Err (ExtendRefusal.Refused i n)
            → RefusedAt (ending self.old) events.now i n }
        ensures none { events.now ≡ [] → IsOk result }
        ensures err { OnErr result (self.new ≡ self.old) }
    {
        if self.has_no_room_for(events) {
            return Err(ExtendRefusal::TraceFull);
        }
        if events.is_empty() {
            return Ok(());
        }
        let len = self.len();
        let copies = self.trail.run_on(events, self.kept.every())?;
        if self.kept.keep(copies).is_err() {
            self.trail.back_to(len, Tally::Free);
            self.trail.cut(len);
            return Err(ExtendRefusal::Refused(events.len() as u32 - 1, Refusal::Memory));
        }
        Ok(())
    }

    // Returns whether the events would exceed the limit of a trace.
    fn has_no_room_for(&self, events: &[Event]) -> bool
        ensures full { MatchBool result (1048576 < length self.now.events + length events.now)
            (length self.now.events + length events.now ≤ 1048576) }
        ensures most { length self.now.events ≤ 1048576 }
    {
        events.len() > TRACE_LIMIT - self.len()
    }

    /// Goes back one event. Returns false at the start. Allocates nothing.
    pub fn back(&mut self) -> bool
        ensures moves { result ≡ nat_lt 0 self.old.at }
        ensures moved { self.new ≡ moved self.old (self.old.at - 1) }
    {
        let at = self.at();
        if at == 0 {
            return false;
        }
        self.trail.back_to(at - 1, Tally::Free);
        true
    }

    /// Goes forward one event. Returns false at the end. If an allocation fails,
    /// the position is unchanged.
    pub fn on(&mut self) -> Result<bool, AllocError>
        ensures moves { IfOk result (λ went. went ≡ nat_lt self.old.at (length self.old.events)) }
        ensures ends { self.old.at ≡ length self.old.events → IsOk result }
        ensures moved { OnOk result (self.new
            ≡ moved self.old (min (self.old.at + 1) (length self.old.events))) }
        ensures err { OnErr result (self.new ≡ self.old) }
    {
        let at = self.at();
        if at == self.len() {
            return Ok(false);
        }
        self.trail.on_to(at + 1, Tally::Free)?;
        Ok(true)
    }

    /// Jumps to a moment, and adds the single steps that it makes to `walked`. It undoes events if
    /// the moment is at most the window back, which allocates nothing. Otherwise it repeats events,
    /// from the position if no checkpoint is between, else from the nearest checkpoint.
    pub fn goto(&mut self, moment: usize) -> Result<(), WalkRefusal>
        ensures ok { OnOk result (self.new ≡ jumped self.old moment) }
        ensures short { OnOk result ((steps_to self.old moment ≤ self.old.window)
            ⊎ (steps_to self.old moment < self.old.every)) }
        ensures there { (result ≡ Err WalkRefusal.NoSuchMoment)
            ↔ (length self.old.events < moment) }
        ensures back { moment ≤ self.old.at → self.old.at ≤ moment + self.old.window → IsOk result }
        ensures err { OnErr result (self.new ≡ self.old) }
    {
        self.jump(moment, Tally::Counted)
    }

    /// The same as `goto`, but its steps are not added to `walked`.
    pub fn move_to(&mut self, moment: usize) -> Result<(), WalkRefusal>
        ensures ok { OnOk result (self.new ≡ moved self.old moment) }
        ensures there { (result ≡ Err WalkRefusal.NoSuchMoment)
            ↔ (length self.old.events < moment) }
        ensures back { moment ≤ self.old.at → self.old.at ≤ moment + self.old.window → IsOk result }
        ensures err { OnErr result (self.new ≡ self.old) }
    {
        self.jump(moment, Tally::Free)
    }

    /// Returns the state at the end of the run. The position stays.
    pub fn last_state(&self) -> Result<State, AllocError>
        ensures { IfOk result (λ state. state ≡ ending self.now) }
    {
        let len = self.len() as u32;
        let nearest = self.kept.nearest(len);
        let state = self.kept.state(len).to_state(self.alloc)?;
        state_after(state, &self.events()[nearest as usize..])
    }

    // Jumps to a moment by undoing events or by repeating them.
    fn jump(&mut self, moment: usize, tally: Tally) -> Result<(), WalkRefusal>
        ensures ok { OnOk result (self.new ≡ gone tally self.old moment) }
        ensures short { OnOk result ((steps_to self.old moment ≤ self.old.window)
            ⊎ (steps_to self.old moment < self.old.every)) }
        ensures there { (result ≡ Err WalkRefusal.NoSuchMoment)
            ↔ (length self.old.events < moment) }
        ensures back { moment ≤ self.old.at → self.old.at ≤ moment + self.old.window → IsOk result }
        ensures err { OnErr result (self.new ≡ self.old) }
    {
        let (at, len) = (self.at(), self.len());
        if moment > len {
            return Err(WalkRefusal::NoSuchMoment);
        }
        if moment <= at && at - moment <= self.kept.window() as usize {
            self.trail.back_to(moment, tally);
            return Ok(());
        }
        match self.jump_on(moment as u32, tally) {
            Ok(()) => Ok(()),
            Err(_) => Err(WalkRefusal::Memory),
        }
    }

    // Jumps by repeating events: from the position if no checkpoint is between, else from a copy
    // of the nearest checkpoint.
    fn jump_on(&mut self, moment: u32, tally: Tally) -> Result<(), AllocError>
        requires within { moment ≤ length self.old.events }
        requires far { moment ≤ self.old.at → moment + self.old.window < self.old.at }
        ensures ok { OnOk result (self.new ≡ gone tally self.old moment) }
        ensures err { OnErr result (self.new ≡ self.old) }
        ensures short { steps_to self.old moment < self.old.every }
    {
        let (at, nearest) = (self.at(), self.kept.nearest(moment));
        if nearest as usize <= at && at <= moment as usize {
            self.trail.on_to(moment as usize, tally)
        } else {
            let copy = self.kept.state(moment);
            self.trail
                .on_from(copy, nearest as usize, moment as usize, tally)
        }
    }
}

// Returns a walker over a run without events. It fails only by an allocation failure.
fn over_trail(alloc: Global, trail: Trail, every: u32, window: u32) -> Result<Walker, SetupRefusal>
    requires some { 0 < every }
    requires fresh { trail ≡ record { setup = trail.setup; events = []; at = 0; walked = 0 } }
    ensures fresh { IfOk result (λ w. w ≡ fresh_with trail.setup every window) }
    ensures only_memory { IfErr result (λ r. r ≡ SetupRefusal.Memory) }
{
    let mut trail = trail;
    match kept_first(alloc, &mut trail, every, window) {
        Ok(kept) => Ok(Walker { alloc, trail, kept }),
        Err(_) => Err(SetupRefusal::Memory),
    }
}

// Returns the checkpoints of a run at its start: a copy of its state.
fn kept_first(alloc: Global, trail: &mut Trail, every: u32, window: u32) -> Result<Kept, AllocError>
    requires { 0 < every }
    ensures ok { IfOk result (λ k. k
        ≡ record { every = every; window = window; states = current trail.old ∷ [] }) }
    ensures same { trail.new ≡ trail.old }
{
    let mut kept = Kept::new(alloc, every, window);
    kept.keep(vec![in alloc; trail.snapshot()?]?)?;
    Ok(kept)
}

// Returns the state that events lead to from a state. It is an `Err` too if one is refused.
fn state_after(mut state: State, events: &[Event]) -> Result<State, AllocError>
    ensures { IfOk result (λ end. end ≡ run state events.now) }
{
    for event in events {
        if let Err(_) = state.repeat(*event) {
            return Err(AllocError);
        }
    }
    Ok(state)
}
