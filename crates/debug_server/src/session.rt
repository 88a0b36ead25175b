//! Sessions: a position in a run, and the commands that move it.
ghost use Rattle.std.specs.Prelude.{◌≡◌, ◌+◌, ◌≤◌, ℕ, length, false, option_map, IfOk, IfErr, OnOk, OnErr, ◌∷◌, []};
ghost use Rattle.machine.specs.Runs.{start, Accepts, IsRefused};
ghost use Rattle.scenario.specs.declared.event.Refusal.{Refusal};
ghost use Rattle.scenario.specs.Setups.{setup_refusal};
ghost use Rattle.scenario.specs.declared.setup.Setup.{Setup};
ghost use Rattle.inverse_log.specs.Walks.{ending, moved, jumped, extended};
ghost use Rattle.debug_server.specs.Kinds.{IsOf, OfSchedule, OfMemory};
ghost use Rattle.debug_server.specs.Replies.{reply};
ghost use Rattle.debug_server.specs.Schedules.{opened, state_over, StopsBy, fault_of};
ghost use Rattle.debug_server.specs.SessionStates.{Runs, walked_to, without_stops};

use crate::answering;
use crate::faults::RunFault;
use crate::running::fault_by;
use crate::stops::jump_to;
use crate::visitor::Visitor;
use inverse_log::{ExtendRefusal, Walker};
use machine::{Event, Setup};
use script::Script;
use std::alloc::{AllocError, Global};
use std::marker::Model;
use watches::Watches;

/// The number of events between two checkpoints of a session.
const CHECKPOINT_EVERY: u32 = 256;

/// The greatest number of events that a jump of a session undoes one by one.
const WINDOW: u32 = 256;

/// A debugger session over a run.
pub struct Session {
    pub(crate) alloc: Global,
    pub(crate) visitor: Visitor,
    pub(crate) is_closed: bool,
}

// Written by hand, so that dropping a session is one step in a proof. A derived drop has one step
// per field.
impl Drop for Session {
    fn drop(self) {
        let Session {
            alloc: _,
            visitor: _,
            is_closed: _,
        } = self;
    }
}

impl Model for Session {
    ghost use Rattle.debug_server.specs.SessionStates.{SessionValue};

    ghost Value = { SessionValue };

    ghost view = { λ s. record { state = s.visitor; is_closed = s.is_closed } };
}

impl Session {
    /// Runs the schedule of a script, and opens a session at its end.
    pub fn new(alloc: Global, script: &Script) -> Result<Session, RunFault>
        ensures ok { IfOk result (λ s. s
            ≡ record {
              state = state_over script.now.setup script.now.schedule;
              is_closed = false;
            }) }
        ensures accepts { OnOk result (Accepts (start script.now.setup) script.now.schedule) }
        ensures schedule { IfErr result (λ e. (i : ℕ) → (n : Refusal) → e ≡ RunFault.Schedule i n
            → IsRefused script.now.setup script.now.schedule i n) }
        ensures other { IfErr result (IsOf (OfSchedule ∷ OfMemory ∷ [])) }
    {
        session_of(alloc, script.setup(), script.schedule())
    }

    /// Runs events from the start of a setup, and opens a session at their end.
    pub fn of(alloc: Global, setup: &Setup, events: &[Event]) -> Result<Session, RunFault>
        requires starts { setup_refusal setup.now ≡ None }
        requires most { length events.now ≤ 1048576 }
        ensures ok { IfOk result (λ s. s
            ≡ record { state = state_over setup.now events.now; is_closed = false }) }
        ensures accepts { OnOk result (Accepts (start setup.now) events.now) }
        ensures schedule { IfErr result (λ e. (i : ℕ) → (n : Refusal) → e ≡ RunFault.Schedule i n
            → IsRefused setup.now events.now i n) }
        ensures other { IfErr result (IsOf (OfSchedule ∷ OfMemory ∷ [])) }
    {
        session_of(alloc, setup, events)
    }

    /// The same as `of`, but keeps the setup itself and not a copy.
    pub(crate) fn owning(alloc: Global, setup: Setup, events: &[Event]) -> Result<Session, RunFault>
        requires starts { setup_refusal setup ≡ None }
        requires most { length events.now ≤ 1048576 }
        ensures ok { IfOk result (λ s. s
            ≡ record { state = state_over setup events.now; is_closed = false }) }
        ensures accepts { OnOk result (Accepts (start setup) events.now) }
        ensures schedule { IfErr result (λ e. (i : ℕ) → (n : Refusal) → e ≡ RunFault.Schedule i n
            → IsRefused setup events.now i n) }
        ensures other { IfErr result (IsOf (OfSchedule ∷ OfMemory ∷ [])) }
    {
        match Walker::of(alloc, setup, CHECKPOINT_EVERY, WINDOW) {
            Ok(walker) => session_at_end(alloc, walker, events),
            Err(_) => Err(RunFault::Memory),
        }
    }

    /// Opens a session over a script's setup, without events. A source can supply events later.
    pub fn live(alloc: Global, script: &Script) -> Result<Session, RunFault>
        ensures ok { IfOk result (λ s. s
            ≡ record { state = without_stops (opened script.now.setup); is_closed = false }) }
        ensures err { IfErr result (λ e. e ≡ RunFault.Memory) }
    {
        match Walker::with(alloc, script.setup(), CHECKPOINT_EVERY, WINDOW) {
            Ok(walker) => Ok(over_walk(alloc, walker)),
            Err(_) => Err(RunFault::Memory),
        }
    }

    /// Returns the walk.
    pub fn walker(&self) -> &Walker
        ensures { result.now ≡ self.now.state.walk }
    {
        &self.visitor.walker
    }

    /// Jumps to a moment, as `goto` does. An `Err` changes nothing.
    pub fn jump(&mut self, moment: usize) -> Result<(), AllocError>
        requires { moment ≤ length self.old.state.walk.events }
        ensures moved { OnOk result (self.new
            ≡ record {
              state = walked_to self.old.state (jumped self.old.state.walk moment);
              is_closed = self.old.is_closed;
            }) }
        ensures err { OnErr result (self.new ≡ self.old) }
    {
        jump_to(&mut self.visitor.walker, moment)
    }

    /// Replies to one line. An `Err` changes nothing. Only `sync` uses `answer`, the source's
    /// trace. Neither checks nor changes whether the session is closed.
    pub fn line(&mut self, line: &[u8], answer: Option<&[Event]>) -> Result<Vec<u8>, AllocError>
        ensures text { IfOk result (λ text. text.items
            ≡ (reply self.old.state line.now (option_map (λ es. es.now) answer.entry)).text) }
        ensures next { OnOk result (self.new
            ≡ record {
              state =
                  (reply self.old.state line.now
                  (option_map (λ es. es.now) answer.entry)).next;
              is_closed = self.old.is_closed;
            }) }
        ensures err { OnErr result (self.new ≡ self.old) }
        // The events run from the setup's start, and the position is within them.
        ensures ran { Runs self.old.state.walk }
        ensures runs { Runs self.new.state.walk }
    {
        let (text, _) = answering::reply_to_line(self.alloc, &mut self.visitor, line, answer)?;
        let _position = self.visitor.position();
        Ok(text)
    }
}

// Converts the refusal to add a schedule to a trace into a fault.
fn fault_of(refusal: ExtendRefusal) -> RunFault
    ensures { result ≡ fault_of refusal }
{
    match refusal {
        ExtendRefusal::TraceFull => RunFault::Memory,
        ExtendRefusal::Refused(i, refusal) => fault_by(i, refusal),
    }
}

// Runs events from the start, and opens a session at their end.
fn session_of(alloc: Global, setup: &Setup, events: &[Event]) -> Result<Session, RunFault>
    requires starts { setup_refusal setup.now ≡ None }
    requires most { length events.now ≤ 1048576 }
    ensures ok { IfOk result (λ s. s
        ≡ record { state = state_over setup.now events.now; is_closed = false }) }
    ensures accepts { OnOk result (Accepts (start setup.now) events.now) }
    ensures schedule { IfErr result (λ e. (i : ℕ) → (n : Refusal) → e ≡ RunFault.Schedule i n
        → IsRefused setup.now events.now i n) }
    ensures other { IfErr result (IsOf (OfSchedule ∷ OfMemory ∷ [])) }
{
    match Walker::with(alloc, setup, CHECKPOINT_EVERY, WINDOW) {
        Ok(walker) => session_at_end(alloc, walker, events),
        Err(_) => Err(RunFault::Memory),
    }
}

// Runs events from the start of a walk that has none, and opens a session at their end.
fn session_at_end(alloc: Global, walker: Walker, events: &[Event]) -> Result<Session, RunFault>
    requires fresh { walker ≡ opened walker.setup }
    requires most { length events.now ≤ 1048576 }
    ensures ok { IfOk result (λ s. s
        ≡ record { state = state_over walker.setup events.now; is_closed = false }) }
    ensures accepts { OnOk result (Accepts (start walker.setup) events.now) }
    ensures schedule { IfErr result (λ e. (i : ℕ) → (n : Refusal) → e ≡ RunFault.Schedule i n
        → IsRefused walker.setup events.now i n) }
    ensures other { IfErr result (IsOf (OfSchedule ∷ OfMemory ∷ [])) }
{
    let mut walker = walker;
    match run_through(&mut walker, events) {
        Ok(()) => Ok(over_walk(alloc, walker)),
        Err(fault) => Err(fault),
    }
}

// Opens a session over a walk, without watches and breaks.
fn over_walk(alloc: Global, walker: Walker) -> Session
    ensures { result ≡ record { state = without_stops walker; is_closed = false } }
{
    Session {
        alloc,
        visitor: Visitor {
            walker,
            watches: Watches::new(alloc),
        },
        is_closed: false,
    }
}

// Appends events to a walk that is at its end, and moves to the new end.
fn run_through(walker: &mut Walker, events: &[Event]) -> Result<(), RunFault>
    requires { walker.old.at ≡ length walker.old.events }
    ensures ok { OnOk result (walker.new
        ≡ moved (extended walker.old events.now) (length walker.old.events + length events.now)) }
    ensures accepts { OnOk result (Accepts (ending walker.old) events.now) }
    ensures stops { IfErr result (λ e. (setup : Setup) → walker.old ≡ opened setup
        → StopsBy setup events.now e) }
{
    match walker.run_on(events) {
        Ok(()) => Ok(()),
        Err(refusal) => Err(fault_of(refusal)),
    }
}
