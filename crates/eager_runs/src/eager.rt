//! The eager run of a schedule: its steps, takes and ticks, and after each what the submission
//! does, and all that kernel workers can do by then.
ghost use Rattle.std.specs.Prelude.{◌≡◌, ◌≤◌, ◌⊎◌, ℕ, List, Some, None, length, IfOk, IfErr, IfSome, IfNone, OnOk, ◌∷◌, []};
ghost use Rattle.scenario.specs.declared.event.Event.{Event};
ghost use Rattle.scenario.specs.declared.event.Refusal.{Refusal};
ghost use Rattle.scenario.specs.Setups.{setup_refusal};
ghost use Rattle.machine.specs.Runs.{start, Accepts};
ghost use Rattle.machine.specs.Steps.{refusal, after};
ghost use Rattle.eager_runs.specs.Eager.{Adds, IsNextWork, IsIdleAt, IsWork, FollowsOne, Follows, RefusesOne, Stops, IsEager, IsRefusedEagerly, fault_by, is_due, lags, counter, waits};

use inverse_log::walker::TRACE_LIMIT;
use live_rules::eager_offer;
use machine::{Event, Refusal, Setup, State};
use places::{Place, Stage, Value};
use prompt_order::{begun_by, next_due};
use std::alloc::{AllocError, Global};

/// Why a schedule has no eager run.
#[derive(Clone, Copy, Debug)]
pub enum EagerFault {
    /// The rules refuse the event at this index of the schedule, in the schedule's own run or in
    /// the eager one.
    Refused(u32, Refusal),
    Memory,
}

// Returns the fault of a schedule whose event at an index is refused.
fn fault_by(index: u32, refusal: Refusal) -> EagerFault
    ensures { result ≡ fault_by index refusal }
{
    match refusal {
        Refusal::Memory => EagerFault::Memory,
        refusal => EagerFault::Refused(index, refusal),
    }
}

/// A run that follows a schedule, and does at once all that kernel workers can do.
#[derive(Drop)]
struct Eager {
    /// The state after the schedule's events so far.
    plain: State,
    /// The state after the eager run's events so far.
    state: State,
    events: Vec<Event>,
    /// The first request of the last submission.
    next_row: u32,
}

/// Returns the eager run of a schedule. A fault names the first event of the schedule that its own
/// run or the eager one refuses.
pub fn eager_run(alloc: Global, setup: &Setup, schedule: &[Event]) -> Result<Vec<Event>, EagerFault>
    requires starts { setup_refusal setup.now ≡ None }
    requires most { length schedule.now ≤ 1048576 }
    ensures accepts { IfOk result (λ events. Accepts (start setup.now) events.items) }
    ensures eager { IfOk result (λ events. IsEager setup.now schedule.now events.items) }
    ensures few { IfOk result (λ events. length events.items ≤ 1048576) }
    ensures refused { IfErr result (λ e. (i : ℕ) → (n : Refusal) → e ≡ EagerFault.Refused i n
        → IsRefusedEagerly setup.now schedule.now i n) }
{
    let Ok(mut run) = Eager::new(alloc, setup) else {
        return Err(EagerFault::Memory);
    };
    run.follow_all(schedule)?;
    Ok(run.events)
}

/// What happens next at once.
#[derive(Clone, Copy)]
struct WorkItem {
    event: Event,
    /// The first request of the last submission after it.
    row: u32,
}

// Returns what the submission of the requests from number `from` on does next, or else what a
// kernel worker does at once. Doesn't allocate.
fn next_work(state: &State, from: u32) -> Option<WorkItem>
    ensures some { IfSome result (λ w. IsNextWork state.now from w.event w.row) }
    ensures none { IfNone result (IsIdleAt state.now from) }
{
    if let Some(due) = next_due(state, from) {
        return Some(WorkItem {
            event: due.event,
            row: from,
        });
    }
    let event = eager_offer(state)?;
    let row = begun_by(state, event);
    Some(WorkItem { event, row })
}

impl Eager {
    // Returns the run without events.
    fn new(alloc: Global, setup: &Setup) -> Result<Eager, AllocError>
        requires { setup_refusal setup.now ≡ None }
        ensures { IfOk result (λ r. (r.plain ≡ start setup.now) × (r.state ≡ start setup.now)
            × (r.events.items ≡ []) × (r.next_row ≡ 0)) }
    {
        let Ok(plain) = State::new(alloc, setup) else {
            return Err(AllocError);
        };
        let state = plain.copy(alloc)?;
        Ok(Eager {
            plain,
            state,
            events: Vec::new(alloc),
            next_row: 0,
        })
    }

    // Follows a schedule.
    fn follow_all(&mut self, schedule: &[Event]) -> Result<(), EagerFault>
        requires few { length self.old.events.items ≤ 1048576 }
        requires most { length schedule.now ≤ 1048576 }
        ensures few { OnOk result (length self.new.events.items ≤ 1048576) }
        ensures follows { OnOk result ((made : List Event)
            × Follows self.old.plain self.old.state schedule.now made
            × Adds self.old.state self.old.events.items made
            self.new.state self.new.events.items) }
        ensures refused { IfErr result (λ e. (i : ℕ) → (n : Refusal) → e ≡ EagerFault.Refused i n
            → Stops self.old.plain self.old.state schedule.now i n) }
    {
        for i in 0..schedule.len() {
            self.follow(i as u32, schedule[i])?;
        }
        Ok(())
    }

    // Makes an event of the schedule, if it is due, and all that can happen at once after it.
    fn follow(&mut self, index: u32, event: Event) -> Result<(), EagerFault>
        requires few { length self.old.events.items ≤ 1048576 }
        ensures few { OnOk result (length self.new.events.items ≤ 1048576) }
        ensures plain { OnOk result (self.new.plain ≡ after self.old.plain event) }
        ensures follows { OnOk result ((added : List Event)
            × FollowsOne (is_due (after self.old.plain event) self.old.state event)
            self.old.state event added
            × Adds self.old.state self.old.events.items added
            self.new.state self.new.events.items) }
        ensures refused { IfErr result (λ e. (i : ℕ) → (n : Refusal) → e ≡ EagerFault.Refused i n
            → (i ≡ index) × RefusesOne self.old.plain self.old.state event n) }
    {
        if let Err(refusal) = self.plain.step(event) {
            return Err(fault_by(index, refusal));
        }
        if !is_due(&self.plain, &self.state, event) {
            return Ok(());
        }
        let next_row = begun_by(&self.state, event);
        if let Err(refusal) = self.add(event, next_row) {
            return Err(fault_by(index, refusal));
        }
        match self.work() {
            Ok(()) => Ok(()),
            Err(_) => Err(EagerFault::Memory),
        }
    }

    // Makes all that can happen at once. The rules accept each event of it, so only a failed
    // allocation ends it early.
    fn work(&mut self) -> Result<(), AllocError>
        requires few { length self.old.events.items ≤ 1048576 }
        ensures few { OnOk result (length self.new.events.items ≤ 1048576) }
        ensures plain { self.new.plain ≡ self.old.plain }
        ensures work { OnOk result ((work : List Event)
            × IsWork self.old.state self.old.next_row work
            × Adds self.old.state self.old.events.items work
            self.new.state self.new.events.items) }
    {
        'work: while let Some(work) = next_work(&self.state, self.next_row) {
            let Ok(()) = self.add(work.event, work.row) else {
                return Err(AllocError);
            };
        }
        Ok(())
    }

    // Makes an event of the eager run, after which the last submission is of the requests from
    // number `next_row` on. More events than a trace can have are refused as `Memory`; no script is
    // long enough for that.
    fn add(&mut self, event: Event, next_row: u32) -> Result<(), Refusal>
        requires { length self.old.events.items ≤ 1048576 }
        ensures few { OnOk result (length self.new.events.items ≤ 1048576) }
        ensures plain { self.new.plain ≡ self.old.plain }
        ensures next_row { OnOk result (self.new.next_row ≡ next_row) }
        ensures added { OnOk result (Adds self.old.state self.old.events.items (event ∷ [])
            self.new.state self.new.events.items) }
        ensures refused { IfErr result (λ n. (refusal self.old.state event ≡ Some n)
            ⊎ (n ≡ Refusal.Memory)) }
    {
        if self.events.len() >= TRACE_LIMIT {
            return Err(Refusal::Memory);
        }
        if self.events.push(event).is_err() {
            return Err(Refusal::Memory);
        }
        self.state.step(event)?;
        self.next_row = next_row;
        Ok(())
    }
}

// Returns whether an event of the schedule, after which `plain` is its state, is one of the eager
// run. Steps by which a thread waits there for what completed here are left out.
fn is_due(plain: &State, state: &State, event: Event) -> bool
    ensures { result ≡ is_due plain.now state.now event }
{
    match event {
        Event::Step(t) => lags(plain, state, t),
        Event::Take(_) | Event::Tick(_) => true,
        Event::Sleep | Event::Issue(_) | Event::Finish(_, _) | Event::Expire(_) => false,
    }
}

// Returns whether a thread of the eager run has made fewer steps than it has in the schedule's.
fn lags(plain: &State, state: &State, t: u32) -> bool
    ensures { result ≡ lags plain.now state.now t }
{
    let done = counter(plain, t);
    let next = counter(state, t);
    if waits(plain, t) {
        next == done && !waits(state, t)
    } else {
        next < done
    }
}

// Returns the index of a thread's next instruction.
fn counter(state: &State, t: u32) -> u64
    ensures { result ≡ counter state.now t }
{
    match state.value(Place::ProgramCounter(t)) {
        Some(Value::Number(n)) => n,
        _ => 0,
    }
}

// Returns whether a thread waits in an Enter.
fn waits(state: &State, t: u32) -> bool
    ensures { result ≡ waits state.now t }
{
    match state.value(Place::ThreadStage(t)) {
        Some(Value::Staged(Stage::Waiting(_, _))) => true,
        _ => false,
    }
}
