//! Decides what an event does, without a change of the machine.
ghost use Rattle.std.specs.Prelude.{◌≡◌, IfErr, IfOk, None, Some};
ghost use Rattle.machine.specs.Plans.{Plans};
ghost use Rattle.machine.specs.Steps.{refusal};
ghost use Rattle.machine.specs.Whole.{WellFormed};
ghost use Rattle.scenario.specs.declared.event.Event.TheVariants.{Finish, Step};

use crate::refusing::refuses_a_part;
use crate::whole::Machine;
use entries::Phase;
use opcodes::{Choice, Effect, Outcome, is_cancel, is_timer};
use places::Stage;
use scenario::{Event, Refusal};

/// What an accepted event does, with what was computed to accept it.
#[derive(Clone, Copy)]
pub(crate) enum Plan {
    /// A thread executes its next instruction.
    Execute(u32),
    /// A thread returns from the system call in which it waits, with this number of entries.
    Return(u32, u32),
    /// The poller submits at most this number of entries.
    Submit(u32),
    /// The poller falls asleep.
    Rest,
    /// A request is issued.
    Start(u32),
    /// A cancellation or a removal completes.
    Cancel(u32),
    /// Another issued request completes with this result and this effect.
    Complete(u32, i32, Effect),
    /// A timer expires.
    TimeOut(u32),
    /// The clock advances by this number of nanoseconds.
    Advance(u64),
}

impl Machine {
    /// Returns what an event does, or why it is refused. Doesn't allocate.
    #[inline(always)]
    pub(crate) fn plan(&self, event: Event) -> Result<Plan, Refusal>
        requires formed { WellFormed self.now }
        ensures err { IfErr result (λ n. refusal self.now event ≡ Some n) }
        ensures ok { IfOk result (Plans self.now event) }
    {
        match event {
            Event::Step(t) => self.plan_step(t),
            Event::Take(n) => unless(self.refuses_take(n), Plan::Submit(n)),
            Event::Sleep => unless(self.refuses_sleep(), Plan::Rest),
            Event::Issue(r) => unless(self.refuses_issue(r), Plan::Start(r)),
            Event::Finish(r, choice) => self.plan_finish(r, choice),
            Event::Expire(r) => unless(self.refuses_expire(r), Plan::TimeOut(r)),
            Event::Tick(d) => unless(self.refuses_tick(d), Plan::Advance(d)),
        }
    }

    // A thread that waits continues only when enough completions are in the ring.
    fn plan_step(&self, t: u32) -> Result<Plan, Refusal>
        requires formed { WellFormed self.now }
        ensures err { IfErr result (λ n. refusal self.now (Step t) ≡ Some n) }
        ensures ok { IfOk result (Plans self.now (Step t)) }
    {
        let Some(thread) = self.threads.get(t) else {
            return Err(Refusal::NoSuchThread);
        };
        let Some(instruction) = thread.next() else {
            return Err(Refusal::ThreadDone);
        };
        match thread.stage() {
            Stage::Ready => unless(self.refuses_instruction(instruction), Plan::Execute(t)),
            Stage::Waiting(n, needed) => unless(self.refuses_wait(needed), Plan::Return(t, n)),
        }
    }

    // Timers don't finish, they expire.
    fn plan_finish(&self, r: u32, choice: Choice) -> Result<Plan, Refusal>
        requires formed { WellFormed self.now }
        ensures err { IfErr result (λ n. refusal self.now (Finish r choice) ≡ Some n) }
        ensures ok { IfOk result (Plans self.now (Finish r choice)) }
    {
        if r as usize >= self.table.len() {
            return Err(Refusal::NoSuchRequest);
        }
        let row = self.table.row_ref(r);
        if is_timer(row.entry.opcode) || row.phase != Phase::Issued {
            return Err(Refusal::WrongPhase);
        }
        if is_cancel(row.entry.opcode) {
            return unless(refuses_a_part(choice), Plan::Cancel(r));
        }
        let (outcome, effect) = self.decide(row, choice);
        match outcome {
            Outcome::Res(res) => Ok(Plan::Complete(r, res, effect)),
            Outcome::Waits => Err(Refusal::NotReady),
            Outcome::BadChoice => Err(Refusal::BadChoice),
        }
    }
}

// The plan, unless there is a cause to refuse it.
fn unless(cause: Option<Refusal>, plan: Plan) -> Result<Plan, Refusal>
    ensures err { IfErr result (λ n. cause ≡ Some n) }
    ensures ok { IfOk result (λ p. (cause ≡ None) × (p ≡ plan)) }
{
    match cause {
        None => Ok(plan),
        Some(cause) => Err(cause),
    }
}
