//! Findings about the rings and the threads.
ghost use Rattle.std.specs.Prelude.{◌≡◌, ◌==◌, false, length, option_copied};
ghost use Rattle.finding_rules.specs.{option_map_or, list_any, is_open, waiting, Setup, number_in, needs_wake_up, overflows, has_entries, has_completions, is_idle, counter_of, answer_of, has_closed, has_descriptor, is_of_step, condition_holds, is_error, is_less, took_all, is_plain, next_at, next_of, blocks, facts_before};

use crate::canceling::{Cancel, cancel_before};
use crate::circumstances::expires_over_ready;
use crate::uses::{Sought, changes_at, first_pushed, is_held, is_named, is_pushed_last};
use entries::{EBADF, EBUSY, EINVAL, IORING_SQ_CQ_OVERFLOW, IORING_SQ_NEED_WAKEUP};
use finding_kinds::{StepKind, descriptor_number, instruction_at};
use machine::{Event, Instruction, Setup, State};
use places::{Place, Stage, Value};

/// A condition that is a finding if it lasts to the end of a run.
#[derive(Clone, Copy)]
pub enum Condition {
    /// The thread waits in its enter.
    Waits,
    /// Entries wait while the poller sleeps.
    LostWakeUp,
    /// Entries wait though no poller sleeps.
    NotTaken,
    /// Completions remain in the ring or in the backlog.
    NotReaped,
    /// The thread reaps from an empty ring, or pushes to a full one.
    Stuck,
}

/// What a thread does next, as far as a condition depends on it.
#[derive(Clone, Copy)]
pub enum Next {
    /// It waits in its enter.
    Waits,
    /// It pushes an index.
    Pushes,
    /// It reaps a completion.
    Reaps,
    /// It has another instruction, or none, or isn't in the setup.
    Other,
}

/// Facts about the state before an event, saved because the event changes them.
#[derive(Clone, Copy)]
pub struct Before {
    /// The backlog holds completions (IORING_SQ_CQ_OVERFLOW).
    pub overflows: bool,
    /// The program counter of the thread that does the event, if a thread does it.
    pub counter: Option<u64>,
    /// The event is a put of an entry that differs from the slot's entry.
    pub changes: bool,
    /// The cancel or removal that the event completes.
    pub cancel: Option<Cancel>,
    /// The event is the expiry of a linked timeout whose target could complete.
    pub was_ready: bool,
}

impl Before {
    pub fn new(setup: &Setup, state: &State, event: Event) -> Before
        ensures { result ≡ facts_before setup.now state.now event }
    {
        let counter = counter_of(state, event);
        Before {
            overflows: overflows(state),
            counter,
            changes: changes_at(state, instruction_at(setup, event, counter)),
            cancel: cancel_before(state, event),
            was_ready: expires_over_ready(state, event),
        }
    }
}

fn needs_wake_up(state: &State) -> bool
    ensures { result ≡ needs_wake_up state.now }
{
    state.submissions().flags() & IORING_SQ_NEED_WAKEUP != 0
}

/// Returns whether the backlog holds completions.
pub fn overflows(state: &State) -> bool
    ensures { result ≡ overflows state.now }
{
    state.submissions().flags() & IORING_SQ_CQ_OVERFLOW != 0
}

fn has_entries(state: &State) -> bool
    ensures { result ≡ has_entries state.now }
{
    let ring = state.submissions();
    !(ring.head() == ring.tail())
}

fn has_completions(state: &State) -> bool
    ensures { result ≡ has_completions state.now }
{
    let ring = state.completions();
    !(ring.head() == ring.tail())
}

// Returns whether some request is incomplete, in constant time.
fn has_unfinished(state: &State) -> bool
    ensures { result ≡ list_any is_open state.now.table }
{
    match state.next_unfinished(0) {
        Some(_) => true,
        None => false,
    }
}

/// Returns whether nothing is left for a loop to handle: there were requests, all have completed,
/// and neither ring nor the backlog has anything.
pub fn is_idle(state: &State) -> bool
    ensures { result ≡ is_idle state.now }
{
    state.row_count() > 0
        && !has_unfinished(state)
        && !(has_entries(state) || (overflows(state) || has_completions(state)))
}

fn counter_of(state: &State, event: Event) -> Option<u64>
    ensures { result ≡ counter_of state.now event }
{
    let Event::Step(thread) = event else {
        return None;
    };
    match state.value(Place::ProgramCounter(thread)) {
        Some(Value::Number(counter)) => Some(counter),
        _ => None,
    }
}

// Returns the result of a thread's last enter or close. None while the thread waits in its enter,
// since its last result is that of an earlier call.
fn answer(state: &State, thread: u32) -> Option<i64>
    ensures { result ≡ answer_of state.now thread }
{
    match (
        state.value(Place::ThreadStage(thread)),
        state.value(Place::Last(thread)),
    ) {
        (Some(Value::Staged(Stage::Ready)), Some(Value::Signed(answer))) => Some(answer),
        _ => None,
    }
}

// Returns whether the thread's last result is this error.
fn is_refused(errno: u64, state: &State, thread: u32) -> bool
    ensures { result ≡ option_map_or (is_error errno) (answer_of state.now thread) false }
{
    matches!(
        answer(state, thread),
        Some(answer) if answer < 0 && answer.unsigned_abs() == errno
    )
}

// Returns whether the thread's last result is no error and below the number.
fn is_answered_less(number: u32, state: &State, thread: u32) -> bool
    ensures { result ≡ option_map_or (λ n. is_less n number) (answer_of state.now thread) false }
{
    matches!(
        answer(state, thread),
        Some(answer) if answer >= 0 && (answer as u64) < u64::from(number)
    )
}

// Returns whether the close that the thread has now done succeeded.
fn has_closed(state: &State, thread: u32) -> bool
    ensures { result ≡ has_closed state.now thread }
{
    matches!(answer(state, thread), Some(answer) if answer == 0)
}

/// Returns the first slot, pushed and not yet taken, whose entry names the descriptor that the
/// event closed.
pub fn slot_met(setup: &Setup, state: &State, event: Event, before: Before) -> Option<u32> {
    let Event::Step(thread) = event else {
        return None;
    };
    match instruction_at(setup, event, before.counter) {
        Some(Instruction::Close(fd)) if has_closed(state, thread) => {
            first_pushed(state, Sought::Naming(descriptor_number(*fd)?))
        }
        _ => None,
    }
}

// Returns whether the setup has the descriptor, open or closed.
fn has_descriptor(state: &State, fd: i32) -> bool
    ensures { result ≡ option_map_or (has_descriptor state.now) (number_in fd) false }
{
    matches!(descriptor_number(fd), Some(number) if state.value(Place::OpenMark(number)).is_some())
}

// Returns whether an enter took all entries, or waits.
fn took_all(to_submit: u32, state: &State, thread: u32) -> bool
    ensures { result ≡ took_all to_submit (answer_of state.now thread) }
{
    match answer(state, thread) {
        Some(answer) => answer >= i64::from(to_submit),
        None => true,
    }
}

/// Returns whether a step of a thread is a finding of no kind, by a test that costs little.
pub fn is_plain(changes: bool, instruction: &Instruction, state: &State, thread: u32) -> bool
    ensures { result ≡ is_plain changes instruction.now state.now thread }
{
    match instruction {
        Instruction::Store(_, _) | Instruction::Reap => true,
        Instruction::Put(_, _) => !changes,
        Instruction::Enter { to_submit, .. } => took_all(*to_submit, state, thread),
        Instruction::Push(_) | Instruction::Close(_) => false,
    }
}

/// Returns whether a step of a thread is a finding of this kind. `changes` says whether it changed
/// a slot; `state` is the state after it.
pub fn is_of_step(
    kind: StepKind,
    changes: bool,
    instruction: &Instruction,
    state: &State,
    thread: u32,
) -> bool
    ensures { result ≡ is_of_step kind changes instruction.now state.now thread }
{
    match (kind, instruction) {
        (StepKind::Busy, Instruction::Enter { .. }) => is_refused(EBUSY as u64, state, thread),
        (StepKind::TakenShort, Instruction::Enter { to_submit, .. }) => {
            is_answered_less(*to_submit, state, thread)
        }
        (StepKind::RefusedFlags, Instruction::Enter { .. }) => {
            is_refused(EINVAL as u64, state, thread)
        }
        (StepKind::NoSuchSlot, Instruction::Push(index)) => {
            state.value(Place::Slot(*index)).is_none()
        }
        (StepKind::SlotInUse, Instruction::Put(slot, _)) => changes && is_pushed_last(state, *slot),
        (StepKind::ClosedEarly, Instruction::Close(fd)) => {
            has_closed(state, thread) && is_named(state, *fd)
        }
        (StepKind::ClosedWhileHeld, Instruction::Close(fd)) => {
            has_closed(state, thread) && is_held(state, *fd)
        }
        (StepKind::ClosedTwice, Instruction::Close(fd)) => {
            is_refused(EBADF as u64, state, thread) && has_descriptor(state, *fd)
        }
        _ => false,
    }
}

// Returns what a thread that waits in no enter does next, from its instruction.
fn next_by(instruction: Option<&Instruction>) -> Next
    ensures { result ≡ next_at Stage.Ready (option_copied instruction.entry) }
{
    match instruction {
        Some(Instruction::Push(_)) => Next::Pushes,
        Some(Instruction::Reap) => Next::Reaps,
        _ => Next::Other,
    }
}

/// Returns what a thread of the setup does next.
pub fn next_of(setup: &Setup, state: &State, thread: u32) -> Next
    ensures { result ≡ next_of setup.now state.now thread }
{
    if thread as usize >= setup.threads.as_slice().len() {
        return Next::Other;
    }
    let step = Event::Step(thread);
    match state.value(Place::ThreadStage(thread)) {
        Some(Value::Staged(Stage::Waiting(_, _))) => Next::Waits,
        Some(Value::Staged(Stage::Ready)) => {
            next_by(instruction_at(setup, step, counter_of(state, step)))
        }
        _ => Next::Other,
    }
}

// Returns whether no word of the submission ring is free, so that a push is refused.
fn is_full(state: &State) -> bool
    ensures { result ≡ (waiting state.now.submissions.head state.now.submissions.tail
        == length state.now.submissions.array) }
{
    let ring = state.submissions();
    ring.waiting() == ring.size()
}

// Returns whether what a thread does next is a push or a reap that can't be done yet.
fn is_stuck(next: Next, state: &State) -> bool
    ensures { result ≡ blocks state.now next }
{
    match next {
        Next::Pushes => is_full(state),
        Next::Reaps => state.completions().is_empty(),
        Next::Waits | Next::Other => false,
    }
}

/// Returns whether a condition holds that is a finding if it lasts to the end of the run. `next` is
/// what the thread in question does next.
pub fn condition_holds(condition: Condition, state: &State, subject: u32, next: Next) -> bool
    ensures { (s : Setup) → next ≡ next_of s state.now subject →
        result ≡ condition_holds s condition state.now subject }
{
    match condition {
        Condition::LostWakeUp => subject == 0 && (needs_wake_up(state) && has_entries(state)),
        Condition::NotTaken => subject == 0 && (!needs_wake_up(state) && has_entries(state)),
        Condition::NotReaped => subject == 0 && (overflows(state) || has_completions(state)),
        Condition::Waits => matches!(next, Next::Waits),
        Condition::Stuck => is_stuck(next, state),
    }
}
