//! Searching for an event that isn't idle.
ghost use Rattle.std.specs.Prelude.{◌≡◌, ◌≤◌, ◌^◌, ◌⊎◌, ℕ, Some, IfSome, IfNone, is_none, length};
ghost use Rattle.machine.specs.Deadlines.{deadline_at};
ghost use Rattle.machine.specs.Steps.{refusal};
ghost use Rattle.quiescence.specs.Over.{IsOver, SaysOver, IsActive, NoStep, NoTake, IsAtRest, AllAtRest};

use entries::Choice;
use machine::{Event, Refusal, State};

/// Returns whether a state is over, so that only idle events are accepted. `threads` is at least
/// the number of its threads. Doesn't allocate.
pub fn is_over(state: &State, threads: u32) -> bool
    requires few { length state.now.threads ≤ threads }
    ensures { SaysOver result state.now }
{
    match going(state, threads) {
        Some(_) => false,
        None => true,
    }
}

/// Returns an event that is accepted and isn't idle, or None if the state is over. `threads` is at
/// least the number of its threads. Doesn't allocate.
pub fn going(state: &State, threads: u32) -> Option<Event>
    requires few { length state.now.threads ≤ threads }
    ensures some { IfSome result (IsActive state.now) }
    ensures none { IfNone result (IsOver state.now) }
{
    if let Some(event) = first_step(state, threads) {
        return Some(event);
    }
    if let Some(event) = take_of_one(state) {
        return Some(event);
    }
    first_of_rows(state)
}

fn is_accepted(state: &State, event: Event) -> bool
    ensures { result ≡ is_none (refusal state.now event) }
{
    state.refuses(event).is_none()
}

// Returns the step of the first thread that can do one.
fn first_step(state: &State, threads: u32) -> Option<Event>
    requires few { length state.now.threads ≤ threads }
    ensures some { IfSome result (IsActive state.now) }
    ensures none { IfNone result (NoStep state.now) }
{
    for thread in 0..threads {
        if is_accepted(state, Event::Step(thread)) {
            return Some(Event::Step(thread));
        }
    }
    None
}

// Returns the event that the poller takes one entry, if it can. An awake poller isn't refused sleep
// unless entries wait.
fn take_of_one(state: &State) -> Option<Event>
    ensures some { IfSome result (IsActive state.now) }
    ensures none { IfNone result (NoTake state.now) }
{
    match state.refuses(Event::Sleep) {
        Some(Refusal::NotIdle) => {
            if is_accepted(state, Event::Take(1)) {
                Some(Event::Take(1))
            } else {
                None
            }
        }
        _ => None,
    }
}

// Returns an event of the first request to which something can happen.
fn first_of_rows(state: &State) -> Option<Event>
    ensures some { IfSome result (IsActive state.now) }
    ensures none { IfNone result (AllAtRest state.now) }
{
    let mut from = 0;
    while let Some(number) = state.next_unfinished(from) {
        if let Some(event) = event_of(state, number) {
            return Some(event);
        }
        from = number + 1;
    }
    None
}

// Returns an event that changes the request, or by which the clock reaches its deadline.
#[tactic(auto, using(crate::proofs::Closed::row_at_rest))]
fn event_of(state: &State, number: u32) -> Option<Event>
    ensures some { IfSome result (IsActive state.now) }
    ensures none { IfNone result (IsAtRest state.now number) }
{
    if is_accepted(state, Event::Issue(number)) {
        return Some(Event::Issue(number));
    }
    if is_accepted(state, Event::Finish(number, Choice::Full)) {
        return Some(Event::Finish(number, Choice::Full));
    }
    if is_accepted(state, Event::Expire(number)) {
        return Some(Event::Expire(number));
    }
    tick_to(state, number)
}

// Returns the event by which the clock reaches the deadline of the request, if that is ahead and
// the clock can.
fn tick_to(state: &State, number: u32) -> Option<Event>
    ensures some { IfSome result (IsActive state.now) }
    ensures none { IfNone result ((t : ℕ) → deadline_at state.now.table number ≡ Some t
        → (t ≤ state.now.clock) ⊎ (2 ^ 64 ≤ t)) }
{
    let deadline = state.deadline(number)?;
    let clock = state.clock();
    if deadline <= clock as u128 || deadline > u64::MAX as u128 {
        return None;
    }
    Some(Event::Tick(deadline as u64 - clock))
}
