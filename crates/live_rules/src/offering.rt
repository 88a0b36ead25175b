//! The next event that each actor makes.
ghost use Rattle.std.specs.Prelude.{◌≡◌, Some, None, if◌then◌else◌};
ghost use Rattle.machine.specs.Deadlines.{deadline_at};
ghost use Rattle.machine.specs.Whole.{WellFormed};
ghost use Rattle.live_rules.specs.Least.{or_else, smaller_of};
ghost use Rattle.live_rules.specs.Offers.{submits, polls, works, ends, on_row, least_row, may_do, event_on, ticks_to, offer, is_tick, eager_offer};
ghost use Rattle.live_rules.specs.Passing.{EndedBelow, is_reached};
ghost use Rattle.live_rules.specs.declared.offering.Action.TheVariants.{Issuing, Finishing, Expiring};

use crate::kinds::{is_poller, is_submitter};
use machine::State;
use opcodes::Choice;
use scenario::{Event, Refusal, Setup};

/// What a kernel worker does to a request.
#[derive(Clone, Copy)]
pub enum Action {
    Issuing,
    Finishing,
    Expiring,
}

/// Returns an actor's next event, if it has one, out of `count` actors. Every request before
/// `first` must have completed. Allocates no memory.
pub fn offer(setup: &Setup, count: u32, state: &State, first: u32, actor: u32) -> Option<Event>
    requires ended { EndedBelow state.now.table first }
    ensures { result ≡ offer setup.now count state.now actor }
{
    if actor >= count {
        return None;
    }
    if is_submitter(setup, actor) {
        submits(state, actor)
    } else if is_poller(setup, actor) {
        polls(state)
    } else {
        works(state, first)
    }
}

/// Returns a kernel worker's next event, unless it has none or that advances the clock. Allocates
/// no memory.
pub fn eager_offer(state: &State) -> Option<Event>
    ensures { result ≡ eager_offer state.now }
{
    let event = works(state, 0)?;
    if is_tick(event) {
        return None;
    }
    Some(event)
}

// Returns whether an event advances the clock.
fn is_tick(event: Event) -> bool
    ensures { result ≡ is_tick event }
{
    matches!(event, Event::Tick(_))
}

/// Returns the first request from `from` on that is queued or issued, or `from` if there is none.
pub fn first_open(state: &State, from: u32) -> u32
    requires { EndedBelow state.now.table from }
    ensures { EndedBelow state.now.table result }
{
    match (state.next_queued(from), state.next_issued(from)) {
        (Some(queued), Some(issued)) => queued.min(issued),
        (Some(queued), None) => queued,
        (None, Some(issued)) => issued,
        (None, None) => from,
    }
}

fn submits(state: &State, thread: u32) -> Option<Event>
    ensures { result ≡ submits state.now thread }
{
    match state.refuses(Event::Step(thread)) {
        Some(Refusal::NoSuchThread | Refusal::ThreadDone) => None,
        _ => Some(Event::Step(thread)),
    }
}

fn polls(state: &State) -> Option<Event>
    ensures { result ≡ polls state.now }
{
    match state.refuses(Event::Sleep) {
        None => Some(Event::Sleep),
        Some(Refusal::NotIdle) => Some(Event::Take(1)),
        Some(_) => None,
    }
}

fn works(state: &State, first: u32) -> Option<Event>
    requires ended { EndedBelow state.now.table first }
    ensures { result ≡ works state.now }
{
    match least_to_issue(state, first) {
        Some(r) => Some(event_on(Action::Issuing, r)),
        None => ends(state, first),
    }
}

fn event_on(action: Action, r: u32) -> Event
    ensures { result ≡ event_on action r }
{
    match action {
        Action::Issuing => Event::Issue(r),
        Action::Finishing => Event::Finish(r, Choice::Full),
        Action::Expiring => Event::Expire(r),
    }
}

// Returns the first request that may be issued.
fn least_to_issue(state: &State, first: u32) -> Option<u32>
    requires ended { EndedBelow state.now.table first }
    ensures { result ≡ least_row state.now Issuing }
{
    let mut from = first;
    'rows: while let Some(r) = state.next_queued(from) {
        if may_do(state, Action::Issuing, r) {
            return Some(r);
        }
        from = r + 1;
    }
    None
}

fn may_do(state: &State, action: Action, r: u32) -> bool
    ensures { result ≡ may_do state.now action r }
{
    state.refuses(event_on(action, r)).is_none()
}

// Returns the event to make when no request may be issued. Examines each issued request once.
fn ends(state: &State, first: u32) -> Option<Event>
    requires ended { EndedBelow state.now.table first }
    ensures { result ≡ ends state.now }
{
    let clock = state.clock();
    let mut due = None;
    let mut least = None;
    let mut from = first;
    'rows: while let Some(r) = state.next_issued(from) {
        let deadline = state.deadline(r);
        if may_finish(state, r, deadline) {
            return Some(event_on(Action::Finishing, r));
        }
        due = first_due(clock, due, r, deadline);
        least = smaller_of(least, deadline);
        from = r + 1;
    }
    expires_or_ticks(clock, due, least)
}

// Returns whether a request may finish with `Choice::Full`. One that has a deadline is a TIMEOUT or
// a LINK_TIMEOUT, which may not.
fn may_finish(state: &State, r: u32, deadline: Option<u128>) -> bool
    requires formed { WellFormed state.now }
    requires deadline { deadline ≡ deadline_at state.now.table r }
    ensures { result ≡ may_do state.now Finishing r }
{
    match deadline {
        Some(_) => false,
        None => may_do(state, Action::Finishing, r),
    }
}

// Returns the due request found so far, or else `r` if its deadline has passed.
fn first_due(clock: u64, due: Option<u32>, r: u32, deadline: Option<u128>) -> Option<u32>
    ensures { result ≡ or_else due (if is_reached clock deadline then Some r else None) }
{
    match due {
        Some(first) => Some(first),
        None => is_reached(clock, deadline).then_some(r),
    }
}

fn is_reached(clock: u64, deadline: Option<u128>) -> bool
    ensures { result ≡ is_reached clock deadline }
{
    match deadline {
        Some(deadline) => deadline <= clock as u128,
        None => false,
    }
}

fn expires_or_ticks(clock: u64, due: Option<u32>, least: Option<u128>) -> Option<Event>
    ensures { result ≡ or_else (on_row Expiring due) (ticks_to clock least) }
{
    match due {
        Some(r) => Some(event_on(Action::Expiring, r)),
        None => ticks_to(clock, least),
    }
}

// Advances the clock to the least deadline, if that is at most 2^64 - 1.
fn ticks_to(clock: u64, least: Option<u128>) -> Option<Event>
    ensures { result ≡ ticks_to clock least }
{
    let deadline = least?;
    if deadline > u64::MAX as u128 {
        return None;
    }
    Some(Event::Tick((deadline as u64).saturating_sub(clock)))
}

fn smaller_of(a: Option<u128>, b: Option<u128>) -> Option<u128>
    ensures { result ≡ smaller_of a b }
{
    match (a, b) {
        (Some(a), Some(b)) => Some(a.min(b)),
        (None, b) => b,
        (a, None) => a,
    }
}
