//! The events that threads, the poller and the clock offer.
ghost use Rattle.std.specs.Prelude.{◌≡◌, Some, None, ◌+◌};
ghost use Rattle.machine.specs.Whole.{WellFormed};
ghost use Rattle.sampling.specs.Draws.{mixed, draw};
ghost use Rattle.sampling.specs.Offers.{poller_offer, take_of, clock_offer, least_ahead, smaller_of, if_ahead, tick_to};

use crate::choosing::POLLER;
use crate::draws::{Source, below, draw, mixed};
use machine::{Event, Refusal, State};

/// Returns what the poller does next, if it is awake.
#[tactic(auto, unfolding(crate::specs::Offers::poller_offer))]
pub(crate) fn poller_offer(state: &State, source: &Source) -> Option<Event>
    ensures { result ≡ poller_offer source.now state.now }
{
    match state.refuses(Event::Sleep) {
        None => Some(Event::Sleep),
        Some(Refusal::NotIdle) => {
            let head = state.submissions().head();
            let word = draw(mixed(source.key, POLLER, head as u64), 0);
            Some(take_of(state, state.submissions().waiting(), word))
        }
        Some(_) => None,
    }
}

// Takes one entry or all that wait, of which there are `n`.
fn take_of(state: &State, n: u32, word: u64) -> Event
    ensures { result ≡ take_of state.now n word }
{
    if below(2, word) == 0 || state.refuses(Event::Take(n)).is_some() {
        Event::Take(1)
    } else {
        Event::Take(n)
    }
}

/// Returns the tick by which the clock reaches the least deadline that is ahead.
#[tactic(auto, unfolding(crate::specs::Offers::clock_offer))]
pub(crate) fn clock_offer(state: &State) -> Option<Event>
    ensures { result ≡ clock_offer state.now }
{
    tick_to(state.clock(), least_ahead(state)?)
}

// Returns the least deadline of an issued request that is ahead of the clock.
fn least_ahead(state: &State) -> Option<u128>
    ensures { result ≡ least_ahead state.now }
{
    let clock = state.clock();
    let mut least = None;
    let mut from = 0;
    'rows: while let Some(r) = state.next_issued(from) {
        least = smaller_of(least, if_ahead(clock, state.deadline(r)));
        from = r + 1;
    }
    least
}

fn if_ahead(clock: u64, deadline: Option<u128>) -> Option<u128>
    ensures { result ≡ if_ahead clock deadline }
{
    match deadline {
        Some(t) if (clock as u128) < t => Some(t),
        _ => None,
    }
}

fn smaller_of(a: Option<u128>, b: Option<u128>) -> Option<u128>
    ensures { result ≡ smaller_of a b }
{
    match (a, b) {
        (Some(a), Some(b)) => Some(a.min(b)),
        (None, b) => b,
        (a, None) => a,
    }
}

fn tick_to(clock: u64, deadline: u128) -> Option<Event>
    ensures { result ≡ tick_to clock (Some deadline) }
{
    if deadline > u64::MAX as u128 {
        return None;
    }
    Some(Event::Tick((deadline as u64).saturating_sub(clock)))
}
