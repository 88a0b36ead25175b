//! How full the rings and the backlog are at a moment.
ghost use Rattle.std.specs.Prelude.{◌≡◌, ◌≤◌, length};
ghost use Rattle.occupancy.specs.{view, WellFormed, filling_of, number_in};

use machine::State;
use places::{Place, Value};

/// How full the rings and the backlog are at a moment, and its time.
#[derive(Clone, Copy)]
pub struct Filling {
    /// Entries that wait in the submission ring.
    pub submissions: u32,
    /// Completions that wait in the completion ring.
    pub completions: u32,
    /// Overflowed completions that wait in the backlog.
    pub kept: u32,
    /// The model's clock, in nanoseconds.
    pub clock: u64,
}

// Returns the number in a place, or 0 if there is none.
fn number_at(state: &State, place: Place) -> u64
    ensures value { result ≡ number_in (view state.now place) }
    ensures formed { WellFormed state.now }
{
    match state.value(place) {
        Some(Value::Number(number)) => number,
        _ => 0,
    }
}

/// Returns the occupancy of a state, given how many completions have overflowed so far.
pub(crate) fn filling_of(state: &State, overflowed: u32) -> Filling
    requires { overflowed ≡ length state.now.backlog.items }
    ensures value { result ≡ filling_of state.now }
    ensures formed { WellFormed state.now }
{
    let front = number_at(state, Place::BacklogFront);
    Filling {
        submissions: state.submissions().waiting(),
        completions: state.completions().waiting(),
        kept: (u64::from(overflowed) - front) as u32,
        clock: state.clock(),
    }
}

/// Returns how many completions have overflowed, starting the count at a known lower bound.
pub(crate) fn count_overflowed(state: &State, known: u32) -> u32
    requires { known ≤ length state.now.backlog.items }
    ensures { result ≡ length state.now.backlog.items }
{
    let mut count = known;
    'items: while state.value(Place::Backlog(count)).is_some() {
        count += 1;
    }
    count
}
