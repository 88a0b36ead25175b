//! How simple a schedule is, by its number of events and by how often another actor acts.

use entries::Choice;
use machine::Event;

/// Who acts in an event.
#[derive(Clone, Copy, PartialEq, Eq)]
pub(crate) enum Actor {
    Thread(u32),
    Poller,
    /// The device or the timer of a request.
    Request(u32),
    Clock,
}

/// How complex a schedule is. Costs are compared by their fields, in this order.
#[derive(Clone, Copy, PartialEq, Eq, PartialOrd, Ord)]
pub(crate) struct Cost {
    events: usize,
    /// The number of events whose actor isn't that of the event before.
    switches: usize,
    /// The number of requests that a device makes fail or cuts short.
    failures: usize,
}

/// Returns who acts in an event.
pub(crate) fn actor_of(event: Event) -> Actor {
    match event {
        Event::Step(thread) => Actor::Thread(thread),
        Event::Take(_) | Event::Sleep => Actor::Poller,
        Event::Issue(request) | Event::Finish(request, _) | Event::Expire(request) => {
            Actor::Request(request)
        }
        Event::Tick(_) => Actor::Clock,
    }
}

/// Returns whether a device makes a request fail or cuts it short.
pub(crate) fn is_failure(event: Event) -> bool {
    matches!(event, Event::Finish(_, Choice::Short(_) | Choice::Eio))
}

// Returns whether two events in a row have different actors.
fn is_switch(pair: &[Event]) -> bool {
    match pair {
        [first, second] => actor_of(*first) != actor_of(*second),
        _ => false,
    }
}

impl Cost {
    /// Returns the cost of a schedule.
    pub(crate) fn new(events: &[Event]) -> Cost {
        Cost {
            events: events.len(),
            switches: events.windows(2).filter(|pair| is_switch(pair)).count(),
            failures: events.iter().filter(|event| is_failure(**event)).count(),
        }
    }
}
