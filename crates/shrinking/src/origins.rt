//! Who submitted each request of a run. A request keeps its origin when other submissions are removed
//! or moved, but not its number.

use crate::costs::{Actor, actor_of};
use machine::{Event, State};
use std::alloc::{AllocError, Global};

/// Who submitted a request, and how many requests it had submitted before.
#[derive(Clone, Copy, PartialEq, Eq)]
struct Origin {
    actor: Actor,
    earlier: usize,
}

/// The origin of each request, by its number.
#[derive(Drop)]
pub(crate) struct Origins {
    origins: Vec<Origin>,
}

impl Origins {
    /// Returns the origins of a run without requests.
    pub(crate) fn new(alloc: Global) -> Origins {
        Origins {
            origins: Vec::new(alloc),
        }
    }

    // Adds a request.
    fn push(&mut self, actor: Actor) -> Result<(), AllocError> {
        let earlier = match self.origins.iter().rev().find(|it| it.actor == actor) {
            Some(last) => last.earlier.saturating_add(1),
            None => 0,
        };
        self.origins.push(Origin { actor, earlier })?;
        Ok(())
    }

    /// Adds the requests that an event submitted, given the state after it.
    pub(crate) fn note(&mut self, state: &State, event: Event) -> Result<(), AllocError> {
        for _request in self.origins.len()..state.row_count() as usize {
            self.push(actor_of(event))?;
        }
        Ok(())
    }

    // Returns the number of the request with the origin that another run's request has.
    fn number_of(&self, number: u32, other: &Origins) -> Option<u32> {
        let origin = other.origins.get(number as usize)?;
        if self.origins.get(number as usize) == Some(origin) {
            return Some(number);
        }
        let index = self.origins.iter().position(|it| it == origin)?;
        u32::try_from(index).ok()
    }

    /// Returns an event of another run about the request of the same origin, if there is one.
    pub(crate) fn renumbered(&self, event: Event, other: &Origins) -> Option<Event> {
        match event {
            Event::Issue(number) => Some(Event::Issue(self.number_of(number, other)?)),
            Event::Finish(number, choice) => {
                Some(Event::Finish(self.number_of(number, other)?, choice))
            }
            Event::Expire(number) => Some(Event::Expire(self.number_of(number, other)?)),
            _ => Some(event),
        }
    }
}
