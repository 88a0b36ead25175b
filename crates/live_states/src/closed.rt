//! Closed runs: the trace, the final state, and the receipts of each actor.
ghost use Rattle.std.specs.Prelude.{◌≡◌, ◌↔◌, ◌<◌, ◌≢◌, ℕ, Some, None, true, Contains, slice_get};
ghost use Rattle.live_states.specs.Received.{IsOf, receipts_of};

use crate::receipt::Receipt;
use machine::State;
use places::Items;
use scenario::{Event, Setup};
use std::marker::Model;

/// A run whose actors have stopped, with the receipts that each of them presents.
pub(crate) struct Ended {
    pub(crate) setup: Setup,
    pub(crate) actors: u32,
    pub(crate) events: Vec<Event>,
    pub(crate) owners: Vec<u32>,
    pub(crate) state: State,
    pub(crate) lists: Vec<Items<Receipt>>,
}

// Written by hand, so that dropping a run is one step in a proof.
impl Drop for Ended {
    fn drop(self) {
        let Ended {
            setup: _,
            actors: _,
            events: _,
            owners: _,
            state: _,
            lists: _,
        } = self;
    }
}

impl Model for Ended {
    ghost use Rattle.live_states.specs.History.{Past};

    ghost Value = { Past };

    ghost view = { λ c. record {
      setup = c.setup;
      actors = c.actors;
      events = c.events.items;
      owners = c.owners.items;
      state = c.state;
      receipts = c.lists.items;
    } };
}

/// A closed run: each actor's receipts were checked against the trace.
pub struct Closed {
    pub(crate) ended: Ended,
}

// Written by hand, like that of `Ended`.
impl Drop for Closed {
    fn drop(self) {
        let Closed { ended: _ } = self;
    }
}

impl Model for Closed {
    ghost use Rattle.live_states.specs.History.{Past, Whole};

    ghost Value = { Past };

    ghost view = { λ c. c.ended };

    ghost invariant = { λ c. Whole c.ended };
}

impl Closed {
    ghost use Rattle.live_states.specs.History.{Whole};

    /// Returns the setup from which the run started.
    pub fn setup(&self) -> &Setup
        ensures { result.now ≡ self.now.setup }
    {
        &self.ended.setup
    }

    /// Returns the number of actors.
    pub fn actors(&self) -> u32
        ensures { result ≡ self.now.actors }
    {
        self.ended.actors
    }

    /// Returns the events of the trace, in order.
    pub fn events(&self) -> &[Event]
        ensures events { result.now ≡ self.now.events }
        ensures whole { Whole self.now }
    {
        &self.ended.events
    }

    /// Returns the state after the last event.
    pub fn state(&self) -> &State
        ensures { result.now ≡ self.now.state }
    {
        &self.ended.state
    }

    /// Returns an actor's receipts: one for each of its events, in order.
    pub fn receipts(&self, actor: u32) -> &[Receipt]
        requires { actor < self.now.actors }
        ensures list { slice_get self.now.receipts actor ≡ Some result.now }
        ensures receipts_of { result.now ≡ receipts_of actor self.now.owners self.now.events }
    {
        self.ended.lists[actor as usize].as_slice()
    }

    /// Returns the event of a receipt, if the trace has that event at the receipt's moment, made by
    /// the receipt's actor.
    #[tactic(auto, using(crate::proofs::ReceiptLemmas::receipts_are_of))]
    pub fn redeem(&self, receipt: &Receipt) -> Option<Event>
        ensures some { (result ≡ Some receipt.now.event)
            ↔ IsOf self.now.owners self.now.events receipt.now }
        ensures none { result ≢ None → result ≡ Some receipt.now.event }
        ensures own { (a : ℕ) → Contains (receipts_of a self.now.owners self.now.events) receipt.now
            → result ≡ Some receipt.now.event }
    {
        if self.has(receipt) {
            Some(receipt.event)
        } else {
            None
        }
    }

    // Returns whether the trace has the receipt's event at its moment, made by its actor.
    fn has(&self, receipt: &Receipt) -> bool
        ensures { (result ≡ true) ↔ IsOf self.now.owners self.now.events receipt.now }
    {
        let moment = receipt.moment as usize;
        has_owner(&self.ended.owners, moment, receipt.actor)
            && has_event(&self.ended.events, moment, receipt.event)
    }
}

fn has_owner(owners: &[u32], moment: usize, actor: u32) -> bool
    ensures { (result ≡ true) ↔ (slice_get owners.now moment ≡ Some actor) }
{
    match owners.get(moment) {
        Some(owner) => *owner == actor,
        None => false,
    }
}

fn has_event(events: &[Event], moment: usize, event: Event) -> bool
    ensures { (result ≡ true) ↔ (slice_get events.now moment ≡ Some event) }
{
    match events.get(moment) {
        Some(there) => *there == event,
        None => false,
    }
}
