//! Seats, with which actors make events under the lock.
ghost use Rattle.std.specs.Prelude.{◌≡◌, ◌<◌, length};
ghost use Rattle.live_states.specs.History.{altered};

use crate::receipt::Receipt;
use scenario::Event;
use std::marker::Model;
use std::sync::ledger::{Ledger, Share};

/// An actor's access to the run: its number, its receipts, and its share of the ledger.
#[derive(Drop)]
pub struct Seat<L: Ledger> {
    pub(crate) actor: u32,
    pub(crate) receipts: Vec<Receipt>,
    pub(crate) share: Share<L>,
}

impl<L: Ledger> Model for Seat<L> {
    ghost use Rattle.live_states.specs.History.{Held, Counted};

    ghost Value = { Held };

    ghost view = { λ s. record {
      actor = s.actor;
      receipts = s.receipts.items;
      parts = s.share.parts;
      amount =
          s.share.amount;
    } };

    ghost invariant = { λ s. Counted
        (record {
          actor = s.actor;
          receipts = s.receipts.items;
          parts = s.share.parts;
          amount =
              s.share.amount;
        }) };
}

impl<L: Ledger> Seat<L> {
    /// Returns the actor's number.
    pub fn actor(&self) -> u32
        ensures { result ≡ self.now.actor }
    {
        self.actor
    }

    /// Returns the receipts that the actor received, in order.
    pub fn receipts(&self) -> &[Receipt]
        ensures { result.now ≡ self.now.receipts }
    {
        &self.receipts
    }

    /// Replaces the event of a receipt. For tests: `finish` detects the change.
    pub fn alter(&mut self, place: usize, event: Event)
        requires { place < length self.old.receipts }
        ensures { self.new ≡ altered self.old place event }
    {
        self.receipts[place].event = event;
    }
}
