//! Closing a run: merges the actors' shares and checks their receipts against the trace.
ghost use Rattle.std.specs.Prelude.{◌≡◌, ◌↔◌, ◌+◌, ◌++◌, ◌∷◌, ◌^◌, ◌<◌, ◌≤◌, [], length, true, IfOk, IfErr, IfSome, IfNone, OnOk, slice_get, Some, option_map};
ghost use Rattle.live_states.specs.Received.{receipt, receipts_of, AllReceived, LeastTorn};
ghost use Rattle.live_states.specs.History.{Whole, closed_of};

use crate::closed::{Closed, Ended};
use crate::lives::Live;
use crate::receipt::Receipt;
use crate::seat::Seat;
use machine::State;
use places::{Items, Record};
use scenario::{Event, Setup};
use std::marker::Model;
use std::sync::ledger::{Book, Ledger, Share};

/// The lowest-numbered actor whose receipts differ from its events in the trace.
#[derive(Clone, Copy)]
pub struct Torn(pub u32);

/// A run that is being closed, with the shares and receipts that its actors have given back.
#[derive(Drop)]
pub struct Closing<L: Ledger> {
    setup: Setup,
    actors: u32,
    events: Vec<Event>,
    owners: Vec<u32>,
    records: Vec<Record>,
    state: State,
    book: Book<L>,
    share: Share<L>,
    lists: Vec<Items<Receipt>>,
}

impl<L: Ledger> Model for Closing<L> {
    ghost use Rattle.std.specs.Prelude.{◌≡◌, ◌≤◌, vec_len, vec_capacity};
    ghost use Rattle.live_states.specs.History.{ClosingState, Replays};

    ghost Value = { ClosingState };

    ghost view = { λ c. record {
      run =
          record {
            setup = c.setup;
            actors = c.actors;
            events = c.events.items;
            owners = c.owners.items;
            state = c.state;
            total = c.book.total;
          };
      lists = c.lists.items;
      amount = c.share.amount;
    } };

    ghost invariant = { λ c. Replays
        (record {
          setup = c.setup;
          actors = c.actors;
          events = c.events.items;
          owners =
              c.owners.items;
          state = c.state;
          total = c.book.total;
        }) c.records.items
        × (c.share.parts ≡ vec_len c.lists) × (c.actors ≤ vec_capacity c.lists)
        × (c.actors ≡ L.parts) };
}

impl<L: Ledger> Closing<L> {
    /// Begins to close a run after all its actors have stopped. Allocates no memory.
    pub fn new(live: Live<L>) -> Closing<L>
        ensures run { result.run ≡ live }
        ensures lists { result.lists ≡ [] }
        ensures amount { result.amount ≡ 0 }
    {
        let Live {
            alloc: _,
            setup,
            actors,
            events,
            owners,
            records,
            state,
            first: _,
            book,
            rest: share,
            room: lists,
        } = live;
        Closing {
            setup,
            actors,
            events,
            owners,
            records,
            state,
            book,
            share,
            lists,
        }
    }

    /// Merges the next actor's share, and appends its receipts to the lists. Allocates no memory.
    pub fn give_back(&mut self, seat: Seat<L>)
        requires { length self.old.lists < self.old.run.actors }
        ensures run { self.new.run ≡ self.old.run }
        ensures lists { self.new.lists ≡ self.old.lists ++ seat.receipts ∷ [] }
        ensures amount { self.new.amount ≡ self.old.amount + length seat.receipts }
    {
        let Seat {
            actor: _,
            receipts,
            share,
        } = seat;
        self.share.merge(share);
        self.lists.push_reserved(Items::from_vec(receipts));
    }

    /// Closes the run after all actors have given back their seats, if each actor's receipts are
    /// its events. Allocates no memory.
    pub fn close(self) -> Result<Closed, Torn>
        requires { length self.lists ≡ self.run.actors }
        ensures count { self.amount ≡ length self.run.events }
        ensures closed { IfOk result (λ c. c ≡ closed_of self.run self.lists) }
        ensures whole { OnOk result (AllReceived self.run.owners self.run.events self.lists) }
        ensures torn { IfErr result
            (λ t. LeastTorn self.run.owners self.run.events self.lists t.0) }
    {
        let ended = end(self);
        match first_torn(&ended.owners, &ended.events, &ended.lists) {
            Some(actor) => Err(Torn(actor)),
            None => Ok(Closed { ended }),
        }
    }
}

// Takes the run apart, and audits its ledger.
fn end<L: Ledger>(closing: Closing<L>) -> Ended
    requires { length closing.lists ≡ closing.run.actors }
    ensures count { closing.amount ≡ length closing.run.events }
    ensures value { result ≡ closed_of closing.run closing.lists }
    ensures few { length closing.lists < 2 ^ 32 }
    ensures pairs { length closing.run.owners ≡ length closing.run.events }
    ensures most { length closing.run.events ≤ 1048576 }
    ensures whole { AllReceived closing.run.owners closing.run.events closing.lists
        → Whole (closed_of closing.run closing.lists) }
{
    let Closing {
        setup,
        actors,
        events,
        owners,
        records: _,
        state,
        mut book,
        mut share,
        lists,
    } = closing;
    book.audit(&mut share);
    Ended {
        setup,
        actors,
        events,
        owners,
        state,
        lists,
    }
}

// Returns the lowest-numbered actor whose receipts differ from its events.
fn first_torn(owners: &[u32], events: &[Event], lists: &[Items<Receipt>]) -> Option<u32>
    requires few { length lists.now < 2 ^ 32 }
    requires pairs { length owners.now ≡ length events.now }
    requires most { length events.now ≤ 1048576 }
    ensures none { IfNone result (AllReceived owners.now events.now lists.now) }
    ensures some { IfSome result (LeastTorn owners.now events.now lists.now) }
{
    for actor in 0..lists.len() {
        if !are_receipts_of(actor as u32, owners, events, lists[actor].as_slice()) {
            return Some(actor as u32);
        }
    }
    None
}

// Returns whether the receipts are exactly an actor's events with their moments, in order.
fn are_receipts_of(actor: u32, owners: &[u32], events: &[Event], receipts: &[Receipt]) -> bool
    requires pairs { length owners.now ≡ length events.now }
    requires most { length events.now ≤ 1048576 }
    ensures { (result ≡ true) ↔ (receipts.now ≡ receipts_of actor owners.now events.now) }
{
    let mut next = 0;
    for moment in 0..events.len() {
        if owners[moment] == actor {
            if !is_receipt_at(receipts, next, actor, events, moment) {
                return false;
            }
            next += 1;
        }
    }
    next == receipts.len()
}

// Returns whether the receipt at an index is that of the event at a moment.
fn is_receipt_at(
    receipts: &[Receipt],
    place: usize,
    actor: u32,
    events: &[Event],
    moment: usize,
) -> bool
    requires there { moment < length events.now }
    requires most { length events.now ≤ 1048576 }
    ensures { (result ≡ true)
        ↔ (slice_get receipts.now place
        ≡ option_map (receipt actor moment) (slice_get events.now moment)) }
{
    let expected = Receipt {
        actor,
        moment: moment as u32,
        event: events[moment],
    };
    is_at(receipts, place, expected)
}

// Returns whether a receipt is at an index.
fn is_at(receipts: &[Receipt], place: usize, expected: Receipt) -> bool
    ensures { (result ≡ true) ↔ (slice_get receipts.now place ≡ Some expected) }
{
    match receipts.get(place) {
        Some(receipt) => *receipt == expected,
        None => false,
    }
}
