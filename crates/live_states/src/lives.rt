//! A live run, as the lock protects it.
ghost use Rattle.std.specs.Prelude.{◌≡◌, ◌↔◌, ◌++◌, ◌∷◌, [], ◌⊎◌, length, true, Some, None, IfOk, IfErr, OnOk, OnErr, ◌<◌, ◌≤◌, vec_len, vec_capacity, All};
ghost use Rattle.scenario.specs.Setups.{setup_refusal};
ghost use Rattle.scenario.specs.declared.event.Event.{Event};
ghost use Rattle.scenario.specs.declared.event.Refusal.{Refusal};
ghost use Rattle.scenario.specs.declared.setup.SetupRefusal.{SetupRefusal};
ghost use Rattle.machine.specs.Runs.{start, Accepts};
ghost use Rattle.machine.specs.Steps.{refusal};
ghost use Rattle.live_rules.specs.Actors.{actors, is_own};
ghost use Rattle.live_states.specs.Attempts.{Attempted};
ghost use Rattle.live_states.specs.History.{InOrder, opened, with_event, seat_with};
ghost use Rattle.live_rules.specs.Offers.{offer};
ghost use Rattle.live_states.specs.Received.{receipt};

use crate::kinds::is_own;
use crate::receipt::Receipt;
use crate::seat::Seat;
use live_rules::{actors, first_open, offer};
use machine::State;
use places::{Items, Record};
use scenario::{Event, Refusal, Setup, SetupRefusal, setup_refusal};
use std::alloc::{AllocError, Global};
use std::marker::Model;
use std::sync::ledger::{Blank, Book, Ledger, Share};

/// The maximum number of events in a trace.
pub const TRACE_LIMIT: usize = 1048576;

/// A run that several actors make together from its start, with the book of its ledger.
#[derive(Drop)]
pub struct Live<L: Ledger> {
    pub(crate) alloc: Global,
    pub(crate) setup: Setup,
    pub(crate) actors: u32,
    pub(crate) events: Vec<Event>,
    /// The actor that made each event.
    pub(crate) owners: Vec<u32>,
    pub(crate) records: Vec<Record>,
    pub(crate) state: State,
    /// Every request before this index has completed.
    pub(crate) first: u32,
    pub(crate) book: Book<L>,
    /// A share without parts, into which the actors' shares are merged at the end.
    pub(crate) rest: Share<L>,
    /// Preallocated room for one list of receipts per actor, so that closing needs no memory.
    pub(crate) room: Vec<Items<Receipt>>,
}

impl<L: Ledger> Model for Live<L> {
    ghost use Rattle.std.specs.Prelude.{◌≡◌, ◌≤◌, vec_len, vec_capacity};
    ghost use Rattle.live_states.specs.History.{History, Replays};
    ghost use Rattle.live_rules.specs.Passing.{EndedBelow};

    ghost Value = { History };

    ghost view = { λ l. record {
      setup = l.setup;
      actors = l.actors;
      events = l.events.items;
      owners = l.owners.items;
      state = l.state;
      total = l.book.total;
    } };

    ghost invariant = { λ l. Replays
        (record {
          setup = l.setup;
          actors = l.actors;
          events = l.events.items;
          owners =
              l.owners.items;
          state = l.state;
          total = l.book.total;
        }) l.records.items
        × (l.rest.parts ≡ 0) × (l.rest.amount ≡ 0) × (vec_len l.room ≡ 0)
        × (l.actors ≤ vec_capacity l.room) × (l.actors ≡ L.parts)
        × EndedBelow l.state.table l.first };
}

/// Why an actor's event was refused.
#[derive(Clone, Copy)]
pub enum LiveRefusal {
    /// The event is not one that the actor may make.
    NotYours,
    /// The trace has `TRACE_LIMIT` events.
    TraceFull,
    /// The rules refuse the event, or an allocation failed.
    Step(Refusal),
}

impl LiveRefusal {
    ghost use Rattle.live_states.specs.Numbers.{refusal_number};

    /// Returns the refusal's number, from 1 to 3.
    pub fn number(&self) -> u32
        ensures { result ≡ refusal_number self.now }
    {
        match self {
            LiveRefusal::NotYours => 1,
            LiveRefusal::TraceFull => 2,
            LiveRefusal::Step(_) => 3,
        }
    }
}

impl<L: Ledger> Live<L> {
    /// Opens a run without events, and returns it with one seat per actor, in order. If it fails,
    /// the blank is dropped.
    pub fn open(
        alloc: Global,
        blank: Blank,
        setup: &Setup,
        kernel: u32,
    ) -> Result<(Live<L>, Vec<Seat<L>>), SetupRefusal>
        requires kernel { kernel ≤ 8 }
        requires name { blank.name ≡ L.name }
        requires parts { blank.parts ≡ L.parts }
        requires all { blank.parts ≡ actors setup.now kernel }
        ensures live { IfOk result (λ r. r.0 ≡ opened setup.now (actors setup.now kernel)) }
        ensures count { IfOk result (λ r. vec_len r.1 ≡ actors setup.now kernel) }
        ensures order { IfOk result (λ r. InOrder r.1.items) }
        ensures no_receipts { IfOk result (λ r. All (λ s. s.receipts ≡ []) r.1.items) }
        ensures refused { (r : SetupRefusal) → setup_refusal setup.now ≡ Some r → result ≡ Err r }
        ensures only_memory { IfErr result (λ r. setup_refusal setup.now ≡ None
            → r ≡ SetupRefusal.Memory) }
    {
        if let Some(refusal) = setup_refusal(setup) {
            return Err(refusal);
        }
        match open_for(alloc, blank, setup, actors(setup, kernel)) {
            Ok(opened) => Ok(opened),
            Err(_) => Err(SetupRefusal::Memory),
        }
    }

    /// Returns the setup from which the run started.
    pub fn setup(&self) -> &Setup
        ensures value { result.now ≡ self.now.setup }
        ensures starts { setup_refusal self.now.setup ≡ None }
    {
        &self.setup
    }

    /// Returns the number of actors.
    pub fn actors(&self) -> u32
        ensures { result ≡ self.now.actors }
    {
        self.actors
    }

    /// Returns the setup and the number of actors, and drops the rest. Allocates no memory.
    pub fn into_setup(self) -> (Setup, u32)
        ensures setup { result.0 ≡ self.setup }
        ensures actors { result.1 ≡ self.actors }
    {
        let Live {
            alloc: _,
            setup,
            actors,
            events: _,
            owners: _,
            records: _,
            state: _,
            first: _,
            book: _,
            rest: _,
            room: _,
        } = self;
        (setup, actors)
    }

    /// Returns the state after the last event.
    pub fn state(&self) -> &State
        ensures { result.now ≡ self.now.state }
    {
        &self.state
    }

    /// Returns a copy of the events so far.
    pub fn events(&self) -> Result<Vec<Event>, AllocError>
        ensures events { IfOk result (λ es. es.items ≡ self.now.events) }
        ensures most { length self.now.events ≤ 1048576 }
        ensures runs { IfOk result (λ es. Accepts (start self.now.setup) es.items) }
    {
        let events = Vec::from_slice(self.alloc, &self.events)?;
        Ok(events)
    }

    /// Makes one event of the seat's actor at the end of the run, and adds its receipt to the seat.
    /// A refusal changes nothing.
    pub fn attempt(&mut self, seat: &mut Seat<L>, event: Event) -> Result<Receipt, LiveRefusal>
        ensures attempted { Attempted self.old seat.old event result self.new seat.new }
        ensures kept { (self.new.setup ≡ self.old.setup) × (self.new.actors ≡ self.old.actors)
            × (seat.new.actor ≡ seat.old.actor) }
    {
        if !is_own(&self.setup, self.actors, seat.actor, event) {
            return Err(LiveRefusal::NotYours);
        }
        let moment = self.events.len();
        if moment >= TRACE_LIMIT {
            return Err(LiveRefusal::TraceFull);
        }
        match self.append_event(seat, event, moment as u32) {
            Ok(receipt) => Ok(receipt),
            Err(refusal) => Err(LiveRefusal::Step(refusal)),
        }
    }

    // Makes an event that the seat's actor may make, once the trace is known to have room.
    fn append_event(
        &mut self,
        seat: &mut Seat<L>,
        event: Event,
        moment: u32,
    ) -> Result<Receipt, Refusal>
        requires own { is_own self.old.setup self.old.actors seat.old.actor event ≡ true }
        requires moment { moment ≡ length self.old.events }
        requires room { length self.old.events < 1048576 }
        ensures accepted { OnOk result (refusal self.old.state event ≡ None) }
        ensures run { OnOk result (self.new ≡ with_event self.old seat.old.actor event) }
        ensures receipt { IfOk result (λ r. r ≡ receipt seat.old.actor moment event) }
        ensures seat { IfOk result (λ r. seat.new ≡ seat_with seat.old r) }
        ensures refused { (n : Refusal) → refusal self.old.state event ≡ Some n → result ≡ Err n }
        ensures only_memory { IfErr result (λ n. (refusal self.old.state event ≡ Some n)
            ⊎ ((n ≡ Refusal.Memory) × (refusal self.old.state event ≡ None))) }
        ensures err { OnErr result ((self.new ≡ self.old) × (seat.new ≡ seat.old)) }
    {
        if make_room(
            &mut self.events,
            &mut self.owners,
            &mut self.records,
            &mut seat.receipts,
        )
        .is_err()
        {
            return Err(self.state.refuses(event).unwrap_or(Refusal::Memory));
        }
        let actor = seat.actor;
        let past = self.state.step(event)?;
        self.first = first_open(&self.state, self.first);
        let receipt = Receipt {
            actor,
            moment,
            event,
        };
        self.book.add(&mut seat.share, 1);
        push_all(
            &mut self.events,
            &mut self.owners,
            &mut self.records,
            &mut seat.receipts,
            past,
            receipt,
        );
        Ok(receipt)
    }

    /// Returns the actor's next event, if it has one. Allocates no memory. Examines each queued and
    /// each issued request at most once; completed requests before the first unfinished one cost
    /// nothing.
    pub fn offer(&self, actor: u32) -> Option<Event>
        ensures { result ≡ offer self.now.setup self.now.actors self.now.state actor }
    {
        offer(&self.setup, self.actors, &self.state, self.first, actor)
    }

    /// Attempts the next event of the seat's actor, if it has one.
    pub fn take_offer(&mut self, seat: &mut Seat<L>) -> Option<Result<Receipt, LiveRefusal>>
        ensures none { (result ≡ None)
            ↔ (offer self.old.setup self.old.actors self.old.state seat.old.actor ≡ None) }
        ensures idle { result ≡ None → (self.new ≡ self.old) × (seat.new ≡ seat.old) }
        ensures kept { (self.new.setup ≡ self.old.setup) × (self.new.actors ≡ self.old.actors)
            × (seat.new.actor ≡ seat.old.actor) }
        ensures receipt_added { (r : _) → result ≡ Some (Ok r) → seat.new ≡ seat_with seat.old r }
        ensures attempted { (e : Event) (x : _)
            → offer self.old.setup self.old.actors self.old.state seat.old.actor ≡ Some e
            → result ≡ Some x
            → Attempted self.old seat.old e x self.new seat.new }
        ensures err { (x : _) → result ≡ Some (Err x) → (self.new ≡ self.old)
            × (seat.new ≡ seat.old) }
    {
        let event = self.offer(seat.actor())?;
        Some(self.attempt(seat, event))
    }
}

// Reserves room for one more event.
fn make_room(
    events: &mut Vec<Event>,
    owners: &mut Vec<u32>,
    records: &mut Vec<Record>,
    receipts: &mut Vec<Receipt>,
) -> Result<(), AllocError>
    ensures events { events.new.items ≡ events.old.items }
    ensures owners { owners.new.items ≡ owners.old.items }
    ensures records { records.new.items ≡ records.old.items }
    ensures receipts { receipts.new.items ≡ receipts.old.items }
    ensures event_room { OnOk result (vec_len events.new < vec_capacity events.new) }
    ensures owner_room { OnOk result (vec_len owners.new < vec_capacity owners.new) }
    ensures record_room { OnOk result (vec_len records.new < vec_capacity records.new) }
    ensures receipt_room { OnOk result (vec_len receipts.new < vec_capacity receipts.new) }
{
    events.reserve(1)?;
    owners.reserve(1)?;
    records.reserve(1)?;
    receipts.reserve(1)
}

// Appends an event with its owner, record and receipt. Allocates no memory.
fn push_all(
    events: &mut Vec<Event>,
    owners: &mut Vec<u32>,
    records: &mut Vec<Record>,
    receipts: &mut Vec<Receipt>,
    past: Record,
    receipt: Receipt,
)
    requires event_room { vec_len events.old < vec_capacity events.old }
    requires owner_room { vec_len owners.old < vec_capacity owners.old }
    requires record_room { vec_len records.old < vec_capacity records.old }
    requires receipt_room { vec_len receipts.old < vec_capacity receipts.old }
    ensures events { events.new.items ≡ events.old.items ++ receipt.event ∷ [] }
    ensures owners { owners.new.items ≡ owners.old.items ++ receipt.actor ∷ [] }
    ensures records { records.new.items ≡ records.old.items ++ past ∷ [] }
    ensures receipts { receipts.new.items ≡ receipts.old.items ++ receipt ∷ [] }
{
    events.push_reserved(receipt.event);
    owners.push_reserved(receipt.actor);
    records.push_reserved(past);
    receipts.push_reserved(receipt);
}

// Opens a run without events, for a setup that is known to be valid.
fn open_for<L: Ledger>(
    alloc: Global,
    blank: Blank,
    setup: &Setup,
    count: u32,
) -> Result<(Live<L>, Vec<Seat<L>>), AllocError>
    requires starts { setup_refusal setup.now ≡ None }
    requires name { blank.name ≡ L.name }
    requires parts { blank.parts ≡ L.parts }
    requires all { blank.parts ≡ count }
    ensures live { IfOk result (λ r. r.0 ≡ opened setup.now count) }
    ensures count { IfOk result (λ r. vec_len r.1 ≡ count) }
    ensures order { IfOk result (λ r. InOrder r.1.items) }
    ensures no_receipts { IfOk result (λ r. All (λ s. s.receipts ≡ []) r.1.items) }
{
    let (setup, state) = start_of(alloc, setup)?;
    let room = Vec::with_capacity(alloc, count as usize)?;
    let (book, mut rest) = blank.open::<L>();
    let seats = seats_of(alloc, &mut rest, count)?;
    let events = Vec::new(alloc);
    let owners = Vec::new(alloc);
    let records = Vec::new(alloc);
    let live = Live {
        alloc,
        setup,
        actors: count,
        events,
        owners,
        records,
        state,
        first: 0,
        book,
        rest,
        room,
    };
    Ok((live, seats))
}

// Copies a setup that is known to be valid, and makes its start.
fn start_of(alloc: Global, setup: &Setup) -> Result<(Setup, State), AllocError>
    requires { setup_refusal setup.now ≡ None }
    ensures setup { IfOk result (λ r. r.0 ≡ setup.now) }
    ensures state { IfOk result (λ r. r.1 ≡ start setup.now) }
{
    let setup = setup.copy(alloc)?;
    match State::new(alloc, &setup) {
        Ok(state) => Ok((setup, state)),
        Err(_) => Err(AllocError),
    }
}

// Creates a seat for each actor, each with one part of the ledger.
fn seats_of<L: Ledger>(
    alloc: Global,
    rest: &mut Share<L>,
    count: u32,
) -> Result<Vec<Seat<L>>, AllocError>
    requires parts { rest.old.parts ≡ count }
    requires amount { rest.old.amount ≡ 0 }
    ensures parts { OnOk result ((rest.new.parts ≡ 0) × (rest.new.amount ≡ 0)) }
    ensures count { IfOk result (λ seats. vec_len seats ≡ count) }
    ensures order { IfOk result (λ seats. InOrder seats.items) }
    ensures no_receipts { IfOk result (λ seats. All (λ s. s.receipts ≡ []) seats.items) }
{
    let mut seats = Vec::new(alloc);
    for actor in 0..count {
        let share = rest.split_off(1, 0);
        seats.push(seat_of(alloc, actor, share))?;
    }
    Ok(seats)
}

// Creates a seat without receipts.
fn seat_of<L: Ledger>(alloc: Global, actor: u32, share: Share<L>) -> Seat<L>
    requires parts { share.parts ≡ 1 }
    requires amount { share.amount ≡ 0 }
    ensures actor { result.actor ≡ actor }
    ensures receipts { result.receipts ≡ [] }
{
    Seat {
        actor,
        receipts: Vec::new(alloc),
        share,
    }
}
