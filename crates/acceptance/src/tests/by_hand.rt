//! A live run, made step by step on one thread.
ghost use Rattle.std.specs.Prelude.{◌≡◌, ◌<◌, ◌≤◌, None, length};
ghost use Rattle.scenario.specs.Setups.{setup_refusal};
ghost use Rattle.live_runner.specs.Actors.{actors};
ghost use Rattle.live_runner.specs.History.{InOrder};

use crate::tests::sessions::answers;
use crate::tests::starting::REQUEST_AND_STEP;
use crate::tests::{ONE_NOP, check};
use debug_server::Session;
use entries::Choice;
use live_runner::{
    AlwaysOpen, Closed, Live, LiveRefusal, Receipt, Seat, Torn, actors, finish, workers_of,
};
use machine::{Event, Refusal, Setup};
use script::read_script;
use std::alloc::Global;
use std::marker::Brand;
use std::sync::ledger::{Blank, Ledger};

// Attempts an event with an actor's seat.
fn attempt<L: Ledger>(
    live: &mut Live<L>,
    seats: &mut Vec<Seat<L>>,
    actor: usize,
    event: Event,
) -> Result<Receipt, LiveRefusal>
    requires there { actor < length seats.old.items }
    requires order { InOrder seats.old.items }
    ensures len { length seats.new.items ≡ length seats.old.items }
    ensures actors { live.new.actors ≡ live.old.actors }
    ensures order { InOrder seats.new.items }
{
    live.attempt(&mut seats[actor], event)
}

// Returns whether an actor is offered this event, and its attempt succeeds.
fn does<L: Ledger>(live: &mut Live<L>, seats: &mut Vec<Seat<L>>, actor: usize, event: Event) -> bool
    requires there { actor < length seats.old.items }
    requires order { InOrder seats.old.items }
    requires few { actor < 2 }
    ensures len { length seats.new.items ≡ length seats.old.items }
    ensures actors { live.new.actors ≡ live.old.actors }
    ensures order { InOrder seats.new.items }
{
    live.offer(actor as u32) == Some(event) && attempt(live, seats, actor, event).is_ok()
}

// The thread makes three steps, and then has nothing to reap.
fn submits<L: Ledger>(live: &mut Live<L>, seats: &mut Vec<Seat<L>>) -> bool
    requires there { length seats.old.items ≡ 2 }
    requires order { InOrder seats.old.items }
    ensures len { length seats.new.items ≡ length seats.old.items }
    ensures actors { live.new.actors ≡ live.old.actors }
    ensures order { InOrder seats.new.items }
{
    let step = Event::Step(0);
    does(live, seats, 0, step)
        && does(live, seats, 0, step)
        && does(live, seats, 0, step)
        && live.offer(0) == Some(step)
        && matches!(
            attempt(live, seats, 0, step),
            Err(LiveRefusal::Step(Refusal::NothingToReap))
        )
}

// Events that the actor may not make are refused, and so is a request that doesn't exist.
fn refuses<L: Ledger>(live: &mut Live<L>, seats: &mut Vec<Seat<L>>) -> bool
    requires there { length seats.old.items ≡ 2 }
    requires order { InOrder seats.old.items }
    ensures len { length seats.new.items ≡ length seats.old.items }
    ensures actors { live.new.actors ≡ live.old.actors }
    ensures order { InOrder seats.new.items }
{
    let tick = attempt(live, seats, 0, Event::Tick(1));
    let step = attempt(live, seats, 0, Event::Step(1));
    let issue = attempt(live, seats, 1, Event::Issue(9));
    matches!(tick, Err(LiveRefusal::NotYours))
        && matches!(step, Err(LiveRefusal::NotYours))
        && matches!(issue, Err(LiveRefusal::Step(Refusal::NoSuchRequest)))
}

// The kernel worker issues and finishes the request, and the thread reaps it.
fn ends<L: Ledger>(live: &mut Live<L>, seats: &mut Vec<Seat<L>>) -> bool
    requires there { length seats.old.items ≡ 2 }
    requires order { InOrder seats.old.items }
    ensures len { length seats.new.items ≡ length seats.old.items }
    ensures actors { live.new.actors ≡ live.old.actors }
    ensures order { InOrder seats.new.items }
{
    does(live, seats, 1, Event::Issue(0))
        && does(live, seats, 1, Event::Finish(0, Choice::Full))
        && does(live, seats, 0, Event::Step(0))
        && live.offer(0).is_none()
        && live.offer(1).is_none()
}

// Both actors make the events that they are offered, and no others.
fn acts<L: Ledger>(live: &mut Live<L>, seats: &mut Vec<Seat<L>>) -> bool
    requires there { length seats.old.items ≡ 2 }
    requires order { InOrder seats.old.items }
    ensures len { length seats.new.items ≡ length seats.old.items }
    ensures actors { live.new.actors ≡ live.old.actors }
    ensures order { InOrder seats.new.items }
{
    submits(live, seats) && refuses(live, seats) && ends(live, seats)
}

// Closes a run.
fn closed_of<L: Ledger>(
    alloc: Global,
    live: Live<L>,
    seats: Vec<Seat<L>>,
) -> Option<Result<Closed, Torn>>
    requires actors { length seats.items ≡ live.actors }
    requires order { InOrder seats.items }
{
    let room = Vec::with_capacity(alloc, seats.len()).ok()?;
    Some(finish(live, workers_of(seats, &AlwaysOpen, room)))
}

// Returns whether a session over the events is at the end of six.
fn ends_at_six(alloc: Global, setup: &Setup, events: &[Event]) -> bool
    requires starts { setup_refusal setup.now ≡ None }
    requires most { length events.now ≤ 1048576 }
{
    match Session::of(alloc, setup, events) {
        Ok(mut session) => answers(&mut session, "where", "at 6 of 6\n"),
        Err(_) => false,
    }
}

// Returns whether a run has exactly the events of the example, and a session over them starts at
// their end.
fn has_events<L: Ledger>(alloc: Global, live: &Live<L>) -> bool {
    match live.events() {
        Ok(events) => {
            events.as_slice() == REQUEST_AND_STEP.as_slice()
                && ends_at_six(alloc, live.setup(), &events)
        }
        Err(_) => false,
    }
}

// Makes a run step by step, and closes it. Returns `None` if a step differs from the expected one.
fn by_hand<L: Ledger>(alloc: Global, blank: Blank, setup: &Setup) -> Option<Closed>
    requires name { blank.name ≡ L.name }
    requires parts { blank.parts ≡ L.parts }
    requires two { blank.parts ≡ 2 }
    requires all { actors setup.now 1 ≡ 2 }
{
    let Ok((mut live, mut seats)) = Live::<L>::open(alloc, blank, setup, 1) else {
        return None;
    };
    let acted = acts(&mut live, &mut seats);
    let is_right = acted && has_events(alloc, &live);
    match closed_of(alloc, live, seats) {
        Some(Ok(closed)) if is_right => Some(closed),
        _ => None,
    }
}

// Does the same with a new ledger.
fn run_by_hand(alloc: Global, setup: &Setup) -> Option<Closed>
    requires { actors setup.now 1 ≡ 2 }
{
    by_hand::<Brand>(alloc, Blank::new(2), setup)
}

fn receipt(actor: u32, moment: u32, event: Event) -> Receipt {
    Receipt {
        actor,
        moment,
        event,
    }
}

// Returns whether an actor received exactly these receipts, and each can be redeemed.
fn has_received(closed: &Closed, actor: u32, receipts: &[Receipt]) -> bool
    requires { actor < closed.now.actors }
{
    closed.receipts(actor) == receipts
        && receipts
            .iter()
            .all(|receipt| closed.redeem(receipt).is_some())
}

// Checks the receipts of the thread and of the kernel worker.
fn has_receipts(closed: &Closed) -> bool
    requires { closed.now.actors ≡ 2 }
{
    let step = Event::Step(0);
    let submitted = [
        receipt(0, 0, step),
        receipt(0, 1, step),
        receipt(0, 2, step),
        receipt(0, 5, step),
    ];
    let ended = [
        receipt(1, 3, Event::Issue(0)),
        receipt(1, 4, Event::Finish(0, Choice::Full)),
    ];
    has_received(closed, 0, &submitted) && has_received(closed, 1, &ended)
}

// Returns whether receipts with another event or another actor are refused.
fn redeems_none(closed: &Closed) -> bool {
    let other_event = receipt(1, 3, Event::Issue(1));
    let other_actor = receipt(0, 3, Event::Issue(0));
    closed.redeem(&other_event).is_none() && closed.redeem(&other_actor).is_none()
}

// Returns whether both actors of a setup act as expected, and receive the expected receipts.
fn is_right(alloc: Global, setup: &Setup) -> bool {
    if actors(setup, 1) != 2 {
        return false;
    }
    match run_by_hand(alloc, setup) {
        Some(closed) => closed.actors() == 2 && has_receipts(&closed) && redeems_none(&closed),
        None => false,
    }
}

#[test]
fn actors_act_by_hand(rt: HostRuntime) {
    let right = match read_script(rt.alloc(), ONE_NOP.as_bytes()) {
        Ok(script) => is_right(rt.alloc(), script.setup()),
        Err(_) => false,
    };
    check(&rt, right);
}

// Alters the first receipt of an actor.
fn spoil<L: Ledger>(seats: &mut Vec<Seat<L>>, actor: usize)
    requires there { actor < length seats.old.items }
    requires order { InOrder seats.old.items }
    ensures len { length seats.new.items ≡ length seats.old.items }
    ensures order { InOrder seats.new.items }
{
    if !seats[actor].receipts().is_empty() {
        seats[actor].alter(0, Event::Tick(7));
    }
}

// Alters a receipt, closes the run, and returns the actor that is reported.
fn torn<L: Ledger>(alloc: Global, blank: Blank, setup: &Setup) -> Option<u32>
    requires name { blank.name ≡ L.name }
    requires parts { blank.parts ≡ L.parts }
    requires two { blank.parts ≡ 2 }
    requires all { actors setup.now 1 ≡ 2 }
{
    let Ok((mut live, mut seats)) = Live::<L>::open(alloc, blank, setup, 1) else {
        return None;
    };
    let _ = does(&mut live, &mut seats, 0, Event::Step(0));
    spoil(&mut seats, 0);
    match closed_of(alloc, live, seats) {
        Some(Err(Torn(actor))) => Some(actor),
        _ => None,
    }
}

fn torn_by_hand(alloc: Global, setup: &Setup) -> Option<u32>
    requires { actors setup.now 1 ≡ 2 }
{
    torn::<Brand>(alloc, Blank::new(2), setup)
}

fn is_torn(alloc: Global, setup: &Setup) -> bool {
    actors(setup, 1) == 2 && torn_by_hand(alloc, setup) == Some(0)
}

#[test]
fn an_altered_receipt_is_torn(rt: HostRuntime) {
    let torn = match read_script(rt.alloc(), ONE_NOP.as_bytes()) {
        Ok(script) => is_torn(rt.alloc(), script.setup()),
        Err(_) => false,
    };
    check(&rt, torn);
}
