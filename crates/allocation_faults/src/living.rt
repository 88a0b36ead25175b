//! Calls of a live run, whose actors are driven by hand.
ghost use Rattle.std.specs.Prelude.{◌≡◌, length};
ghost use Rattle.live_runner.specs.Actors.{actors};
ghost use Rattle.live_runner.specs.History.{InOrder};

use crate::plan::Call;
use crate::situation::{Answer, Given, Situation, arm, disarm, missing, print_answer, try_call};
use crate::summing::Sum;
use live_runner::{
    AlwaysOpen, Closed, Live, LiveRefusal, Receipt, Seat, Worker, actors, finish, workers_of,
};
use machine::{Event, Setup};
use std::alloc::AllocError;
use std::io;
use std::marker::Brand;
use std::sync::ledger::{Blank, Ledger};

/// The number of kernel workers.
const KERNEL: u32 = 1;

/// Makes a call of a live run after the first events.
pub fn try_live<R: Print + Eprint>(rt: &R, given: &Given<'_>) -> io::Result<()> {
    let setup = given.script.setup();
    let blank = Blank::new(actors(setup, KERNEL) as u64);
    drive::<Brand, R>(rt, given, setup, blank)
}

fn drive<L: Ledger, R: Print + Eprint>(
    rt: &R,
    given: &Given<'_>,
    setup: &Setup,
    blank: Blank,
) -> io::Result<()>
    requires name { blank.name ≡ L.name }
    requires parts { blank.parts ≡ L.parts }
    requires all { blank.parts ≡ actors setup.now 1 }
{
    match Live::<L>::open(given.alloc, blank, setup, KERNEL) {
        Ok((mut live, mut seats)) => {
            act_first(&mut live, &mut seats, given.first(given.plan.from));
            if given.plan.call == Call::Finish {
                try_finish(rt, given, live, seats)
            } else {
                try_next(rt, given, &mut live, &mut seats)
            }
        }
        Err(_) => Err(missing()),
    }
}

// Runs events, each through the seat of its actor.
fn act_first<L: Ledger>(live: &mut Live<L>, seats: &mut Vec<Seat<L>>, events: &[Event])
    requires order { InOrder seats.old.items }
    ensures len { length seats.new.items ≡ length seats.old.items }
    ensures actors { live.new.actors ≡ live.old.actors }
    ensures order { InOrder seats.new.items }
{
    for event in events {
        let actor = actor_of(live.setup(), *event);
        if actor < seats.len() {
            let _ = live.attempt(&mut seats[actor], *event);
        }
    }
}

// Returns the actor of an event. The threads have the first numbers, then the poller if there is
// one, then the kernel worker.
fn actor_of(setup: &Setup, event: Event) -> usize {
    let threads = setup.threads.len();
    match event {
        Event::Step(thread) => thread as usize,
        Event::Take(_) | Event::Sleep => threads,
        _ => threads.saturating_add(usize::from(setup.sqpoll)),
    }
}

fn try_next<L: Ledger>(
    rt: &(impl Print + Eprint),
    given: &Given<'_>,
    live: &mut Live<L>,
    seats: &mut [Seat<L>],
) -> io::Result<()> {
    match seats.get_mut(actor_of(live.setup(), given.event())) {
        Some(seat) => try_call(rt, &mut Living { given, live, seat }, given.plan.number),
        None => Err(missing()),
    }
}

/// A live run, and the seat of the next event's actor.
#[derive(Drop)]
struct Living<'a, L: Ledger> {
    given: &'a Given<'a>,
    live: &'a mut Live<L>,
    seat: &'a mut Seat<L>,
}

impl<L: Ledger> Situation for Living<'_, L> {
    // Returns the moment of the event, which for an offer has to be the offered one.
    fn call(&mut self) -> Answer {
        let event = self.given.event();
        match self.given.plan.call {
            Call::Attempt => answer_of(Some(self.live.attempt(self.seat, event))),
            Call::TakeOffer => answer_of(self.live.take_offer(self.seat)),
            _ if self.live.offer(self.seat.actor()) == Some(event) => {
                Ok(self.given.plan.from as u64)
            }
            _ => answer_of(None),
        }
    }

    fn sums(&mut self) -> Result<(Sum, Sum), AllocError> {
        let mut rest = Sum::new();
        rest.add_events(self.given.alloc, &self.live.events()?)?;
        for receipt in self.seat.receipts() {
            rest.add_numbers(&[u64::from(receipt.actor), u64::from(receipt.moment)]);
            rest.add_events(self.given.alloc, &[receipt.event])?;
        }
        Ok((Sum::from_state(self.live.setup(), self.live.state()), rest))
    }
}

fn answer_of(attempted: Option<Result<Receipt, LiveRefusal>>) -> Answer {
    match attempted {
        Some(Ok(receipt)) => Ok(u64::from(receipt.moment)),
        Some(Err(refusal)) => Err((refusal.number(), cause_of(refusal))),
        None => Err((100, 0)),
    }
}

// Returns the number of the refusal of a step, and 0 for another refusal.
fn cause_of(refusal: LiveRefusal) -> u64 {
    match refusal {
        LiveRefusal::Step(cause) => cause as u64,
        _ => 0,
    }
}

// Closes the run with an allocation failure injected: creates a worker for each seat, calls
// `finish`, and redeems the receipts.
fn try_finish<L: Ledger>(
    rt: &(impl Print + Eprint),
    given: &Given<'_>,
    live: Live<L>,
    seats: Vec<Seat<L>>,
) -> io::Result<()>
    requires actors { length seats.items ≡ live.actors }
    requires order { InOrder seats.items }
{
    let room: Vec<Worker<'_, L, AlwaysOpen>> = Vec::with_capacity(given.alloc, seats.len())?;
    let armed = arm(rt, given.plan.number);
    match finish(live, workers_of(seats, &AlwaysOpen, room)) {
        Ok(closed) => redeem_all(rt, &closed, armed),
        Err(_) => Err(missing()),
    }
}

fn redeem_all(
    rt: &(impl Print + Eprint),
    closed: &Closed,
    armed: io::Result<()>,
) -> io::Result<()> {
    let count = redeemed(closed);
    armed.and(disarm(rt))?;
    let sums = (Sum::from_state(closed.setup(), closed.state()), Sum::new());
    print_answer(rt, Ok(count), sums)
}

// Counts the receipts that are redeemed for their own events.
fn redeemed(closed: &Closed) -> u64 {
    let mut count = 0u64;
    for actor in 0..closed.actors() {
        for receipt in closed.receipts(actor) {
            let is_own = closed.redeem(receipt) == Some(receipt.event);
            count = count.saturating_add(u64::from(is_own));
        }
    }
    count
}
