//! Calls of a walker.

use crate::plan::Call;
use crate::situation::{Answer, Given, Situation, arm, disarm, missing, print_answer, try_call};
use crate::summing::Sum;
use inverse_log::{ExtendRefusal, WalkRefusal, Walker};
use machine::{Event, Refusal};
use places::Place;
use std::alloc::AllocError;
use std::io;
use watches::{Stop, Watches, cont, rcont};

/// The walker stores a checkpoint at each multiple of `EVERY`. It goes back up to `WINDOW` events
/// by single steps.
const EVERY: u32 = 4;

const WINDOW: u32 = 2;

/// A walker, and a watch on the counter of the first object.
#[derive(Drop)]
struct Walking<'a> {
    given: &'a Given<'a>,
    walker: &'a mut Walker,
    watches: &'a Watches,
}

/// Makes a call of a walker.
pub fn try_walking(rt: &(impl Print + Eprint), given: &Given<'_>) -> io::Result<()> {
    let mut walker = walker_at(given).ok_or_else(missing)?;
    try_over(rt, given, &mut walker)
}

fn try_over(rt: &(impl Print + Eprint), given: &Given<'_>, walker: &mut Walker) -> io::Result<()> {
    if given.plan.call == Call::Unwind {
        return unwind(rt, given, walker);
    }
    let mut watches = Watches::new(given.alloc);
    watches.watch(Place::EventCount(0))?;
    let mut walking = Walking {
        given,
        walker,
        watches: &watches,
    };
    try_call(rt, &mut walking, given.plan.number)
}

// Returns a walker over the first events if the call adds more, and otherwise over all of them.
fn walker_at(given: &Given<'_>) -> Option<Walker> {
    let mut walker = Walker::with(given.alloc, given.script.setup(), EVERY, WINDOW).ok()?;
    lead(&mut walker, given)?;
    Some(walker)
}

fn lead(walker: &mut Walker, given: &Given<'_>) -> Option<()> {
    let (from, to) = (given.plan.from, given.plan.to);
    if given.plan.call == Call::Extend {
        walker.extend(given.first(from)).ok()?;
        walker.goto(to).ok()
    } else {
        walker.extend(given.script.schedule()).ok()?;
        walker.goto(from).ok()
    }
}

impl Situation for Walking<'_> {
    fn call(&mut self) -> Answer {
        match self.given.plan.call {
            Call::Extend => extend(self.walker, self.given.rest()),
            Call::Goto => moved(self.walker.goto(self.given.plan.to)),
            Call::MoveTo => moved(self.walker.move_to(self.given.plan.to)),
            Call::LastState => match self.walker.last_state() {
                Ok(state) => Ok(state.clock()),
                Err(_) => Err((1, 0)),
            },
            Call::On => self.walker.on().map(u64::from).map_err(|_| (1, 0)),
            Call::Back => Ok(u64::from(self.walker.back())),
            Call::Rcont => stopped(rcont(self.walker, self.watches)),
            _ => stopped(cont(self.walker, self.watches)),
        }
    }

    fn sums(&mut self) -> Result<(Sum, Sum), AllocError> {
        let mut rest = Sum::new();
        rest.add_numbers(&[self.walker.at() as u64, self.walker.walked()]);
        rest.add_events(self.given.alloc, self.walker.events())?;
        Ok((
            Sum::from_state(self.walker.setup(), self.walker.state()),
            rest,
        ))
    }
}

// An event that fails because of memory has the error number 2, and its index as the detail.
fn extend(walker: &mut Walker, events: &[Event]) -> Answer {
    match walker.extend(events) {
        Ok(()) => Ok(0),
        Err(ExtendRefusal::Refused(index, Refusal::Memory)) => Err((2, u64::from(index))),
        Err(refusal) => Err((refusal.number().saturating_add(100), 0)),
    }
}

fn moved(jump: Result<(), WalkRefusal>) -> Answer {
    match jump {
        Ok(()) => Ok(0),
        Err(refusal) => Err((refusal as u32, 0)),
    }
}

// Returns the moment of a changed watch, or 1,000,000 more for that of a break.
fn stopped(stop: Result<Stop, AllocError>) -> Answer {
    match stop {
        Ok(Stop::Change(moment)) => Ok(moment as u64),
        Ok(Stop::Met(moment)) => Ok((moment as u64).saturating_add(1000000)),
        Ok(Stop::Start) => Ok(2000000),
        Ok(Stop::End) => Ok(3000000),
        Err(_) => Err((1, 0)),
    }
}

// Undoes all events, the last first, with an allocation failure injected.
fn unwind(rt: &(impl Print + Eprint), given: &Given<'_>, walker: &Walker) -> io::Result<()> {
    if walker.at() < walker.len() {
        return Err(missing());
    }
    let mut state = walker.state().copy(given.alloc)?;
    let armed = arm(rt, given.plan.number);
    state.unwind(walker.records());
    armed.and(disarm(rt))?;
    let sums = (Sum::from_state(walker.setup(), &state), Sum::new());
    print_answer(rt, Ok(walker.len() as u64), sums)
}
