//! Calls of a state.

use crate::plan::Call;
use crate::situation::{Answer, Given, Situation, missing, try_call};
use crate::summing::Sum;
use machine::{Event, State};
use std::alloc::AllocError;
use std::io;

/// A state, and the checksum of what the call returned.
#[derive(Drop)]
struct Stepping<'a> {
    given: &'a Given<'a>,
    state: &'a mut State,
    made: Sum,
}

/// Makes a call of the state after the first events.
pub fn try_stepping(rt: &(impl Print + Eprint), given: &Given<'_>) -> io::Result<()> {
    let mut state = state_at(given).ok_or_else(missing)?;
    let (state, made) = (&mut state, Sum::new());
    try_call(rt, &mut Stepping { given, state, made }, given.plan.number)
}

fn state_at(given: &Given<'_>) -> Option<State> {
    let mut state = State::new(given.alloc, given.script.setup()).ok()?;
    run_first(&mut state, given.first(given.plan.from))?;
    Some(state)
}

fn run_first(state: &mut State, events: &[Event]) -> Option<()> {
    for event in events {
        state.step(*event).ok()?;
    }
    Some(())
}

impl Situation for Stepping<'_> {
    fn call(&mut self) -> Answer {
        match self.given.plan.call {
            Call::Step => self.step(),
            Call::Start => {
                let made = State::new(self.given.alloc, self.given.script.setup());
                self.keep(made.map_err(|refusal| refusal as u32))
            }
            Call::Copy => {
                let made = self.state.copy(self.given.alloc);
                self.keep(made.map_err(|_| 1))
            }
            Call::Snapshot => {
                let made = self.restored();
                self.keep(made.map_err(|_| 1))
            }
            _ => self.look(),
        }
    }

    fn sums(&mut self) -> Result<(Sum, Sum), AllocError> {
        Ok((
            Sum::from_state(self.given.script.setup(), self.state),
            self.made,
        ))
    }
}

impl Stepping<'_> {
    fn step(&mut self) -> Answer {
        match self.state.step(self.given.event()) {
            Ok(record) => {
                self.made = Sum::of_record(&record);
                Ok(0)
            }
            Err(refusal) => Err((refusal as u32, 0)),
        }
    }

    // Returns the state once more: a copy that shares its pages, restored in the room of another.
    fn restored(&mut self) -> Result<State, AllocError> {
        let alloc = self.given.alloc;
        let copy = self.state.snapshot(alloc)?;
        let room = copy.to_state(alloc)?;
        copy.restore(alloc, room)
    }

    fn keep(&mut self, made: Result<State, u32>) -> Answer {
        match made {
            Ok(state) => {
                self.made = Sum::from_state(self.given.script.setup(), &state);
                Ok(0)
            }
            Err(number) => Err((number, 0)),
        }
    }

    // Reads each place, and the reason for which the event is refused.
    fn look(&self) -> Answer {
        let sum = Sum::from_state(self.given.script.setup(), self.state);
        match self.state.refuses(self.given.event()) {
            None => Ok(sum.values as u64),
            Some(refusal) => Err((refusal as u32, 0)),
        }
    }
}
