//! Makes a call with an injected allocation failure, and then the same call again.

use crate::plan::Plan;
use crate::summing::Sum;
use machine::Event;
use script::Script;
use std::alloc::{AllocError, Global};
use std::io;

/// The inputs of a situation.
#[derive(Clone, Copy)]
pub struct Given<'a> {
    pub alloc: Global,
    pub plan: Plan<'a>,
    pub script: &'a Script,
    /// The lines that a session receives to inspect it, or that are served.
    pub lines: &'a [u8],
}

impl<'a> Given<'a> {
    /// Returns the first `count` events of the schedule, or all of them.
    pub fn first(&self, count: usize) -> &'a [Event] {
        let events = self.script.schedule();
        events.get(..count).unwrap_or(events)
    }

    /// Returns the events after the first `from` ones.
    pub fn rest(&self) -> &'a [Event] {
        self.script.schedule().get(self.plan.from..).unwrap_or(&[])
    }

    /// Returns the next event, or a tick if there is none.
    pub fn event(&self) -> Event {
        self.rest().first().copied().unwrap_or(Event::Tick(1))
    }
}

/// The result of a call: a number that it returned, or the number of its error and a detail. The
/// error number is 1 for a call that fails only because of memory.
pub type Answer = Result<u64, (u32, u64)>;

/// A call, and everything that it can change.
pub trait Situation {
    /// Makes the call.
    fn call(&mut self) -> Answer;

    /// Returns checksums of the state, and of everything else.
    fn sums(&mut self) -> Result<(Sum, Sum), AllocError>;
}

/// Makes a call with an injected allocation failure, and again if that fails. With the number 0,
/// only the latter call is made. Prints each result and the checksums after it.
pub fn try_call<S: Situation>(
    rt: &(impl Print + Eprint),
    subject: &mut S,
    number: u32,
) -> io::Result<()> {
    let answer = refused_call(rt, subject, number)?;
    print_answer(rt, answer, subject.sums()?)?;
    match answer {
        Ok(_) => Ok(()),
        Err(_) => print_answer(rt, subject.call(), subject.sums()?),
    }
}

fn refused_call<S: Situation>(
    rt: &impl Eprint,
    subject: &mut S,
    number: u32,
) -> io::Result<Answer> {
    if number == 0 {
        return Ok(Err((0, 0)));
    }
    arm(rt, number)?;
    let answer = subject.call();
    disarm(rt)?;
    Ok(answer)
}

/// Starts counting allocations. The one with this number fails.
pub fn arm(rt: &impl Eprint, number: u32) -> io::Result<()> {
    eprintln!(rt; "armed {number}")
}

/// Stops counting allocations.
pub fn disarm(rt: &impl Eprint) -> io::Result<()> {
    eprintln!(rt; "disarmed")
}

/// Prints a result and the checksums after it. The error number of a success is 0.
pub fn print_answer(rt: &impl Print, answer: Answer, (state, rest): (Sum, Sum)) -> io::Result<()> {
    let (number, more) = match answer {
        Ok(more) => (0, more),
        Err(refused) => refused,
    };
    println!(rt; "answer {number} {more}, state {state}, rest {rest}")
}

/// Returns the error for a call that can't be made.
pub fn missing() -> io::Error {
    io::Error::other("there is no such situation")
}
