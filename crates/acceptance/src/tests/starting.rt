//! Small setups, states, walkers and lists of events that the tests start from.

use entries::Choice;
use inverse_log::Walker;
use machine::{Event, Setup, State};
use places::Items;
use script::{Script, read_script};
use std::alloc::Global;
use std::test::Fail;

/// The only request of a thread, from its Put to its completion, and one more step of the thread.
pub const REQUEST_AND_STEP: [Event; 6] = [
    Event::Step(0),
    Event::Step(0),
    Event::Step(0),
    Event::Issue(0),
    Event::Finish(0, Choice::Full),
    Event::Step(0),
];

/// Two requests of a thread, which are submitted together and completed one after the other.
pub const TWO_REQUESTS: [Event; 9] = [
    Event::Step(0),
    Event::Step(0),
    Event::Step(0),
    Event::Step(0),
    Event::Step(0),
    Event::Issue(0),
    Event::Finish(0, Choice::Full),
    Event::Issue(1),
    Event::Finish(1, Choice::Full),
];

/// Builds a setup without threads.
pub fn quiet(alloc: Global) -> Setup {
    Setup {
        entries: 1,
        cq: None,
        sqpoll: false,
        submit_all: false,
        base: 0,
        memory: Items::new(alloc),
        objects: Items::new(alloc),
        fds: Items::new(alloc),
        threads: Items::new(alloc),
    }
}

fn state_over(alloc: Global, script: &Script) -> Result<State, Fail> {
    Ok(State::new(alloc, script.setup())?)
}

/// Builds the state at the start of a script.
pub fn state_of(alloc: Global, text: &str) -> Result<State, Fail> {
    let script = read_script(alloc, text.as_bytes())?;
    state_over(alloc, &script)
}

fn walker_over(alloc: Global, script: &Script) -> Result<Walker, Fail> {
    Ok(Walker::new(alloc, script.setup())?)
}

/// Builds a walker at the start of a script.
pub fn walker_of(alloc: Global, text: &str) -> Result<Walker, Fail> {
    let script = read_script(alloc, text.as_bytes())?;
    walker_over(alloc, &script)
}
