//! How many steps searches backwards make.

use crate::tests::check;
use crate::tests::starting::{TWO_REQUESTS, walker_of};
use inverse_log::Walker;
use machine::Event;
use places::Place;
use std::alloc::{AllocError, Global};
use std::test::Fail;
use watches::{Stop, Watches, rcont};

/// A write to an eventfd, and a read from it.
const COUNTER_ADDED_AND_READ: &str =
    r#"{"entries":8,"memory":[[0,"0500000000000000"]],"objects":[{"name":"e","eventfd":0}],"fds":["e"],"threads":[[["put",0,{"op":23,"fd":3,"addr":0,"len":8,"ud":1}],["push",0],["put",1,{"op":22,"fd":3,"addr":8,"len":8,"ud":2}],["push",1],["enter",2,0,0]]],"schedule":[]}"#;

// Creates a watch of the eventfd's counter.
fn counter_watched(alloc: Global) -> Result<Watches, AllocError> {
    let mut watches = Watches::new(alloc);
    watches.watch(Place::EventCount(0))?;
    Ok(watches)
}

// Runs the two requests and forty ticks, and moves to moment 49.
fn walk_after_ticks(walker: &mut Walker) -> Result<(), Fail> {
    walker.extend(&TWO_REQUESTS)?;
    walker.extend(&[Event::Tick(1); 40])?;
    walker.goto(49)?;
    Ok(())
}

// Returns whether a search backwards ends at a stop, and makes this number of steps.
fn is_found(walker: &mut Walker, watches: &Watches, stop: Stop, steps: u64) -> Result<bool, Fail> {
    let before = walker.walked();
    let found = rcont(walker, watches)?;
    Ok(found == stop && walker.walked().wrapping_sub(before) == steps)
}

// The events 6 and 8 change the counter. A search makes only the steps of its jump.
fn are_found(walker: &mut Walker, watches: &Watches) -> Result<bool, Fail> {
    walk_after_ticks(walker)?;
    Ok(
        is_found(walker, watches, Stop::Change(8), 41)?
            && is_found(walker, watches, Stop::Change(6), 2)?
            && is_found(walker, watches, Stop::Start, 6)?,
    )
}

#[test]
fn searches_back_make_few_steps(rt: HostRuntime) -> Result<(), Fail> {
    let watches = counter_watched(rt.alloc())?;
    let mut walker = walker_of(rt.alloc(), COUNTER_ADDED_AND_READ)?;
    let found = are_found(&mut walker, &watches)?;
    check(&rt, found);
    Ok(())
}
