//! How many steps jumps make.

use crate::tests::check;
use crate::tests::starting::quiet;
use inverse_log::{WalkRefusal, Walker};
use machine::{Event, SetupRefusal};
use places::{Place, Value};
use std::alloc::Global;
use std::test::Fail;

/// An event that advances the clock by one.
const TICK: Event = Event::Tick(1);

/// The most events that a jump undoes one by one, and the parts in which ticks are added. Then
/// jumps: the moment, and the steps that all jumps so far have made. The walker has a checkpoint
/// every four events.
const RUNS: [(u32, &[&[Event]], &[(usize, u64)]); 3] = [
    (
        2,
        &[&[TICK; 10]],
        &[(10, 2), (9, 3), (5, 4), (7, 6), (0, 6), (8, 6), (8, 6)],
    ),
    (0, &[&[TICK; 3], &[TICK; 6]], &[(9, 1), (6, 3), (3, 6)]),
    (256, &[&[TICK; 10]], &[(7, 3), (5, 5), (6, 6)]),
];

fn walker_with(alloc: Global, window: u32) -> Result<Walker, SetupRefusal> {
    Walker::with(alloc, &quiet(alloc), 4, window)
}

fn clock(walker: &Walker) -> Option<u64> {
    match walker.state().value(Place::Clock) {
        Some(Value::Number(clock)) => Some(clock),
        _ => None,
    }
}

// Returns whether a jump reaches its moment, and the jumps so far have made this number of steps.
fn is_jump(walker: &mut Walker, moment: usize, walked: u64) -> Result<bool, Fail> {
    walker.goto(moment)?;
    Ok(walker.walked() == walked && clock(walker) == Some(moment as u64))
}

// Returns whether single steps and a refused jump are not counted.
fn is_free(walker: &mut Walker) -> Result<bool, Fail> {
    let (at, len, walked) = (walker.at(), walker.len(), walker.walked());
    let moved = walker.back() && walker.on()?;
    let refused = matches!(walker.goto(len + 1), Err(WalkRefusal::NoSuchMoment));
    Ok(moved && refused && walker.at() == at && walker.walked() == walked)
}

fn extend_by(walker: &mut Walker, parts: &[&[Event]]) -> Result<(), Fail> {
    for part in parts {
        walker.extend(part)?;
    }
    Ok(())
}

fn are_jumps(walker: &mut Walker, jumps: &[(usize, u64)]) -> Result<bool, Fail> {
    for (moment, walked) in jumps {
        if !is_jump(walker, *moment, *walked)? {
            return Ok(false);
        }
    }
    is_free(walker)
}

fn is_run(
    alloc: Global,
    window: u32,
    parts: &[&[Event]],
    jumps: &[(usize, u64)],
) -> Result<bool, Fail> {
    let mut walker = walker_with(alloc, window)?;
    extend_by(&mut walker, parts)?;
    are_jumps(&mut walker, jumps)
}

#[test]
fn jumps_count_their_steps(rt: HostRuntime) -> Result<(), Fail> {
    for (window, parts, jumps) in RUNS {
        let counted = is_run(rt.alloc(), window, parts, jumps)?;
        check(&rt, counted);
    }
    Ok(())
}
