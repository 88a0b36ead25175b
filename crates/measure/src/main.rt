//! Builds large runs in process, and times walks through them in both directions. Counts go to
//! standard output, times to standard error.
#![tactic(auto)]

mod draft;
mod figures;
mod load;
mod plan;

use draft::Draft;
use figures::Figures;
use inverse_log::Walker;
use load::fill;
use machine::Event;
use places::{Place, Value};
use plan::{Plan, WORDS, plan_of};
use std::process::ExitCode;
use std::time::{Clock, Instant};
use std::{env, io};

/// The number of jumps.
const JUMPS: usize = 1000;

/// The multiplier and increment of Knuth's 64-bit linear congruential generator.
const KNUTH: (u64, u64) = (6364136223846793005, 1442695040888963407);

// Reports a number of events, their time in microseconds, and the rate on standard error.
fn report(rt: &impl Eprint, what: &str, events: usize, micros: u128) -> io::Result<()> {
    let rate = events as u128 * 1000000 / micros.max(1);
    eprintln!(rt; "{what}: {events} in {micros} us, {rate} a second")
}

fn go(walker: &mut Walker, moment: usize) -> io::Result<()> {
    match walker.goto(moment) {
        Ok(()) => Ok(()),
        Err(_) => Err(io::Error::other("the run can't be walked")),
    }
}

// Returns the time of a jump to a moment, in microseconds. `bench/steps` counts its instructions.
#[inline(never)]
fn timed(rt: &impl Clock, walker: &mut Walker, moment: usize) -> io::Result<u128> {
    let start = Instant::now(rt)?;
    go(walker, moment)?;
    Ok(start.elapsed(rt)?.as_micros())
}

// Jumps to pseudorandom moments, which depend only on the length of the run.
fn jump(rt: &(impl Eprint + Clock), walker: &mut Walker) -> io::Result<()> {
    let moments = (walker.len() as u64).saturating_add(1);
    let (mut seed, mut micros) = (0u64, 0u128);
    for _jump in 0..JUMPS {
        seed = seed.wrapping_mul(KNUTH.0).wrapping_add(KNUTH.1);
        let moment = ((seed >> 32) % moments) as usize;
        micros = micros.saturating_add(timed(rt, walker, moment)?);
    }
    report(rt, "jumps", JUMPS, micros)
}

// Walks the last events forward and back, `rounds` times.
fn walk_last(
    rt: &(impl Eprint + Clock),
    walker: &mut Walker,
    (last, rounds): (usize, usize),
) -> io::Result<()> {
    let end = walker.len();
    let start = end.saturating_sub(last);
    go(walker, start)?;
    let (mut on, mut back) = (0u128, 0u128);
    for _round in 0..rounds {
        on = on.saturating_add(timed(rt, walker, end)?);
        back = back.saturating_add(timed(rt, walker, start)?);
    }
    let events = rounds.saturating_mul(end - start);
    report(rt, "events forward", events, on)?;
    report(rt, "events back", events, back)
}

// Adds the events, and then walks as the plan says. Adding runs each event, stores its undo record,
// and undoes it.
fn walk(
    rt: &(impl Print + Eprint + Clock),
    walker: &mut Walker,
    plan: Plan,
    events: &[Event],
) -> io::Result<()> {
    let start = Instant::now(rt)?;
    if walker.extend(events).is_err() {
        return Err(io::Error::other("the events can't be added"));
    }
    let micros = start.elapsed(rt)?.as_micros();
    report(rt, "events added", events.len(), micros)?;
    match plan.rounds() {
        None => jump(rt, walker)?,
        Some(rounds) => walk_last(rt, walker, rounds)?,
    }
    print_figures(rt, walker)
}

// Prints sums over all records, and the number of completed requests without TIMEOUTs. For the last
// record, it also prints how many old values differ after the step, and after its undo.
fn print_figures(rt: &(impl Print + Eprint), walker: &mut Walker) -> io::Result<()> {
    let end = walker.len();
    let from = end.saturating_sub(1);
    go(walker, end)?;
    walker.back();
    let undone = Figures::new(walker, from).changed;
    go(walker, end)?;
    print_sums(rt, walker)?;
    let last = Figures::new(walker, from);
    let (named, changed) = (last.places, last.changed);
    println!(rt; "the last step named {named}, and changed {changed}")?;
    println!(rt; "differ once undone {undone}")?;
    if let Some(Value::Number(counted)) = walker.state().value(Place::Counted) {
        println!(rt; "counted {counted}")?;
    }
    Ok(())
}

fn print_sums(rt: &(impl Print + Eprint), walker: &Walker) -> io::Result<()> {
    let (end, all) = (walker.len(), Figures::new(walker, 0));
    let each = all.kept / end.max(1);
    eprintln!(rt; "records keep {} bytes, {each} an event", all.kept)?;
    println!(rt; "events {end}, walked {}", walker.walked())?;
    println!(rt; "named {} places, {} of them bytes", all.places, all.bytes)
}

// For jumps, the walker stores a checkpoint at every 1,024th moment. Otherwise it stores only the
// start, and walks back event by event, however far.
fn start(rt: &(impl Print + Eprint + Clock), plan: Plan, draft: &mut Draft) -> io::Result<()> {
    fill(draft, plan)?;
    draft.end()?;
    let (every, window) = match plan.rounds() {
        None => (1024, 256),
        Some(_) => (u32::MAX, u32::MAX),
    };
    match Walker::with(draft.alloc, &draft.setup, every, window) {
        Ok(mut walker) => walk(rt, &mut walker, plan, &draft.events),
        Err(_) => Err(io::Error::other("the setup has no start")),
    }
}

// Runs the plan in the arguments. The exit status is 2 if they are invalid.
fn run(rt: &(impl Print + Eprint + Clock + AllocGlobal), words: &[String]) -> io::Result<ExitCode> {
    let Some(plan) = plan_of(words) else {
        eprintln!(rt; "{WORDS}")?;
        return Ok(ExitCode::from(2));
    };
    let mut draft = Draft::new(rt.alloc());
    start(rt, plan, &mut draft)?;
    Ok(ExitCode::SUCCESS)
}

fn main(rt: HostRuntime) -> io::Result<ExitCode> {
    let words: Vec<String> = env::args(&rt)?.collect(rt.alloc())?;
    run(&rt, &words)
}
