//! Conditions that are findings if they last to the end, with the moment since when each holds.
ghost use Rattle.std.specs.Prelude.{◌≡◌, ◌++◌, map, IfOk, OnOk, flat_map};
ghost use Rattle.findings.specs.{Setup, reported_as, next_of, moved_by, next_after, AreNext, continued, advanced, of_rings, watched, fresh, numbers_below, of_lasting};

use crate::record::{Added, add_if};
use finding_kinds::{Finding, Kind, LastingKind};
use finding_rules::{Condition, Next, condition_holds, fault_if, is_idle, next_of};
use machine::{Event, Setup, State};
use std::alloc::{AllocError, Global};

/// A condition, and since which moment it has held; None if it doesn't hold.
#[derive(Clone, Copy)]
pub struct Watch {
    pub condition: Condition,
    /// The thread in question, or 0 for the rings.
    pub subject: u32,
    /// What the thread in question does next; of the rings, thread 0.
    pub next: Next,
    pub since: Option<u32>,
}

fn continued(holds: bool, since: Option<u32>, moment: u32) -> Option<u32>
    ensures { result ≡ continued holds since moment }
{
    match (holds, since) {
        (true, Some(began)) => Some(began),
        (true, None) => Some(moment),
        (false, _) => None,
    }
}

// Returns the thread that a step moved on, and what it does next, after the event.
fn moved_by(setup: &Setup, event: Event, state: &State) -> Option<(u32, Next)>
    ensures { result ≡ moved_by setup.now event state.now }
{
    match event {
        Event::Step(thread) => Some((thread, next_of(setup, state, thread))),
        _ => None,
    }
}

// Returns what the thread of a condition does next, after a step moved a thread on.
fn next_after(moved: Option<(u32, Next)>, watch: Watch) -> Next
    ensures { result ≡ next_after moved watch }
{
    match moved {
        Some((thread, next)) if thread == watch.subject => next,
        _ => watch.next,
    }
}

// Updates one condition for the next moment.
fn advanced(moved: Option<(u32, Next)>, state: &State, moment: u32, watch: Watch) -> Watch
    ensures { (s : Setup) → next_after moved watch ≡ next_of s state.now watch.subject →
        result ≡ advanced s state.now moment watch }
{
    let next = next_after(moved, watch);
    Watch {
        condition: watch.condition,
        subject: watch.subject,
        next,
        since: continued(
            condition_holds(watch.condition, state, watch.subject, next),
            watch.since,
            moment,
        ),
    }
}

/// Updates all conditions after an event, for the next moment. Costs a few instructions for each
/// condition, since an event changes what at most one thread does next.
pub(crate) fn advance(
    setup: &Setup,
    event: Event,
    state: &State,
    moment: u32,
    watches: &mut [Watch],
)
    requires { AreNext setup.now event state.now watches.old }
    ensures { watches.new ≡ map (advanced setup.now state.now moment) watches.old }
{
    let moved = moved_by(setup, event, state);
    for watch in watches.iter_mut() {
        *watch = advanced(moved, state, moment, *watch);
    }
}

fn begun(setup: &Setup, state: &State, watch: Watch) -> Watch
    ensures { result ≡ advanced setup.now state.now 0 watch }
{
    let next = next_of(setup, state, watch.subject);
    advanced(Some((watch.subject, next)), state, 0, watch)
}

/// Updates all conditions at the start of a run.
pub(crate) fn begin(setup: &Setup, state: &State, watches: &mut [Watch])
    ensures { watches.new ≡ map (advanced setup.now state.now 0) watches.old }
{
    for watch in watches.iter_mut() {
        *watch = begun(setup, state, *watch);
    }
}

fn fresh(condition: Condition, subject: u32) -> Watch
    ensures { result ≡ fresh condition subject }
{
    Watch {
        condition,
        subject,
        next: Next::Other,
        since: None,
    }
}

fn watches_of_rings(alloc: Global) -> Result<Vec<Watch>, AllocError>
    ensures { IfOk result (λ list. list.items ≡ of_rings) }
{
    let mut list = Vec::new(alloc);
    list.push(fresh(Condition::LostWakeUp, 0))?;
    list.push(fresh(Condition::NotTaken, 0))?;
    list.push(fresh(Condition::NotReaped, 0))?;
    Ok(list)
}

// Adds a condition of each thread.
fn add_of_threads(list: &mut Vec<Watch>, condition: Condition, threads: u32) -> Added
    ensures { OnOk result (list.new.items ≡
        list.old.items ++ map (fresh condition) (numbers_below threads)) }
{
    for thread in 0..threads {
        list.push(fresh(condition, thread))?;
    }
    Ok(())
}

/// Returns the conditions to watch for a setup: of its rings and of each thread.
pub(crate) fn watches_of(alloc: Global, setup: &Setup) -> Result<Vec<Watch>, AllocError>
    ensures { IfOk result (λ list. list.items ≡ watched setup.now) }
{
    let Ok(threads) = u32::try_from(setup.threads.as_slice().len()) else {
        return Err(AllocError);
    };
    let mut list = watches_of_rings(alloc)?;
    add_of_threads(&mut list, Condition::Waits, threads)?;
    add_of_threads(&mut list, Condition::Stuck, threads)?;
    Ok(list)
}

// Returns the finding that a condition is if it lasts to the end, from the state there. `over` says
// whether the run is over then.
fn reported_as(condition: Condition, over: bool, state: &State) -> Option<LastingKind>
    ensures { result ≡ reported_as condition over state.now }
{
    match (condition, over) {
        (Condition::Waits, _) => Some(LastingKind::Waits(fault_if(over && !is_idle(state)))),
        (Condition::LostWakeUp, _) => Some(LastingKind::LostWakeUp(fault_if(over))),
        (Condition::NotTaken, _) => Some(LastingKind::NotTaken(fault_if(over))),
        (Condition::NotReaped, _) => Some(LastingKind::NotReaped),
        (Condition::Stuck, true) => Some(LastingKind::Stuck),
        (Condition::Stuck, false) => None,
    }
}

// Adds a finding if the condition holds and is reported.
fn add_lasting(found: &mut Vec<Finding>, over: bool, state: &State, watch: &Watch) -> Added
    ensures { OnOk result (found.new.items ≡
        found.old.items ++ of_lasting over state.now watch.now) }
{
    let Some(moment) = watch.since else {
        return Ok(());
    };
    match reported_as(watch.condition, over, state) {
        Some(kind) => add_if(found, true, moment, Kind::Lasting(kind), watch.subject),
        None => Ok(()),
    }
}

/// Adds a finding for each condition that holds and is reported, from the state at the run's end.
/// `over` says whether the run is over then.
pub(crate) fn add_all_lasting(
    found: &mut Vec<Finding>,
    over: bool,
    state: &State,
    watches: &[Watch],
) -> Added
    ensures { OnOk result (found.new.items ≡
        found.old.items ++ flat_map (of_lasting over state.now) watches.now) }
{
    for watch in watches {
        add_lasting(found, over, state, watch)?;
    }
    Ok(())
}
