//! Passes over a schedule, each of which tries simpler ones.
ghost use Rattle.std.specs.Prelude.{OnOk, ◌<◌, ◌≤◌};
ghost use Rattle.shrinking.specs.Shrinking.{IsKept};

use crate::attempts::{Best, attempt};
use crate::candidates::{in_full, merged, without};
use crate::costs::{Cost, is_failure};
use crate::goal::Goal;
use machine::Event;
use std::alloc::{AllocError, Global};

/// The greatest number of rounds of the last passes.
const ROUNDS: u32 = 8;

/// Tries the events up to the finding. Those after it are needed only where the whole run matters.
pub(crate) fn cut(alloc: Global, goal: Goal<'_>, best: &mut Best) -> Result<(), AllocError>
    requires most { goal.most ≤ 1048576 }
    requires kept { IsKept goal best.old.events.items best.old.sighting }
    ensures { OnOk result (IsKept goal.entry best.new.events.items best.new.sighting) }
{
    let end = best.sighting.moment.saturating_add(1) as usize;
    let head = without(alloc, &best.events, end, best.events.len())?;
    attempt(alloc, goal, best, &head)
}

// Tries to remove the events from one index to another.
fn remove(
    alloc: Global,
    goal: Goal<'_>,
    best: &mut Best,
    start: usize,
    end: usize,
) -> Result<(), AllocError>
    requires most { goal.most ≤ 1048576 }
    requires kept { IsKept goal best.old.events.items best.old.sighting }
    ensures { OnOk result (IsKept goal.entry best.new.events.items best.new.sighting) }
{
    if best.attempts == 0 || end > best.events.len() {
        return Ok(());
    }
    let candidate = without(alloc, &best.events, start, end)?;
    attempt(alloc, goal, best, &candidate)
}

// Tries to remove this number of events at a time, from the back.
fn remove_each(
    alloc: Global,
    goal: Goal<'_>,
    best: &mut Best,
    size: usize,
) -> Result<(), AllocError>
    requires most { goal.most ≤ 1048576 }
    requires some { 0 < size }
    requires kept { IsKept goal best.old.events.items best.old.sighting }
    ensures { OnOk result (IsKept goal.entry best.new.events.items best.new.sighting) }
{
    let mut end = best.events.len();
    while end > 0 {
        let start = end.saturating_sub(size);
        remove(alloc, goal, best, start, end)?;
        end = start;
    }
    Ok(())
}

/// Tries to remove half of the events at a time, then a quarter, and so on.
pub(crate) fn halve(alloc: Global, goal: Goal<'_>, best: &mut Best) -> Result<(), AllocError>
    requires most { goal.most ≤ 1048576 }
    requires kept { IsKept goal best.old.events.items best.old.sighting }
    ensures { OnOk result (IsKept goal.entry best.new.events.items best.new.sighting) }
{
    let mut size = best.events.len() / 2;
    while size > 0 {
        remove_each(alloc, goal, best, size)?;
        size /= 2;
    }
    Ok(())
}

/// A way to make a schedule simpler at an index.
#[derive(Clone, Copy)]
pub(crate) enum Edit {
    /// Lets the request that finishes there do so in full.
    InFull,
    /// Moves the events by one actor from there on to its earlier ones.
    Merged,
}

// Returns the schedule that an edit makes, or None if it makes none.
fn edited(
    alloc: Global,
    events: &[Event],
    edit: Edit,
    index: usize,
) -> Result<Option<Vec<Event>>, AllocError> {
    match (edit, events.get(index)) {
        (Edit::InFull, Some(event)) if is_failure(*event) => {
            Ok(Some(in_full(alloc, events, index)?))
        }
        (Edit::InFull, _) => Ok(None),
        (Edit::Merged, _) => merged(alloc, events, index),
    }
}

// Tries an edit at an index.
fn try_at(
    alloc: Global,
    goal: Goal<'_>,
    best: &mut Best,
    edit: Edit,
    index: usize,
) -> Result<(), AllocError>
    requires most { goal.most ≤ 1048576 }
    requires kept { IsKept goal best.old.events.items best.old.sighting }
    ensures { OnOk result (IsKept goal.entry best.new.events.items best.new.sighting) }
{
    if best.attempts == 0 {
        return Ok(());
    }
    match edited(alloc, &best.events, edit, index)? {
        Some(candidate) => attempt(alloc, goal, best, &candidate),
        None => Ok(()),
    }
}

/// Tries an edit at each index.
pub(crate) fn try_each(
    alloc: Global,
    goal: Goal<'_>,
    best: &mut Best,
    edit: Edit,
) -> Result<(), AllocError>
    requires most { goal.most ≤ 1048576 }
    requires kept { IsKept goal best.old.events.items best.old.sighting }
    ensures { OnOk result (IsKept goal.entry best.new.events.items best.new.sighting) }
{
    for index in 0..best.events.len() {
        try_at(alloc, goal, best, edit, index)?;
    }
    Ok(())
}

/// Tries to remove single events and to merge blocks until neither helps.
pub(crate) fn settle(alloc: Global, goal: Goal<'_>, best: &mut Best) -> Result<(), AllocError>
    requires most { goal.most ≤ 1048576 }
    requires kept { IsKept goal best.old.events.items best.old.sighting }
    ensures { OnOk result (IsKept goal.entry best.new.events.items best.new.sighting) }
{
    for _round in 0..ROUNDS {
        let before = Cost::new(&best.events);
        remove_each(alloc, goal, best, 1)?;
        try_each(alloc, goal, best, Edit::Merged)?;
        if Cost::new(&best.events) == before {
            return Ok(());
        }
    }
    Ok(())
}
