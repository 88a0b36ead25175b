//! Requests that are incomplete, and files that aren't durable, at the end of a run.
ghost use Rattle.std.specs.Prelude.{◌≡◌, ◌++◌, OnOk};
ghost use Rattle.findings.specs.{of_left, all_left, of_object, all_unsynced};

use crate::record::{Added, add_if};
use entries::Row;
use finding_kinds::{Finding, Kind, LeftKind, MOST_ROWS};
use finding_rules::{fault_if, has_fsync, has_unsynced, row_at};
use links_drains::is_unfinished;
use machine::{Setup, State};
use std::alloc::AllocError;

// Adds a finding if the request is incomplete. `over` says whether the run is over.
fn add_left(found: &mut Vec<Finding>, moment: u32, over: bool, number: u32, row: &Row) -> Added
    ensures { OnOk result (found.new.items ≡
        found.old.items ++ of_left moment over (number, row.now)) }
{
    let kind = Kind::Left(LeftKind::Unfinished(fault_if(over)));
    add_if(found, is_unfinished(row), moment, kind, number)
}

/// Adds a finding for each incomplete request. `over` says whether the run is over.
pub(crate) fn add_all_left(
    found: &mut Vec<Finding>,
    moment: u32,
    over: bool,
    state: &State,
) -> Added
    ensures { OnOk result (found.new.items ≡
        found.old.items ++ all_left moment over state.now.table) }
{
    let _first = row_at(state, 0);
    for number in 0..MOST_ROWS {
        match row_at(state, number) {
            Some(row) => add_left(found, moment, over, number, &row)?,
            None => return Ok(()),
        }
    }
    Ok(())
}

// Adds a finding if the object is a file that isn't durable.
fn add_unsynced(
    found: &mut Vec<Finding>,
    setup: &Setup,
    moment: u32,
    state: &State,
    object: u32,
) -> Added
    ensures { OnOk result (found.new.items ≡
        found.old.items ++ of_object setup.now moment state.now object) }
{
    if !has_unsynced(state, object) {
        return Ok(());
    }
    let verdict = fault_if(has_fsync(setup, state, object));
    let kind = Kind::Left(LeftKind::NotDurable(verdict));
    add_if(found, true, moment, kind, object)
}

/// Adds a finding for each file that isn't durable.
pub(crate) fn add_all_unsynced(
    found: &mut Vec<Finding>,
    setup: &Setup,
    moment: u32,
    state: &State,
) -> Added
    ensures { OnOk result (found.new.items ≡
        found.old.items ++ all_unsynced setup.now moment state.now) }
{
    let Ok(objects) = u32::try_from(setup.objects.as_slice().len()) else {
        return Err(AllocError);
    };
    for object in 0..objects {
        add_unsynced(found, setup, moment, state, object)?;
    }
    Ok(())
}
