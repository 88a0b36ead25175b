//! One pass over an undo record: collects the findings about requests, their history, and the set
//! of incomplete READs and WRITEs.
ghost use Rattle.std.specs.Prelude.{◌≡◌, ◌++◌, OnOk, flat_map};
ghost use Rattle.findings.specs.{view, NamesOnce, noted_by, of_place, of_change, after_note, after_notes, IsListed, OfNoRow};

use crate::completed::prepare;
use crate::following::{follow, is_candidate_in};
use crate::noting::note_row;
use crate::record::{Added, add_of_row, row_in};
use entries::Phase;
use finding_kinds::{Finding, Times};
use finding_rules::conflicts::is_candidate;
use finding_rules::{Completed, Transition, row_at};
use places::{Change, Changes, Place, Stretches, Value};

// Records the phase of a request, if the search keeps the history.
fn note_phase(times: &mut Vec<Times>, at: Transition<'_>, number: u32, phase: Phase) -> Added {
    if !at.keeps_history {
        return Ok(());
    }
    note_row(times, at.moment, number, phase)
}

// Handles one request that the record names: adds its findings, records its change of phase, and
// updates the followed numbers.
fn look_at_row(
    found: &mut Vec<Finding>,
    numbers: &mut Vec<u32>,
    times: &mut Vec<Times>,
    completed: &mut Completed,
    at: Transition<'_>,
    number: u32,
    old: Option<Value>,
) -> Added
    requires { IsListed at.state.now at.past.now completed.old }
    ensures added { OnOk result (found.new.items ≡ found.old.items
        ++ of_place at.entry.moment (noted_by at.entry.setup.now at.entry.past.now
        at.entry.before at.entry.event at.entry.state.now)
        at.entry.state.now.table old (Place.Request number)) }
    ensures further { OnOk result (numbers.new.items
        ≡ after_note (view at.entry.state.now) numbers.old.items old (Place.Request number)) }
    ensures listed { OnOk result (IsListed at.entry.state.now at.entry.past.now completed.new) }
{
    let was = is_candidate_in(old);
    let Some(row) = row_at(at.state, number) else {
        return follow(numbers, number, was, false);
    };
    follow(numbers, number, was, is_candidate(&row))?;
    note_phase(times, at, number, row.phase)?;
    let before = row_in(old);
    prepare(completed, at, &before, &row)?;
    add_of_row(found, at, completed, &before, number, &row)
}

fn look_at_change(
    found: &mut Vec<Finding>,
    numbers: &mut Vec<u32>,
    times: &mut Vec<Times>,
    completed: &mut Completed,
    at: Transition<'_>,
    change: Change,
) -> Added
    requires { IsListed at.state.now at.past.now completed.old }
    ensures added { OnOk result (found.new.items ≡ found.old.items
        ++ of_change at.entry.moment (noted_by at.entry.setup.now at.entry.past.now
        at.entry.before at.entry.event at.entry.state.now)
        at.entry.state.now.table change) }
    ensures further { OnOk result (numbers.new.items
        ≡ after_note (view at.entry.state.now) numbers.old.items change.old change.place) }
    ensures listed { OnOk result (IsListed at.entry.state.now at.entry.past.now completed.new) }
{
    let Place::Request(number) = change.place else {
        return Ok(());
    };
    look_at_row(found, numbers, times, completed, at, number, change.old)
}

// Handles the changes of numbers, which come first and cost less to read, and then the others.
fn look_at_changes(
    found: &mut Vec<Finding>,
    numbers: &mut Vec<u32>,
    times: &mut Vec<Times>,
    completed: &mut Completed,
    at: Transition<'_>,
    rest: &mut Changes<'_>,
) -> Added
    requires { IsListed at.state.now at.past.now completed.old }
    ensures added { OnOk result (found.new.items ≡ found.old.items
        ++ flat_map (of_change at.entry.moment (noted_by at.entry.setup.now at.entry.past.now
        at.entry.before at.entry.event at.entry.state.now)
        at.entry.state.now.table) rest.old) }
    ensures further { OnOk result (numbers.new.items
        ≡ after_notes (view at.entry.state.now) numbers.old.items rest.old) }
    ensures listed { OnOk result (IsListed at.entry.state.now at.entry.past.now completed.new) }
{
    while let Some((place, old)) = rest.next_number() {
        let old = Some(Value::Number(old));
        let change = Change { place, old };
        look_at_change(found, numbers, times, completed, at, change)?;
    }
    while let Some(change) = rest.next() {
        look_at_change(found, numbers, times, completed, at, change)?;
    }
    Ok(())
}

/// Skips the recorded bytes, none of which belongs to a request.
pub(crate) fn pass_over(rest: &mut Stretches<'_>)
    ensures { OfNoRow rest.old.left }
{
    while let Some(_run) = rest.next() {}
}

/// Adds the findings about the requests that the record of an event names. Also records their
/// changes of phase and updates the numbers of incomplete READs and WRITEs.
pub(crate) fn look_at_record(
    found: &mut Vec<Finding>,
    numbers: &mut Vec<u32>,
    times: &mut Vec<Times>,
    at: Transition<'_>,
) -> Added
    ensures added { OnOk result (found.new.items ≡ found.old.items
        ++ flat_map (of_change at.entry.moment (noted_by at.entry.setup.now at.entry.past.now
        at.entry.before at.entry.event at.entry.state.now)
        at.entry.state.now.table) at.entry.past.now) }
    ensures once { OnOk result (NamesOnce at.entry.past.now) }
    ensures further { OnOk result (numbers.new.items
        ≡ after_notes (view at.entry.state.now) numbers.old.items at.entry.past.now) }
{
    let (mut first, mut bytes, mut last) = at.past.parts();
    pass_over(&mut bytes);
    let mut completed = Completed::unknown(*found.allocator());
    look_at_changes(found, numbers, times, &mut completed, at, &mut first)?;
    look_at_changes(found, numbers, times, &mut completed, at, &mut last)
}
