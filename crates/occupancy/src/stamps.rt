//! The lifetime of each request: when it was submitted, issued and completed.
ghost use Rattle.std.specs.Prelude.{◌≡◌, ◌≤◌, ◌-◌, ◌++◌, length, replicate, OnOk};
ghost use Rattle.occupancy.specs.{WellFormed, first_moment, new_stamps, stamped, stamp_row, stamp_changes};

use entries::Phase;
use machine::State;
use places::{Place, Record, Value};
use std::alloc::AllocError;

/// The most requests of a run.
const MOST_ROWS: usize = 65536;

/// The first moments at which a request existed, was issued, and was complete.
#[derive(Clone, Copy)]
pub struct Stamps {
    pub queued: u32,
    pub issued: Option<u32>,
    pub ended: Option<u32>,
}

// Returns the first moment if there is one, else `moment`.
fn first_of(first: Option<u32>, moment: u32) -> Option<u32>
    ensures { result ≡ first_moment first moment }
{
    match first {
        Some(first) => Some(first),
        None => Some(moment),
    }
}

// Returns a lifetime, updated with the phase of its request at a moment.
fn stamped(before: Stamps, phase: Phase, moment: u32) -> Stamps
    ensures { result ≡ stamped before phase moment }
{
    match phase {
        Phase::Queued => before,
        Phase::Issued => Stamps {
            queued: before.queued,
            issued: first_of(before.issued, moment),
            ended: before.ended,
        },
        Phase::Ended(_) => Stamps {
            queued: before.queued,
            issued: before.issued,
            ended: first_of(before.ended, moment),
        },
    }
}

/// Adds the requests that are new at a moment.
pub(crate) fn add_rows(
    stamps: &mut Vec<Stamps>,
    state: &State,
    moment: u32,
) -> Result<(), AllocError>
    requires rows { length stamps.old.items ≤ length state.now.table }
    requires formed { WellFormed state.now }
    ensures ok { OnOk result (stamps.new.items ≡ stamps.old.items
        ++ replicate (length state.now.table - length stamps.old.items) (new_stamps moment)) }
{
    for row in stamps.len()..MOST_ROWS {
        if state.value(Place::Request(row as u32)).is_none() {
            return Ok(());
        }
        stamps.push(Stamps {
            queued: moment,
            issued: None,
            ended: None,
        })?;
    }
    Ok(())
}

// Records the phase of a request at a moment.
fn stamp_row(stamps: &mut Vec<Stamps>, state: &State, row: u32, moment: u32)
    requires { length stamps.old.items ≡ length state.now.table }
    ensures value { stamps.new.items ≡ stamp_row state.now.table moment stamps.old.items row }
    ensures len { length stamps.new.items ≡ length stamps.old.items }
{
    if let Some(Value::Requested(found)) = state.value(Place::Request(row)) {
        let before = stamps[row as usize];
        stamps[row as usize] = stamped(before, found.phase, moment);
    }
}

/// Records, at the moment after a step, the phases of all requests that its undo record names.
pub(crate) fn stamp_changes(stamps: &mut Vec<Stamps>, past: &Record, state: &State, moment: u32)
    requires { length stamps.old.items ≡ length state.now.table }
    ensures { stamps.new.items ≡ stamp_changes state.now.table moment past.now stamps.old.items }
{
    let mut rest = past.changes();
    while let Some(change) = rest.next() {
        if let Place::Request(row) = change.place {
            stamp_row(stamps, state, row, moment);
        }
    }
}
