//! The WRITEs and FSYNCs that events complete (write(2), fsync(2)).
ghost use Rattle.std.specs.Prelude.{◌≡◌};
ghost use Rattle.finding_rules.specs.{completed_by, written_in, written_of, has_ended_with, fsync_in, fsync_of};

use crate::conflicts::{begins, moved};
use crate::effect::{Effect, finished_in};
use crate::files::file_of;
use entries::{Phase, Row};
use machine::{Event, Setup, State};
use opcodes::Op;

/// A completed WRITE to a regular file.
#[derive(Clone, Copy)]
pub struct Written {
    /// The number of the request.
    pub row: u32,
    /// The object number of the file.
    pub file: u32,
    /// The first byte of the file that it moved.
    pub first: u64,
    /// How many bytes it moved.
    pub count: u64,
}

/// A completed FSYNC of a regular file.
#[derive(Clone, Copy)]
pub struct Fsync {
    /// The number of the request.
    pub row: u32,
    /// The object number of the file.
    pub file: u32,
}

/// Returns the READ, WRITE or FSYNC that the event completes, by the state after it.
pub fn completed_by(event: Event, state: &State) -> Effect
    ensures { result ≡ completed_by event state.now }
{
    match event {
        Event::Finish(number, _) => finished_in(state, number),
        _ => Effect::Nothing,
    }
}

fn written_in(setup: &Setup, state: &State, number: u32, row: &Row) -> Option<Written>
    ensures { result ≡ written_in setup.now state.now number row.now }
{
    if row.entry.opcode != Op::Write as u8 {
        return None;
    }
    let count = moved(row.phase);
    Some(Written {
        row: number,
        file: file_of(setup, row.entry.fd)?,
        first: begins(state, count, &row.entry),
        count,
    })
}

/// Returns the bytes of a regular file that a completed WRITE moved, by the state after it.
pub fn written_of(setup: &Setup, state: &State, effect: &Effect) -> Option<Written>
    ensures { result ≡ written_of setup.now state.now effect.now }
{
    match effect {
        Effect::Finished(number, row) => written_in(setup, state, *number, row),
        _ => None,
    }
}

fn has_ended_with(outcome: i32, phase: Phase) -> bool
    ensures { result ≡ has_ended_with outcome phase }
{
    matches!(phase, Phase::Ended(res) if res == outcome)
}

fn fsync_in(setup: &Setup, outcome: i32, number: u32, row: &Row) -> Option<Fsync>
    ensures { result ≡ fsync_in setup.now outcome number row.now }
{
    if !(row.entry.opcode == Op::Fsync as u8 && has_ended_with(outcome, row.phase)) {
        return None;
    }
    let file = file_of(setup, row.entry.fd)?;
    Some(Fsync { row: number, file })
}

/// Returns the completed FSYNC of a regular file, if it has this result.
pub fn fsync_of(setup: &Setup, outcome: i32, effect: &Effect) -> Option<Fsync>
    ensures { result ≡ fsync_of setup.now outcome effect.now }
{
    match effect {
        Effect::Finished(number, row) => fsync_in(setup, outcome, *number, row),
        _ => None,
    }
}
