//! Sentences about puts into pushed slots, and closes of descriptors that are used or closed.

use crate::listing::Listing;
use crate::run::{Run, Text};
use entries::Row;
use machine::Instruction;
use opcodes::uses_descriptor;
use std::alloc::Global;

const RULE: &str = "(close(2), io_uring_enter(2))";

/// Returns the sentence of an entry that was changed before it was submitted.
pub(crate) fn slot_in_use(run: &Run<'_>, thread: u32, moment: u32) -> Text {
    let slot = match run.instruction(moment) {
        Some(Instruction::Put(slot, _)) => *slot,
        _ => 0,
    };
    let counter = run.counter(moment).unwrap_or(0);
    format!(in run.alloc();
        "The put of thread {thread}, instruction {counter}, changes slot {slot}, whose entry was pushed and is not yet submitted: the submission takes what the slot has by then (io_uring(7))."
    )
}

/// The phase of a row when its descriptor was closed.
#[derive(Clone, Copy)]
pub(crate) enum UserPhase {
    Queued,
    Issued,
}

impl UserPhase {
    // Returns what such a row does with its descriptor.
    fn verb(self) -> &'static str {
        match self {
            UserPhase::Queued => "named",
            UserPhase::Issued => "held",
        }
    }

    // Returns what follows for such a row.
    fn outcome(self) -> &'static str {
        match self {
            UserPhase::Queued => {
                "A request whose descriptor is not open completes with -9 (EBADF) as it is issued"
            }
            UserPhase::Issued => {
                "An issued request continues, and keeps the object until it completes"
            }
        }
    }
}

// Returns whether a row was in this phase before the event at a moment, and uses the descriptor.
fn is_user(
    run: &Run<'_>,
    number: u32,
    row: &Row,
    fd: i32,
    moment: u32,
    user_phase: UserPhase,
) -> bool {
    let is_in_phase = match (run.times_of(number), user_phase) {
        (Some(times), UserPhase::Queued) => times.is_queued_at(moment),
        (Some(times), UserPhase::Issued) => times.is_issued_at(moment),
        (None, _) => false,
    };
    is_in_phase && uses_descriptor(row.entry.opcode) && row.entry.fd == fd
}

// Lists the rows that use a descriptor in this phase.
fn users(run: &Run<'_>, fd: i32, moment: u32, user_phase: UserPhase) -> Text {
    let mut rows = Listing::new(run.alloc());
    for number in 0..run.row_count() {
        if matches!(run.row(number), Some(row) if is_user(run, number, &row, fd, moment, user_phase))
        {
            rows.add(run, number)?;
        }
    }
    rows.finish(run.alloc())
}

// Returns the list of queued rows that name a descriptor, and the slot whose entry names it.
fn with_slot(alloc: Global, mut rows: String, slot: Option<u32>) -> Text {
    if !rows.is_empty() {
        rows.push_str(", still queued")?;
    }
    let Some(slot) = slot else {
        return Ok(rows);
    };
    if !rows.is_empty() {
        rows.push_str(", and by ")?;
    }
    let entry = format!(in alloc; "the entry in slot {slot}, pushed and not yet submitted")?;
    rows.push_str(entry.as_str())?;
    Ok(rows)
}

// Returns the descriptor that the event at a moment closes, or tries to close.
fn closed_at(run: &Run<'_>, moment: u32) -> i32 {
    match run.instruction(moment) {
        Some(Instruction::Close(fd)) => *fd,
        _ => 0,
    }
}

/// Returns the sentence of a descriptor that was closed while rows in this phase use it.
pub(crate) fn closed(run: &Run<'_>, thread: u32, moment: u32, user_phase: UserPhase) -> Text {
    let fd = closed_at(run, moment);
    let counter = run.counter(moment).unwrap_or(0);
    let used = user_phase.verb();
    let rows = users(run, fd, moment, user_phase)?;
    let users = match user_phase {
        UserPhase::Queued => with_slot(run.alloc(), rows, run.slot(moment))?,
        UserPhase::Issued => rows,
    };
    let outcome = user_phase.outcome();
    format!(in run.alloc();
        "The close of thread {thread}, instruction {counter}, closed descriptor {fd}, which is {used} by {users}. {outcome} {RULE}."
    )
}

/// Returns the sentence of a close of a descriptor that was closed before.
pub(crate) fn closed_twice(run: &Run<'_>, thread: u32, moment: u32) -> Text {
    let fd = closed_at(run, moment);
    let counter = run.counter(moment).unwrap_or(0);
    let event = run.close_of(fd).unwrap_or(0);
    format!(in run.alloc();
        "Thread {thread} closed descriptor {fd}, instruction {counter}, which event {event} had closed: it was answered -9 (EBADF). In a real program the number may belong to another file by then (close(2))."
    )
}
