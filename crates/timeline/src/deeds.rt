//! What each event does, in words.

use crate::row_parts::{instruction_text, name_of};
use entries::Choice;
use machine::{Event, Instruction, Setup, State};
use places::{Place, Stage, Value};
use run_log::Changed;
use std::alloc::{AllocError, Global};

/// What an event does.
#[derive(Drop)]
pub(crate) struct Deed {
    /// The instruction that a thread carries out, or what happens to a request.
    pub text: String,
    /// The index of the instruction in its thread's program.
    pub instruction: Option<u32>,
    /// The request that is issued, finished or expired.
    pub row: Option<u32>,
}

// Returns the change of a place, if it changed.
fn change_of(changes: &[Changed], place: Place) -> Option<Changed> {
    for changed in changes {
        if changed.place.equals(&place) {
            return Some(*changed);
        }
    }
    None
}

fn number_of(value: Option<Value>) -> Option<u32> {
    match value {
        Some(Value::Number(number)) if number <= u32::MAX as u64 => Some(number as u32),
        _ => None,
    }
}

// Returns the index of the instruction that a thread was at before an event.
fn counter_before(changes: &[Changed], state: &State, thread: u32) -> Option<u32> {
    let place = Place::ProgramCounter(thread);
    match change_of(changes, place) {
        Some(changed) => number_of(changed.old),
        None => number_of(state.value(place)),
    }
}

fn instruction_at(setup: &Setup, thread: u32, counter: u32) -> Option<&Instruction> {
    let program = setup.threads.as_slice().get(thread as usize)?;
    program.as_slice().get(counter as usize)
}

// Returns whether a step began or ended a wait, as the end of a sentence.
fn waiting_text(changes: &[Changed], thread: u32) -> &'static str {
    match change_of(changes, Place::ThreadStage(thread)) {
        Some(
            Changed {
                new: Some(Value::Staged(Stage::Waiting(_, _))),
                ..
            },
        ) => ", starts to wait",
        Some(_) => ", stops waiting",
        None => "",
    }
}

fn deed_of_step(
    alloc: Global,
    setup: &Setup,
    state: &State,
    changes: &[Changed],
    thread: u32,
) -> Result<Deed, AllocError> {
    let instruction = counter_before(changes, state, thread);
    let found = match instruction {
        Some(counter) => instruction_at(setup, thread, counter),
        None => None,
    };
    let words = match found {
        Some(found) => instruction_text(alloc, found)?,
        None => format!(in alloc; "step {thread}")?,
    };
    let waiting = waiting_text(changes, thread);
    Ok(Deed {
        text: format!(in alloc; "{words}{waiting}")?,
        instruction,
        row: None,
    })
}

fn operation_of(state: &State, row: u32) -> &'static str {
    match state.value(Place::Request(row)) {
        Some(Value::Requested(request)) => name_of(request.entry.opcode),
        _ => "unknown",
    }
}

fn deed_of_row(
    alloc: Global,
    state: &State,
    verb: &str,
    row: u32,
    choice: &str,
) -> Result<Deed, AllocError> {
    let operation = operation_of(state, row);
    Ok(Deed {
        text: format!(in alloc; "{verb} row {row} {operation}{choice}")?,
        instruction: None,
        row: Some(row),
    })
}

fn choice_text(alloc: Global, choice: Choice) -> Result<String, AllocError> {
    match choice {
        Choice::Full => format!(in alloc; ""),
        Choice::Short(bytes) => format!(in alloc; ", short {bytes}"),
        Choice::Eio => format!(in alloc; ", EIO"),
    }
}

fn plain_deed(text: String) -> Deed {
    Deed {
        text,
        instruction: None,
        row: None,
    }
}

/// Returns what an event did, given the state after it and what it changed.
pub(crate) fn deed_of(
    alloc: Global,
    setup: &Setup,
    state: &State,
    changes: &[Changed],
    event: Event,
) -> Result<Deed, AllocError> {
    match event {
        Event::Step(thread) => deed_of_step(alloc, setup, state, changes, thread),
        Event::Issue(row) => deed_of_row(alloc, state, "issue", row, ""),
        Event::Finish(row, choice) => {
            let choice = choice_text(alloc, choice)?;
            deed_of_row(alloc, state, "finish", row, choice.as_str())
        }
        Event::Expire(row) => deed_of_row(alloc, state, "expire", row, ""),
        Event::Take(entries) => Ok(plain_deed(format!(in alloc; "take {entries}")?)),
        Event::Sleep => Ok(plain_deed(format!(in alloc; "sleep")?)),
        Event::Tick(nanoseconds) => Ok(plain_deed(format!(in alloc; "tick {nanoseconds}")?)),
    }
}
