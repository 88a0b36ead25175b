//! Sentences about events that are refused: why, and what must happen first.

use crate::document::Wording;
use entries::{EINVAL, IORING_SQ_CQ_OVERFLOW, Phase, Row};
use links_drains::is_guard;
use machine::{Event, Refusal, Setup, State, ring_size};
use opcodes::{Choice, is_timer};
use places::{Place, Stage, Value};
use script::EventText;
use sentences::{Counted, ResultName, RowName, Unmodelled, is_modelled, why_unfinished};
use std::alloc::Global;

/// The most rows of a run.
const MOST_ROWS: u32 = 65536;

// Returns the clause that says how completions get into the ring. While the backlog has some, new
// ones are added to the backlog.
fn remedy_for_completions(state: &State) -> &'static str {
    if state.submissions().flags() & IORING_SQ_CQ_OVERFLOW == 0 {
        "requests must complete first"
    } else {
        "the backlog has some, which an enter with IORING_ENTER_GETEVENTS (flags 1) flushes into the ring"
    }
}

fn no_such_thread(alloc: Global, setup: &Setup) -> Wording {
    let count = setup.threads.len();
    format!(in alloc;
        "there is no such thread: threads are numbered from 0, and the script has {count}"
    )
}

fn full_ring(alloc: Global, setup: &Setup) -> Wording {
    let entries = Counted::entries(u64::from(ring_size(setup.entries)));
    let taker = if setup.sqpoll {
        "a take of the poller"
    } else {
        "an enter that submits"
    };
    format!(in alloc; "the submission ring is full, with {entries}: {taker} must come first")
}

fn still_waiting(alloc: Global, state: &State, thread: u32) -> Wording {
    let needed = match state.value(Place::ThreadStage(thread)) {
        Some(Value::Staged(Stage::Waiting(_, needed))) => needed,
        _ => 0,
    };
    let needed = Counted::completions(u64::from(needed));
    let ready = state.completions().waiting();
    let remedy = remedy_for_completions(state);
    format!(in alloc;
        "the thread waits in its enter for {needed}, and the ring has {ready}: {remedy}"
    )
}

fn empty_ring(alloc: Global, state: &State) -> Wording {
    let remedy = remedy_for_completions(state);
    format!(in alloc; "the thread would reap, and the completion ring is empty: {remedy}")
}

// Returns why a step is refused.
fn step(alloc: Global, state: &State, setup: &Setup, thread: u32, refusal: Refusal) -> Wording {
    match refusal {
        Refusal::NoSuchThread => no_such_thread(alloc, setup),
        Refusal::ThreadDone => {
            String::from_str(alloc, "the thread has executed its last instruction")
        }
        Refusal::SqFull => full_ring(alloc, setup),
        Refusal::StillWaiting => still_waiting(alloc, state, thread),
        Refusal::NothingToReap => empty_ring(alloc, state),
        _ => too_many(alloc),
    }
}

fn too_many(alloc: Global) -> Wording {
    format!(in alloc; "a run has at most {MOST_ROWS} rows, and it would have more")
}

fn no_such_row(alloc: Global, state: &State) -> Wording {
    let count = state.row_count();
    let verb = if count == 1 { "is" } else { "are" };
    let rows = Counted::rows(u64::from(count));
    format!(in alloc;
        "there is no such row: rows are numbered from 0 as entries are submitted, and so far there {verb} {rows}"
    )
}

// Returns why an event doesn't fit a row's phase, or its opcode.
fn wrong_phase(alloc: Global, name: RowName, row: &Row, event: Event) -> Wording {
    match (event, row.phase) {
        (Event::Finish(_, _), _) if is_timer(row.entry.opcode) => {
            format!(in alloc; "row {name} completes by expire")
        }
        (Event::Expire(_), _) if !is_timer(row.entry.opcode) => {
            format!(in alloc; "row {name} completes by finish")
        }
        (_, Phase::Ended(res)) => completed(alloc, name, row, res),
        (_, Phase::Issued) => format!(in alloc; "row {name} is already issued"),
        (_, Phase::Queued) if is_guard(row) => {
            format!(in alloc; "row {name} is queued: it is issued with its target")
        }
        (_, Phase::Queued) => format!(in alloc; "row {name} is queued: issue it first"),
    }
}

// Returns the sentence that a row has completed, with its result. It names an opcode that isn't
// modelled.
fn completed(alloc: Global, name: RowName, row: &Row, res: i32) -> Wording {
    let result = ResultName(res);
    let opcode = row.entry.opcode;
    if res == -EINVAL && !is_modelled(opcode) {
        let unmodelled = Unmodelled(opcode);
        return format!(in alloc;
            "row {name} has completed with {result}; {unmodelled}: it completes with EINVAL"
        );
    }
    format!(in alloc; "row {name} has completed with {result}")
}

fn not_due(alloc: Global, state: &State, name: RowName, row: &Row) -> Wording {
    let clock = state.clock();
    match row.deadline {
        Some(deadline) if deadline > u128::from(u64::MAX) => format!(in alloc;
            "row {name} is due at {deadline}, after the end of the clock"
        ),
        Some(deadline) => {
            let left = deadline.saturating_sub(u128::from(clock));
            format!(in alloc;
                "row {name} is due at {deadline}, and the clock is at {clock}: tick {left} first"
            )
        }
        None => format!(in alloc; "row {name} is never due"),
    }
}

fn bad_choice(alloc: Global, name: RowName, choice: Choice) -> Wording {
    match choice {
        Choice::Full => format!(in alloc; "row {name} can't complete"),
        Choice::Short(bytes) => {
            let bytes = Counted::bytes(u64::from(bytes));
            format!(in alloc;
                "row {name} can't complete with {bytes}: only a READ or a WRITE of a file can be short, with fewer bytes than it would transfer"
            )
        }
        Choice::Eio => format!(in alloc;
            "row {name} can't complete with EIO: only a READ, a WRITE or an FSYNC of a file can, unless it fails with another error or is a WRITE of 0 bytes"
        ),
    }
}

// Returns why an event of a row is refused.
fn of_row(
    alloc: Global,
    state: &State,
    setup: &Setup,
    number: u32,
    event: Event,
    refusal: Refusal,
) -> Wording {
    let Some(row) = state.row(number) else {
        return no_such_row(alloc, state);
    };
    let name = RowName::new(number, &row);
    match (refusal, event) {
        (Refusal::NotEligible, _) if is_guard(&row) => {
            let reason = why_unfinished(alloc, setup, state, number)?;
            format!(in alloc; "row {name} can't be issued. {reason} Issue that row.")
        }
        (Refusal::NotEligible, _) => {
            let reason = why_unfinished(alloc, setup, state, number)?;
            format!(in alloc; "row {name} can't be issued. {reason} That row must complete first.")
        }
        (Refusal::NotReady, _) => {
            let reason = why_unfinished(alloc, setup, state, number)?;
            format!(in alloc; "row {name} can't complete. {reason} That must come first.")
        }
        (Refusal::NotDue, _) => not_due(alloc, state, name, &row),
        (Refusal::BadChoice, Event::Finish(_, choice)) => bad_choice(alloc, name, choice),
        _ => wrong_phase(alloc, name, &row, event),
    }
}

// Returns why a take or a sleep is refused.
fn of_poller(alloc: Global, state: &State, refusal: Refusal) -> Wording {
    match refusal {
        Refusal::NoPoller => {
            String::from_str(alloc, "there is no poller: set \"sqpoll\": true for one")
        }
        Refusal::Asleep => String::from_str(
            alloc,
            "the poller is asleep: an enter with IORING_ENTER_SQ_WAKEUP (flags 2) wakes it",
        ),
        Refusal::NotIdle => {
            let entries = Counted::entries(u64::from(state.submissions().waiting()));
            format!(in alloc; "the submission ring has {entries}: take all of them first")
        }
        _ => too_many(alloc),
    }
}

fn late_tick(alloc: Global, state: &State) -> Wording {
    let (clock, end) = (state.clock(), u64::MAX);
    format!(in alloc; "the clock is at {clock}, and can't pass {end}")
}

fn reason(alloc: Global, state: &State, setup: &Setup, event: Event, refusal: Refusal) -> Wording {
    match event {
        Event::Step(thread) => step(alloc, state, setup, thread, refusal),
        Event::Take(_) | Event::Sleep => of_poller(alloc, state, refusal),
        Event::Issue(row) | Event::Finish(row, _) | Event::Expire(row) => {
            of_row(alloc, state, setup, row, event, refusal)
        }
        Event::Tick(_) => late_tick(alloc, state),
    }
}

/// Returns the sentence about an event that a state refuses.
pub(crate) fn sentence(
    alloc: Global,
    state: &State,
    setup: &Setup,
    event: Event,
    refusal: Refusal,
) -> Wording {
    let words = EventText(event);
    let number = refusal as u32;
    let reason = reason(alloc, state, setup, event, refusal)?;
    format!(in alloc; "{words} can't happen here (reason {number}): {reason}")
}
