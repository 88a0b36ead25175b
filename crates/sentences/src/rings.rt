//! Sentences about rings, the threads that use them, and the poller.

use crate::counted::Counted;
use crate::cut_off::cut_off;
use crate::run::{Run, Text};
use entries::{ETIME, IORING_ENTER_GETEVENTS, IORING_ENTER_SQ_WAKEUP, Phase, Row};
use finding_kinds::{MOST_ROWS, Verdict, instruction_at};
use machine::{Event, Instruction};
use opcodes::Op;
use places::{Place, Stage, Value};
use std::alloc::Global;

const BACKLOG_RULE: &str = "(io_uring_setup(2), IORING_FEAT_NODROP)";

const WAIT_RULE: &str = "(io_uring_enter(2), IORING_ENTER_GETEVENTS)";

const SUBMIT_RULE: &str = "(io_uring_enter(2), to_submit)";

const POLLER_RULE: &str = "(io_uring_setup(2), IORING_SETUP_SQPOLL)";

/// What a kernel does otherwise: here a wait lasts until the enter has as many completions as it
/// requires.
const TIMEOUT_RETURNS: &str =
    " A kernel returns from this enter once a TIMEOUT completes (io_uring_enter(2)).";

/// What a wait at the end adds if nothing is left for a loop to handle.
const IDLE: &str = "; all requests have completed: an idle loop may wait";

fn entries(run: &Run<'_>) -> Counted {
    Counted::entries(u64::from(run.state.submissions().waiting()))
}

fn is_overflowing(run: &Run<'_>) -> bool {
    run.number(Place::SubmissionFlags) & 2 != 0
}

/// Returns the sentence of a completion ring that overflowed.
pub(crate) fn overflow(run: &Run<'_>, moment: u32) -> Text {
    let outlook = match run.emptied_after(moment) {
        Some(emptied) => format!(in run.alloc();
            "The backlog was empty again at moment {emptied}"
        )?,
        None => String::from_str(
            run.alloc(),
            "The backlog is not empty at the end of the run",
        )?,
    };
    format!(in run.alloc();
        "The completion ring was full: a completion went into the backlog, and CQ_OVERFLOW is set in sq.flags. Reap, then enter with IORING_ENTER_GETEVENTS to flush the backlog into the ring. {outlook} {BACKLOG_RULE}."
    )
}

/// Returns the sentence of an Enter that returned EBUSY.
pub(crate) fn busy(run: &Run<'_>, thread: u32, moment: u32) -> Text {
    let counter = run.counter(moment).unwrap_or(0);
    format!(in run.alloc();
        "The enter of thread {thread}, instruction {counter}, returned -16 (EBUSY), and submitted no entry: the ring has no room for all completions of the backlog. Reap, then enter again {BACKLOG_RULE}."
    )
}

/// The flags that an Enter may have: IORING_ENTER_GETEVENTS and IORING_ENTER_SQ_WAKEUP.
const ENTER_FLAGS: u32 = IORING_ENTER_GETEVENTS | IORING_ENTER_SQ_WAKEUP;

/// Returns the sentence of an Enter that returned EINVAL.
pub(crate) fn refused_flags(run: &Run<'_>, thread: u32, moment: u32) -> Text {
    let flags = match run.instruction(moment) {
        Some(Instruction::Enter { flags, .. }) => *flags,
        _ => 0,
    };
    let counter = run.counter(moment).unwrap_or(0);
    let others = flags & !ENTER_FLAGS;
    format!(in run.alloc();
        "The enter of thread {thread}, instruction {counter}, returned -22 (EINVAL), and did nothing: its flags {flags} include {others}, which isn't modelled: only IORING_ENTER_GETEVENTS (1) and IORING_ENTER_SQ_WAKEUP (2) are (io_uring_enter(2))."
    )
}

// Returns how many rows the event at a moment submitted, and whether it completed one of them.
fn queued_at(run: &Run<'_>, moment: u32) -> (usize, bool) {
    let rows = &run.history.rows;
    let queued = rows.iter().filter(|times| times.queued == moment).count();
    let failed = rows.iter().any(|times| times.queued == moment && times.ended == Some(moment));
    (queued, failed)
}

// Returns a reason, which may be empty, and how many indexes were dropped.
fn with_dropped(alloc: Global, reason: &str, dropped: u32) -> Text {
    if dropped == 0 {
        return String::from_str(alloc, reason);
    }
    let before = if reason.is_empty() { "" } else { "; " };
    let verbs = if dropped == 1 {
        "names no slot and was dropped"
    } else {
        "name no slot and were dropped"
    };
    format!(in alloc; "{reason}{before}{dropped} of its indexes {verbs}")
}

/// Returns the sentence of an Enter that submitted fewer entries than requested.
pub(crate) fn taken_short(run: &Run<'_>, thread: u32, moment: u32) -> Text {
    let requested = match run.instruction(moment) {
        Some(Instruction::Enter { to_submit, .. }) => *to_submit,
        _ => 0,
    };
    let counter = run.counter(moment).unwrap_or(0);
    let (queued, failed) = queued_at(run, moment);
    let dropped = run.dropped_at(moment);
    let reason = if queued.saturating_add(dropped as usize) >= requested as usize {
        ""
    } else if failed && !run.setup.submit_all {
        "an entry failed, and the submission stops at one that fails"
    } else {
        "the ring had no more"
    };
    let reason = with_dropped(run.alloc(), reason, dropped)?;
    let requested = Counted::entries(u64::from(requested));
    format!(in run.alloc();
        "The enter of thread {thread}, instruction {counter}, was to submit {requested}, and submitted {queued}: {reason} {SUBMIT_RULE}."
    )
}

/// Returns the sentence of a Push of an index that names no slot.
pub(crate) fn no_such_slot(run: &Run<'_>, thread: u32, moment: u32) -> Text {
    let index = match run.instruction(moment) {
        Some(Instruction::Push(index)) => *index,
        _ => 0,
    };
    let counter = run.counter(moment).unwrap_or(0);
    format!(in run.alloc();
        "The push of thread {thread}, instruction {counter}, adds index {index}, which names no slot of the ring: a submission drops it, and counts it in sq.dropped (io_uring(7))."
    )
}

// Returns the `min_complete` of an Enter, if it is above what the ring can hold.
fn beyond_ring(run: &Run<'_>, thread: u32, counter: u64, requested: u32) -> Text {
    match instruction_at(run.setup, Event::Step(thread), Some(counter)) {
        Some(Instruction::Enter { min_complete, .. }) if *min_complete > requested => {
            format!(in run.alloc();
                " (min_complete is {min_complete}, and the ring holds {requested})"
            )
        }
        _ => Ok(String::new(run.alloc())),
    }
}

// Returns whether a row is a TIMEOUT that expired, or that reached its count.
fn is_completed_timeout(row: &Row) -> bool {
    row.entry.opcode == Op::Timeout as u8
        && matches!(row.phase, Phase::Ended(res) if res == 0 || res == -ETIME)
}

// Returns whether a TIMEOUT expired, or reached its count, by the event at a moment or a later one.
fn has_completed_timeout(run: &Run<'_>, since: u32) -> bool {
    for number in 0..run.row_count() {
        if let Some(row) = run.row(number) {
            if is_completed_timeout(&row) && run.ends_since(number, since) {
                return true;
            }
        }
    }
    false
}

/// How many reaps the sentence of a waiting thread names.
const NAMED_REAPS: usize = 3;

// Returns which completions the other threads reaped from a moment on: a sentence for each of the
// first few, and one for the rest.
fn reaped_since(run: &Run<'_>, since: u32) -> Text {
    let mut text = String::new(run.alloc());
    let reaps = &run.history.reaps;
    let first = reaps.partition_point(|reap| reap.moment < since);
    for reap in reaps.iter().skip(first).take(NAMED_REAPS) {
        let (thread, user_data, moment) = (reap.thread, reap.user_data, reap.moment);
        let reaped = format!(in run.alloc();
            " Thread {thread} reaped user_data {user_data} at event {moment}."
        )?;
        text.push_str(reaped.as_str())?;
    }
    let named = first.saturating_add(NAMED_REAPS);
    let more = reaps.len().saturating_sub(named);
    if more > 0 {
        let reaped = format!(in run.alloc(); " Other threads reaped {more} more.")?;
        text.push_str(reaped.as_str())?;
    }
    Ok(text)
}

// Returns how many completions a waiting thread requires.
fn requested_by(run: &Run<'_>, thread: u32) -> u32 {
    match run.state.value(Place::ThreadStage(thread)) {
        Some(Value::Staged(Stage::Waiting(_, requested))) => requested,
        _ => 0,
    }
}

// Returns whether nothing is left for a loop to handle: there were requests, all have completed,
// and neither ring nor the backlog has anything.
fn is_idle(run: &Run<'_>) -> bool {
    run.state.row_count() > 0
        && run.state.next_unfinished(0).is_none()
        && run.state.submissions().waiting() == 0
        && run.state.completions().waiting() == 0
        && !is_overflowing(run)
}

// Returns what the sentence of a waiting thread says of the rest of the run: within it, and at its
// end.
fn outlook_of(run: &Run<'_>, verdict: Verdict, thread: u32) -> (&'static str, &'static str) {
    match run.state.refuses(Event::Step(thread)) {
        Some(_) if is_idle(run) => (IDLE, ""),
        Some(_) => ("", cut_off(verdict)),
        None => (". It could continue: the run just ends before that", ""),
    }
}

/// Returns the sentence of a thread that waits from a moment to the end.
pub(crate) fn waits(run: &Run<'_>, verdict: Verdict, thread: u32, since: u32) -> Text {
    let counter = run.number(Place::ProgramCounter(thread));
    let ready = run.state.completions().waiting();
    let requested = requested_by(run, thread);
    let beyond = beyond_ring(run, thread, counter, requested)?;
    let (outlook, end) = outlook_of(run, verdict, thread);
    let reaped = reaped_since(run, since)?;
    let returns = if has_completed_timeout(run, since) {
        TIMEOUT_RETURNS
    } else {
        ""
    };
    let requested = Counted::completions(u64::from(requested));
    format!(in run.alloc();
        "Thread {thread} waits in its enter, instruction {counter}, to the end of the run. It waits for {requested}{beyond}, and the ring has {ready}{outlook} {WAIT_RULE}.{reaped}{returns}{end}"
    )
}

// Returns how many completions the backlog has.
fn overflowed(run: &Run<'_>) -> u64 {
    let front = run.number(Place::BacklogFront).min(u64::from(MOST_ROWS)) as u32;
    for index in front..MOST_ROWS {
        if run.state.value(Place::Backlog(index)).is_none() {
            return u64::from(index - front);
        }
    }
    u64::from(MOST_ROWS - front)
}

// Returns what the sentence of a thread that can't continue says of the backlog, if that has
// completions: how to flush it.
fn flushed(run: &Run<'_>, how: &str) -> Text {
    if !is_overflowing(run) {
        return Ok(String::new(run.alloc()));
    }
    let completions = Counted::completions(overflowed(run));
    format!(in run.alloc(); " The backlog has {completions}: {how} {BACKLOG_RULE}.")
}

/// Returns the sentence of a thread whose next step is refused to the end, because of a ring that
/// nothing will fill or empty.
pub(crate) fn stuck(run: &Run<'_>, thread: u32) -> Text {
    let counter = run.number(Place::ProgramCounter(thread));
    let next = instruction_at(run.setup, Event::Step(thread), Some(counter));
    if let Some(Instruction::Push(_)) = next {
        // The poller submits entries without an enter.
        let backlog = if run.setup.sqpoll {
            String::new(run.alloc())
        } else {
            flushed(
                run,
                "an enter that submits first flushes the backlog into the ring, and returns -16 (EBUSY) unless all of it fits",
            )?
        };
        return format!(in run.alloc();
            "Thread {thread} can never go on: its push, instruction {counter}, finds the submission ring full, and nothing is left that would take its entries (io_uring(7)).{backlog}"
        );
    }
    let backlog = flushed(
        run,
        "before the reap, enter with IORING_ENTER_GETEVENTS to flush the backlog into the ring",
    )?;
    format!(in run.alloc();
        "Thread {thread} can never go on: its reap, instruction {counter}, finds the completion ring empty, and no request is left that could complete (io_uring(7)).{backlog}"
    )
}

/// Returns the sentence of a poller that sleeps while the submission ring has entries.
pub(crate) fn lost_wake_up(run: &Run<'_>, verdict: Verdict) -> Text {
    let entries = entries(run);
    let end = cut_off(verdict);
    format!(in run.alloc();
        "The poller sleeps to the end of the run, with NEED_WAKEUP set in sq.flags, and the submission ring has {entries}. After writing the tail, check sq.flags, and enter with IORING_ENTER_SQ_WAKEUP {POLLER_RULE}.{end}"
    )
}

/// Returns the sentence of entries that were never submitted.
pub(crate) fn not_taken(run: &Run<'_>, verdict: Verdict) -> Text {
    let entries = entries(run);
    let end = cut_off(verdict);
    let rule = if run.state.value(Place::PollerStage).is_some() {
        POLLER_RULE
    } else {
        SUBMIT_RULE
    };
    format!(in run.alloc();
        "At the end of the run the submission ring has {entries}, never submitted {rule}.{end}"
    )
}

/// Returns the sentence of completions that no thread reaped.
pub(crate) fn not_reaped(run: &Run<'_>) -> Text {
    let completions = run.state.completions().waiting();
    if completions == 0 {
        return format!(in run.alloc();
            "At the end of the run the backlog has completions, and the completion ring has none: enter with IORING_ENTER_GETEVENTS to flush the backlog into the ring {BACKLOG_RULE}."
        );
    }
    let completions = Counted::completions(u64::from(completions));
    let more = if is_overflowing(run) {
        "; the backlog has more"
    } else {
        ""
    };
    format!(in run.alloc();
        "At the end of the run the completion ring has {completions}, never reaped{more} (io_uring(7))."
    )
}
