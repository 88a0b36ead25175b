//! Sentences about requests that haven't completed at the end.

use crate::counted::Counted;
use crate::cut_off::cut_off;
use crate::names::RowName;
use crate::rules::{LINK_RULE, LINK_TIMEOUT_RULE, TIMEOUT_RULE};
use crate::run::{Run, Text};
use crate::waiting::waits;
use entries::{IOSQE_IO_DRAIN, Phase, Row};
use finding_kinds::{History, MOST_ROWS, Verdict};
use links_drains::is_guard;
use machine::{Event, Refusal, Setup, State};
use opcodes::{Choice, is_timer};
use places::Place;
use std::alloc::{AllocError, Global};

const DRAIN_RULE: &str = "(io_uring_enter(2), IOSQE_IO_DRAIN)";

// Returns whether some row of a chain has IO_DRAIN. Completed rows count, too.
fn drains(run: &Run<'_>, unit: u32) -> bool {
    for number in unit..MOST_ROWS {
        match run.row(number) {
            Some(row) if row.unit == unit => {
                if row.entry.flags & IOSQE_IO_DRAIN != 0 {
                    return true;
                }
            }
            _ => return false,
        }
    }
    false
}

// Returns the first incomplete row, from one number on and before another, that passes a test.
fn first_left<F: Fn(&Row) -> bool>(run: &Run<'_>, from: u32, end: u32, test: F) -> Option<u32>
    requires { F.IsAlwaysCallable test }
{
    let mut next = from;
    for _row in from..end {
        let number = run.state.next_unfinished(next)?;
        if number >= end {
            return None;
        }
        if test(&run.row(number)?) {
            return Some(number);
        }
        next = number.saturating_add(1);
    }
    None
}

// Returns the first incomplete row before a row in its chain, other than a linked timeout.
fn first_in_chain(run: &Run<'_>, number: u32, row: &Row) -> Option<u32> {
    first_left(
        run,
        row.unit,
        number,
        |other| other.unit == row.unit && !is_guard(other),
    )
}

// Returns the first incomplete row of an earlier chain, if that chain or the row's own drains.
fn first_before_drain(run: &Run<'_>, row: &Row) -> Option<u32> {
    let own = drains(run, row.unit);
    first_left(run, 0, row.unit, |other| own || drains(run, other.unit))
}

// Returns which row a queued row waits for, and by which rule.
fn waits_for(run: &Run<'_>, number: u32, row: &Row) -> Text {
    let (by, rule) = match first_in_chain(run, number, row) {
        Some(by) => (Some(by), LINK_RULE),
        None => (first_before_drain(run, row), DRAIN_RULE),
    };
    match run.name_if_any(by) {
        Some(name) => {
            format!(in run.alloc();
                "It is queued, and waits for row {name}, which has not completed {rule}."
            )
        }
        None => String::from_str(run.alloc(), "It is queued."),
    }
}

// Returns why a queued LINK_TIMEOUT hasn't completed.
fn queued_guard(run: &Run<'_>, row: &Row) -> Text {
    match run.name(row.target.unwrap_or(0)) {
        Some(name) => {
            format!(in run.alloc();
                "It is queued, and is issued with its target, row {name} {LINK_TIMEOUT_RULE}."
            )
        }
        None => String::from_str(run.alloc(), "It is queued."),
    }
}

fn queued(run: &Run<'_>, number: u32, row: &Row, refusal: Option<Refusal>) -> Text {
    if is_guard(row) {
        return queued_guard(run, row);
    }
    match refusal {
        Some(_) => waits_for(run, number, row),
        None => String::from_str(
            run.alloc(),
            "It is queued and could be issued: the run just ends before that.",
        ),
    }
}

// Returns how many completions an issued TIMEOUT counts to, and how many are missing.
fn lacking(run: &Run<'_>, row: &Row) -> Text {
    let needed = row.entry.off;
    if is_guard(row) || needed == 0 {
        return Ok(String::new(run.alloc()));
    }
    let counted = run.number(Place::Counted);
    let missing = needed.saturating_sub(counted.saturating_sub(u64::from(row.base)));
    let needed = Counted::completions(needed);
    format!(in run.alloc(); "; it would also complete after {needed} ({missing} still missing)")
}

fn timer(run: &Run<'_>, row: &Row, refusal: Option<Refusal>) -> Text {
    let rule = if is_guard(row) {
        LINK_TIMEOUT_RULE
    } else {
        TIMEOUT_RULE
    };
    let lacking = lacking(run, row)?;
    match refusal {
        Some(_) => format!(in run.alloc(); "It is issued, and its time is not up{lacking} {rule}."),
        None => String::from_str(
            run.alloc(),
            "It is issued and due: the run just ends before it expires.",
        ),
    }
}

fn issued(run: &Run<'_>, row: &Row, refusal: Option<Refusal>) -> Text {
    if is_timer(row.entry.opcode) {
        return timer(run, row, refusal);
    }
    match refusal {
        Some(Refusal::NotReady) => waits(run, row),
        _ => String::from_str(
            run.alloc(),
            "It is issued and could complete: the run just ends before that.",
        ),
    }
}

// Returns the event by which a row is issued or completes next.
fn next_event(number: u32, row: &Row) -> Event {
    match row.phase {
        Phase::Queued => Event::Issue(number),
        _ if is_timer(row.entry.opcode) => Event::Expire(number),
        _ => Event::Finish(number, Choice::Full),
    }
}

// Returns why a row hasn't completed. `refusal` is that of its next event, if that is refused.
fn reason(run: &Run<'_>, number: u32, row: &Row, refusal: Option<Refusal>) -> Text {
    match row.phase {
        Phase::Queued => queued(run, number, row, refusal),
        Phase::Issued | Phase::Ended(_) => issued(run, row, refusal),
    }
}

/// Returns the sentence of a request that hasn't completed.
pub(crate) fn unfinished(run: &Run<'_>, verdict: Verdict, number: u32) -> Text {
    let Some(row) = run.row(number) else {
        return Ok(String::new(run.alloc()));
    };
    let name = RowName::new(number, &row);
    let refusal = run.state.refuses(next_event(number, &row));
    let reason = reason(run, number, &row, refusal)?;
    let end = match refusal {
        Some(_) => cut_off(verdict),
        None => "",
    };
    format!(in run.alloc(); "Row {name} has not completed. {reason}{end}")
}

/// Returns the sentence that says why a row of a state hasn't completed: for which row or for what
/// it waits.
pub fn why_unfinished(
    alloc: Global,
    setup: &Setup,
    state: &State,
    number: u32,
) -> Result<String, AllocError> {
    let history = History::new(alloc);
    let run = Run {
        setup,
        state,
        events: &[],
        history: &history,
        found: &[],
    };
    let Some(row) = run.row(number) else {
        return Ok(String::new(alloc));
    };
    reason(&run, number, &row, state.refuses(next_event(number, &row)))
}
