//! Sentences about cancels and removals that canceled nothing.

use crate::about::About;
use crate::names::{ResultName, RowName};
use crate::opcode_names::OpcodeName;
use crate::run::{Run, Text};
use entries::{IORING_ASYNC_CANCEL_FD, Row, Sqe};
use opcodes::{Op, uses_descriptor};

fn is_by_descriptor(entry: &Sqe) -> bool {
    entry.opcode == Op::AsyncCancel as u8 && entry.operation_flags & IORING_ASYNC_CANCEL_FD != 0
}

/// Returns the rule of a cancel or a removal.
pub(super) fn rule_of(entry: &Sqe) -> &'static str {
    match Op::from_opcode(entry.opcode) {
        Some(Op::PollRemove) => "(io_uring_enter(2), IORING_OP_POLL_REMOVE)",
        Some(Op::TimeoutRemove) => "(io_uring_enter(2), IORING_OP_TIMEOUT_REMOVE)",
        _ => "(io_uring_enter(2), IORING_OP_ASYNC_CANCEL)",
    }
}

// Returns whether a cancel or removal can match a row with this opcode.
fn fits_opcode(entry: &Sqe, row: &Row) -> bool {
    match Op::from_opcode(entry.opcode) {
        Some(Op::PollRemove) => row.entry.opcode == Op::PollAdd as u8,
        Some(Op::TimeoutRemove) => row.entry.opcode == Op::Timeout as u8,
        _ => row.entry.opcode != Op::LinkTimeout as u8,
    }
}

// Returns which opcodes a cancel or removal matches.
fn what_it_finds(entry: &Sqe) -> &'static str {
    match Op::from_opcode(entry.opcode) {
        Some(Op::PollRemove) => "POLL_REMOVE finds only POLL_ADDs",
        Some(Op::TimeoutRemove) => "TIMEOUT_REMOVE finds only TIMEOUTs",
        _ => "ASYNC_CANCEL finds no LINK_TIMEOUT",
    }
}

// Returns whether a row uses the descriptor that an entry names.
fn names_descriptor(entry: &Sqe, row: &Row) -> bool {
    uses_descriptor(row.entry.opcode) && row.entry.fd == entry.fd
}

// Returns whether a row was submitted before the cancel completed, and has the user_data that the
// cancel names.
fn is_candidate(run: &Run<'_>, about: &About, number: u32, row: &Row) -> bool {
    let queued = matches!(run.times_of(number), Some(times) if times.queued < about.moment);
    queued && number != about.number && row.entry.user_data == about.row.entry.addr
}

fn is_queued(run: &Run<'_>, number: u32, moment: u32) -> bool {
    matches!(run.times_of(number), Some(times) if times.is_queued_at(moment))
}

// Returns how close a row is to a match: 0 if it is no candidate, 1 if its opcode can't match, 2 if
// it has completed, 3 if it is still queued.
fn nearness(run: &Run<'_>, about: &About, number: u32, row: &Row) -> u8 {
    if !is_candidate(run, about, number, row) {
        return 0;
    }
    if !fits_opcode(&about.row.entry, row) {
        return 1;
    }
    if is_queued(run, number, about.moment) {
        3
    } else {
        2
    }
}

// Returns the row that is closest to a match. Among equals it is the last, but the first of those
// whose opcode can't match.
fn nearest_candidate(run: &Run<'_>, about: &About) -> Option<(u32, Row)> {
    let (mut nearest, mut most) = (None, 0);
    for number in 0..run.row_count() {
        if let Some(row) = run.row(number) {
            let near = nearness(run, about, number, &row);
            if near > most || (near == most && near > 1) {
                (nearest, most) = (Some((number, row)), near);
            }
        }
    }
    nearest
}

// Returns why a cancel did not match a row.
fn reason_of(run: &Run<'_>, about: &About, number: u32, row: &Row) -> Text {
    let name = RowName::new(number, row);
    if !fits_opcode(&about.row.entry, row) {
        let finds = what_it_finds(&about.row.entry);
        return format!(in run.alloc(); "row {name} does not match, as {finds}");
    }
    match run.ended(number) {
        Some(moment) if moment < about.moment => {
            format!(in run.alloc(); "row {name} had completed at event {moment}")
        }
        _ => {
            let operation = OpcodeName(about.row.entry.opcode);
            format!(in run.alloc();
                "row {name} was still queued, and {operation} finds only issued requests"
            )
        }
    }
}

fn reason_by_user_data(run: &Run<'_>, about: &About) -> Text {
    let sought = about.row.entry.addr;
    match nearest_candidate(run, about) {
        Some((number, row)) => reason_of(run, about, number, &row),
        None if about.row.entry.user_data == sought => {
            format!(in run.alloc(); "no other request had user_data {sought}")
        }
        None => format!(in run.alloc(); "no request had user_data {sought}"),
    }
}

// Returns the first queued row that uses the descriptor that a cancel names.
fn queued_user(run: &Run<'_>, about: &About) -> Option<u32> {
    for number in 0..run.row_count() {
        if let Some(row) = run.row(number) {
            if number != about.number
                && names_descriptor(&about.row.entry, &row)
                && is_queued(run, number, about.moment)
            {
                return Some(number);
            }
        }
    }
    None
}

fn reason_by_descriptor(run: &Run<'_>, about: &About) -> Text {
    let fd = about.row.entry.fd;
    match run.name_if_any(queued_user(run, about)) {
        Some(name) => format!(in run.alloc();
            "no issued request held descriptor {fd}; row {name} names it, but was still queued, and ASYNC_CANCEL finds only issued requests"
        ),
        None => format!(in run.alloc(); "no issued request held descriptor {fd}"),
    }
}

// Returns what the result of a cancel that matched nothing means, if it is no error.
fn what_counts(res: i32) -> &'static str {
    if res < 0 {
        return "";
    }
    ", the number of requests that it canceled"
}

/// Returns the sentence of a cancel or removal that matched nothing.
pub(crate) fn not_found(run: &Run<'_>, about: &About) -> Text {
    let name = about.name();
    let rule = rule_of(&about.row.entry);
    let result_name = ResultName(about.result(run));
    let count = what_counts(about.result(run));
    let reason = if is_by_descriptor(&about.row.entry) {
        reason_by_descriptor(run, about)?
    } else {
        reason_by_user_data(run, about)?
    };
    format!(in run.alloc(); "Row {name} completed with {result_name}{count}: {reason} {rule}.")
}

/// Returns the first row from a number on that a cancel matched when it completed, by its user_data
/// or its descriptor.
pub(super) fn next_found(run: &Run<'_>, about: &About, from: u32) -> Option<u32> {
    for number in from..run.row_count() {
        if let Some(row) = run.row(number) {
            if is_found(run, about, number, &row) {
                return Some(number);
            }
        }
    }
    None
}

fn is_found(run: &Run<'_>, about: &About, number: u32, row: &Row) -> bool {
    let issued = matches!(run.times_of(number), Some(times) if times.is_issued_at(about.moment));
    let fits = if is_by_descriptor(&about.row.entry) {
        names_descriptor(&about.row.entry, row)
    } else {
        row.entry.user_data == about.row.entry.addr
    };
    issued && number != about.number && fits && fits_opcode(&about.row.entry, row)
}

// Returns what became of a row that was running.
fn became(run: &Run<'_>, number: u32) -> Text {
    match (run.ended(number), run.result(number)) {
        (Some(moment), Some(res)) => {
            let result_name = ResultName(res);
            format!(in run.alloc(); "it completed at event {moment} with {result_name}")
        }
        _ => String::from_str(run.alloc(), "it has not completed"),
    }
}

// Returns what to avoid until a row completes.
fn advice_of(run: &Run<'_>, number: u32) -> &'static str {
    match run
        .row(number)
        .and_then(|row| Op::from_opcode(row.entry.opcode))
    {
        Some(Op::Read | Op::Write) => {
            ". Until a request completes, its buffer belongs to the kernel"
        }
        _ => "",
    }
}

/// Returns the sentence of a cancel that matched a running request.
pub(crate) fn too_late(run: &Run<'_>, about: &About) -> Text {
    let name = about.name();
    let rule = rule_of(&about.row.entry);
    let found = next_found(run, about, 0);
    let (Some(number), Some(of)) = (found, run.name_if_any(found)) else {
        return format!(in run.alloc(); "Row {name} completed with -114 (EALREADY) {rule}.");
    };
    let became = became(run, number)?;
    let advice = advice_of(run, number);
    format!(in run.alloc();
        "Row {name} completed with -114 (EALREADY): row {of} was already running, and continued; {became}{advice} {rule}."
    )
}
