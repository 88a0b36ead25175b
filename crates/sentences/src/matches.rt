//! Sentences about cancels that matched several requests, and about requests with the same
//! user_data.

use crate::about::About;
use crate::cancels::{next_found, rule_of};
use crate::listing::Listing;
use crate::names::ResultName;
use crate::run::{Run, Text};
use finding_kinds::LOOKED_BACK;
use opcodes::Op;
use std::alloc::AllocError;

const ALL_RULE: &str = "(io_uring_prep_cancel(3), IORING_ASYNC_CANCEL_ALL)";

const USER_RULE: &str = "(io_uring_enter(2), user_data)";

// Returns the rows that a cancel matched when it completed.
fn found(run: &Run<'_>, about: &About) -> Result<Vec<u32>, AllocError> {
    let mut rows = Vec::new(run.alloc());
    let mut next = next_found(run, about, 0);
    for _row in 0..run.row_count() {
        let Some(number) = next else {
            break;
        };
        rows.push(number)?;
        next = next_found(run, about, number.saturating_add(1));
    }
    Ok(rows)
}

// Returns how a cancel or removal can act on all that it matches.
fn advice(opcode: u8) -> &'static str {
    if opcode == Op::AsyncCancel as u8 {
        return "IORING_ASYNC_CANCEL_ALL cancels all of them that wait";
    }
    "Give each its own user_data"
}

/// Returns the sentence of a cancel or removal of one request that matched several.
pub(crate) fn several(run: &Run<'_>, about: &About) -> Text {
    let name = about.name();
    let result_name = ResultName(about.result(run));
    let rows = found(run, about)?;
    let count = rows.len();
    let Some(least) = run.name_if_any(rows.first().copied()) else {
        return Ok(String::new(run.alloc()));
    };
    let advice = advice(about.row.entry.opcode);
    let rule = rule_of(&about.row.entry);
    format!(in run.alloc();
        "Row {name} completed with {result_name}: it matched {count} issued requests, and acts only on the one with the lowest row number, row {least}. {advice} {rule}."
    )
}

/// Returns the sentence of a cancel of all that left running requests.
pub(crate) fn left_running(run: &Run<'_>, about: &About) -> Text {
    let name = about.name();
    let count = about.result(run);
    let rows = left_rows(run, about)?;
    format!(in run.alloc();
        "Row {name} completed with {count}, the number of requests that it canceled. Matches that were already running continued: {rows} {ALL_RULE}."
    )
}

// Lists the rows that a cancel matched but did not cancel.
fn left_rows(run: &Run<'_>, about: &About) -> Text {
    let mut rows = Listing::new(run.alloc());
    for number in &found(run, about)? {
        if !run.ends_at(*number, about.moment) {
            rows.add(run, *number)?;
        }
    }
    rows.finish(run.alloc())
}

// Returns whether a row was submitted and had not completed after the event in question, and has the
// same user_data.
fn is_alike(run: &Run<'_>, about: &About, number: u32) -> bool {
    match (run.times_of(number), run.row(number)) {
        (Some(times), Some(row)) => {
            !times.has_ended_at(about.moment.saturating_add(1))
                && row.entry.user_data == about.row.entry.user_data
        }
        _ => false,
    }
}

// Returns the last earlier row that is incomplete and has the same user_data.
fn alike(run: &Run<'_>, about: &About) -> Option<u32> {
    let mut earlier = about.number.saturating_sub(LOOKED_BACK)..about.number;
    earlier.rfind(|number| is_alike(run, about, *number))
}

/// Returns the sentence of a request that was submitted with the user_data of an earlier one that
/// hadn't completed.
pub(crate) fn same_user_data(run: &Run<'_>, about: &About) -> Text {
    let name = about.name();
    match run.name_if_any(alike(run, about)) {
        Some(other) => format!(in run.alloc();
            "Row {name} was submitted before row {other} completed, which has the same user_data: user_data alone does not distinguish their completions {USER_RULE}."
        ),
        None => Ok(String::new(run.alloc())),
    }
}
