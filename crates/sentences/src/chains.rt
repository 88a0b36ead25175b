//! Sentences about broken and unbroken links, and about rows that were canceled.

use crate::about::About;
use crate::cancels::rule_of;
use crate::listing::Listing;
use crate::names::ResultName;
use crate::rules::{ERROR_RULE, LINK_RULE, LINK_TIMEOUT_RULE};
use crate::run::{Run, Text};
use entries::{IOSQE_IO_HARDLINK, Row};
use finding_kinds::{MOST_ROWS, distance_to_next};
use machine::Event;

const HARD_RULE: &str = "(io_uring_enter(2), IOSQE_IO_HARDLINK)";

// Returns the rule of a row's link.
fn rule_of_link(row: Option<Row>) -> &'static str {
    match row {
        Some(row) if row.entry.flags & IOSQE_IO_HARDLINK != 0 => HARD_RULE,
        _ => LINK_RULE,
    }
}

// Lists the later rows of a row's chain that completed with ECANCELED by the same event. The rows
// of a chain are consecutive.
fn canceled_rows(run: &Run<'_>, about: &About) -> Text {
    let mut rows = Listing::new(run.alloc());
    for number in about.number.saturating_add(1)..MOST_ROWS {
        match run.row(number) {
            Some(row) if row.unit == about.row.unit => {
                if run.is_canceled_at(number, about.moment) {
                    rows.add(run, number)?;
                }
            }
            _ => break,
        }
    }
    rows.finish(run.alloc())
}

/// Returns the sentence of a soft link that broke, with the rows that it canceled.
pub(crate) fn severed(run: &Run<'_>, about: &About) -> Text {
    let name = about.name();
    let result_name = ResultName(about.result(run));
    let rows = canceled_rows(run, about)?;
    format!(in run.alloc();
        "Row {name} completed with {result_name}, which broke its soft link. It canceled {rows}, with -125 (ECANCELED) {LINK_RULE}."
    )
}

// Returns the row that failed as the chain was submitted.
fn failing(run: &Run<'_>, about: &About) -> Option<u32> {
    if run.times_of(about.number)?.queued != about.moment {
        return None;
    }
    run.failing(about.index, about.number, about.moment)
}

// Returns the row that canceled a row, if there is one, what it did, and by which rule: a row of its
// chain, its target, or a cancel or removal. A row after a broken soft link, or whose LINK_TIMEOUT
// expired, is named by the finding about that instead.
fn cause_of(run: &Run<'_>, about: &About) -> (Option<u32>, &'static str, &'static str) {
    if let Some(by) = failing(run, about) {
        let linked = about.number.saturating_sub(u32::from(by < about.number));
        let rule = rule_of_link(run.row(linked));
        return (Some(by), ", in its chain, failed as it was submitted", rule);
    }
    match (about.row.target, run.event(about.moment)) {
        (Some(target), _) if run.ends_at(target, about.moment) => {
            (
                Some(target),
                ", its target, completed first",
                LINK_TIMEOUT_RULE,
            )
        }
        (_, Some(Event::Finish(by, _))) if by != about.number => {
            let rule = match run.row(by) {
                Some(row) => rule_of(&row.entry),
                None => ERROR_RULE,
            };
            (Some(by), " canceled it", rule)
        }
        _ => (None, "it was canceled", ERROR_RULE),
    }
}

/// Returns the sentence of a request that was canceled, with the cause.
pub(crate) fn canceled(run: &Run<'_>, about: &About) -> Text {
    let name = about.name();
    let (by, what_it_did, rule) = cause_of(run, about);
    match run.name_if_any(by) {
        Some(by) => format!(in run.alloc();
            "Row {name} completed with -125 (ECANCELED): row {by}{what_it_did} {rule}."
        ),
        None => format!(in run.alloc();
            "Row {name} completed with -125 (ECANCELED): {what_it_did} {rule}."
        ),
    }
}

/// Returns the sentence of a hard-linked row that failed or was short while its chain continued.
pub(crate) fn went_on(run: &Run<'_>, about: &About) -> Text {
    let name = about.name();
    let result_name = ResultName(about.result(run));
    let distance = distance_to_next(run.state, about.number);
    match run.name(about.number.saturating_add(distance)) {
        Some(next) => format!(in run.alloc();
            "Row {name} completed with {result_name}, and its chain continued with row {next}: its link is a hard one {HARD_RULE}."
        ),
        None => Ok(String::new(run.alloc())),
    }
}

/// Returns the sentence of a link from the last entry of a submission.
pub(crate) fn cut_off(run: &Run<'_>, about: &About) -> Text {
    let name = about.name();
    let reason = if !run.setup.submit_all && run.ends_at(about.number, about.moment) {
        "it failed, and the submission stopped there"
    } else {
        "no further entry was submitted with it"
    };
    let rule = rule_of_link(Some(about.row));
    format!(in run.alloc();
        "Row {name} is linked to the next entry, but is the last of its submission: {reason}. A chain ends with its submission, so entries that are submitted later do not wait for it by this link {rule}."
    )
}
