//! The sentence of a finding, by its kind.

use crate::about::About;
use crate::counted::Counted;
use crate::rules::{LINK_TIMEOUT_RULE, TIMEOUT_RULE};
use crate::run::{Run, Text};
use crate::uses::UserPhase;
use crate::{cancels, chains, conflicts, durable, errors, left, matches, rings, uses};
use finding_kinds::{
    CancelKind, ConflictKind, EndedKind, Kind, LastingKind, LeftKind, QueuedKind, StepKind, Verdict,
};
use std::alloc::{AllocError, Global};

const READ_RULE: &str =
    "A READ or WRITE may transfer fewer bytes than requested (read(2), write(2))";

fn short(run: &Run<'_>, about: &About) -> Text {
    let name = about.name();
    let res = about.result(run);
    let requested = Counted::bytes(u64::from(about.row.entry.len));
    let reason = errors::reason_of_short(run, about);
    format!(in run.alloc();
        "Row {name} completed with {res} of {requested}: {reason}. {READ_RULE}."
    )
}

fn expired(alloc: Global, about: &About) -> Text {
    let name = about.name();
    format!(in alloc; "Row {name} completed with -62 (ETIME): its time was up {TIMEOUT_RULE}.")
}

// Returns since when the target of an expired LINK_TIMEOUT could have completed.
fn since(run: &Run<'_>, target: u32) -> Text {
    let Some(times) = run.times_of(target) else {
        return String::from_str(run.alloc(), "was there");
    };
    match times.ready {
        Some(event) if times.issued == Some(event) => {
            format!(in run.alloc(); "was there already when it was issued, at event {event}")
        }
        Some(event) => format!(in run.alloc(); "had been there since event {event}"),
        None => String::from_str(run.alloc(), "was there"),
    }
}

// Returns what became of the target of an expired LINK_TIMEOUT.
fn timed_out(run: &Run<'_>, verdict: Verdict, about: &About) -> Text {
    let name = about.name();
    let target = about.row.target.unwrap_or(0);
    let Some(of) = run.name(target) else {
        return format!(in run.alloc(); "Row {name} expired {LINK_TIMEOUT_RULE}.");
    };
    if let Verdict::Fault = verdict {
        let since = since(run, target)?;
        return format!(in run.alloc();
            "Row {name} expired and canceled its target, row {of}, with -125 (ECANCELED), though what it waited for {since} {LINK_TIMEOUT_RULE}."
        );
    }
    if run.ends_at(target, about.moment) {
        return format!(in run.alloc();
            "Row {name} expired and canceled its target, row {of}, with -125 (ECANCELED). That says nothing about what the target waited for, which may be there by now {LINK_TIMEOUT_RULE}."
        );
    }
    format!(in run.alloc();
        "Row {name} expired, but its target, row {of}, was already running, and continued {LINK_TIMEOUT_RULE}."
    )
}

fn ended_sentence(run: &Run<'_>, kind: EndedKind, about: &About) -> Text {
    match kind {
        EndedKind::Failed => errors::failed(run, about),
        EndedKind::Short(_) => short(run, about),
        EndedKind::Severed => chains::severed(run, about),
        EndedKind::Canceled => chains::canceled(run, about),
        EndedKind::TimedOut(verdict) => timed_out(run, verdict, about),
        EndedKind::Expired => expired(run.alloc(), about),
        EndedKind::NotFound => cancels::not_found(run, about),
        EndedKind::TooLate => cancels::too_late(run, about),
        EndedKind::WentOn => chains::went_on(run, about),
    }
}

fn lasting_sentence(run: &Run<'_>, kind: LastingKind, thread: u32, since: u32) -> Text {
    match kind {
        LastingKind::Waits(verdict) => rings::waits(run, verdict, thread, since),
        LastingKind::LostWakeUp(verdict) => rings::lost_wake_up(run, verdict),
        LastingKind::NotTaken(verdict) => rings::not_taken(run, verdict),
        LastingKind::NotReaped => rings::not_reaped(run),
        LastingKind::Stuck => rings::stuck(run, thread),
    }
}

fn left_sentence(run: &Run<'_>, kind: LeftKind, subject: u32) -> Text {
    match kind {
        LeftKind::Unfinished(verdict) => left::unfinished(run, verdict, subject),
        LeftKind::NotDurable(_) => durable::not_durable(run, subject),
    }
}

fn conflict_sentence(run: &Run<'_>, kind: ConflictKind, about: &About) -> Text {
    match kind {
        ConflictKind::BufferInUse => conflicts::buffer_in_use(run, about),
        ConflictKind::Unordered => conflicts::unordered(run, about),
        ConflictKind::SharedPosition => conflicts::shared_position(run, about),
        ConflictKind::FsyncEarly(_) => conflicts::fsync_early(run, about),
    }
}

fn step_sentence(run: &Run<'_>, kind: StepKind, thread: u32, moment: u32) -> Text {
    match kind {
        StepKind::Busy => rings::busy(run, thread, moment),
        StepKind::TakenShort => rings::taken_short(run, thread, moment),
        StepKind::NoSuchSlot => rings::no_such_slot(run, thread, moment),
        StepKind::SlotInUse => uses::slot_in_use(run, thread, moment),
        StepKind::ClosedEarly => uses::closed(run, thread, moment, UserPhase::Queued),
        StepKind::ClosedWhileHeld => uses::closed(run, thread, moment, UserPhase::Issued),
        StepKind::RefusedFlags => rings::refused_flags(run, thread, moment),
        StepKind::ClosedTwice => uses::closed_twice(run, thread, moment),
    }
}

fn queued_sentence(run: &Run<'_>, kind: QueuedKind, about: &About) -> Text {
    match kind {
        QueuedKind::CutOff => chains::cut_off(run, about),
        QueuedKind::NoEffect => errors::no_effect(run.alloc(), about),
        QueuedKind::SameUserData => matches::same_user_data(run, about),
    }
}

fn cancel_sentence(run: &Run<'_>, kind: CancelKind, about: &About) -> Text {
    match kind {
        CancelKind::NoneFound => cancels::not_found(run, about),
        CancelKind::Several => matches::several(run, about),
        CancelKind::LeftRunning => matches::left_running(run, about),
    }
}

/// Returns the sentence of a finding, by its index in the list of the findings of a run.
pub fn sentence(alloc: Global, run: &Run<'_>, index: usize) -> Result<String, AllocError> {
    let Some(finding) = run.found.get(index) else {
        return Ok(String::new(alloc));
    };
    let (subject, moment) = (finding.subject, finding.moment);
    match (finding.kind, About::new(run, finding, index)) {
        (Kind::Overflow, _) => rings::overflow(run, moment),
        (Kind::Lasting(kind), _) => lasting_sentence(run, kind, subject, moment),
        (Kind::Left(kind), _) => left_sentence(run, kind, subject),
        (Kind::Step(kind), _) => step_sentence(run, kind, subject, moment),
        (Kind::TimespecInUse, _) => conflicts::timespec_in_use(run, subject, moment),
        (Kind::Ended(kind), Some(about)) => ended_sentence(run, kind, &about),
        (Kind::Conflict(kind), Some(about)) => conflict_sentence(run, kind, &about),
        (Kind::Queued(kind), Some(about)) => queued_sentence(run, kind, &about),
        (Kind::Cancel(kind), Some(about)) => cancel_sentence(run, kind, &about),
        (Kind::FsyncRetried, Some(about)) => durable::fsync_retried(run, &about),
        (_, None) => Ok(String::new(alloc)),
    }
}
