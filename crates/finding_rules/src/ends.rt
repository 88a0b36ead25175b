//! Findings about requests that an event submits or completes (io_uring_enter(2)).
ghost use Rattle.std.specs.Prelude.{◌≡◌, ◌+◌, ◌&&◌, false, slice_get};
ghost use Rattle.finding_rules.specs.{option_map_or, is_bad, is_transfer, is_guard, is_linked, was_issued, result_in, ending_of, is_error, is_less, is_reported_apart, severs, next_in, has_next, leaves_chain, is_of, has_idle_field, comes_as, ended_test, queued_test, is_severing, cancels, continues, depends_on_others, is_notable, noted};

use crate::circumstances::{is_named, is_short_of_end, is_verdict, severs_others, was_ready};
use crate::completed::Completed;
use crate::effect::is_transfer;
use crate::requests::row_at;
use crate::transition::Transition;
use crate::twins::has_twin;
use entries::{
    EALREADY, ECANCELED, ENOENT, ETIME, IOSQE_IO_HARDLINK, IOSQE_IO_LINK, Phase, Row, Sqe,
};
use finding_kinds::{EndedKind, QueuedKind, distance_to_next};
use links_drains::{is_guard, is_soft_linked};
use machine::State;
use opcodes::{Op, is_cancel, is_timer};

fn was_issued(before: &Option<Row>) -> bool
    ensures { result ≡ was_issued before.now }
{
    matches!(before, Some(row) if matches!(row.phase, Phase::Issued))
}

/// Returns the result of a completed request.
pub(crate) fn result_in(phase: Phase) -> Option<i32>
    ensures { result ≡ result_in phase }
{
    match phase {
        Phase::Ended(res) => Some(res),
        Phase::Queued | Phase::Issued => None,
    }
}

// Returns the result with which the event completes the request, if it does.
fn ending_of(before: &Option<Row>, row: &Row) -> Option<i32>
    ensures { result ≡ ending_of before.now row.now }
{
    if matches!(before, Some(row) if matches!(row.phase, Phase::Ended(_))) {
        return None;
    }
    result_in(row.phase)
}

// Returns whether a result is this error.
fn is_error(errno: u32, res: i32) -> bool
    ensures { result ≡ is_error errno res }
{
    res < 0 && res.unsigned_abs() == errno
}

/// Returns whether a result is ECANCELED.
pub(crate) fn is_canceled(res: i32) -> bool
    ensures { result ≡ is_error 125 res }
{
    is_error(ECANCELED as u32, res)
}

fn is_bad(row: &Row, res: i32) -> bool
    ensures { result ≡ is_bad row.now res }
{
    if is_transfer(row) {
        return !(res >= 0 && res as u32 == row.entry.len);
    }
    !is_guard(row) && res < 0
}

// Returns whether another kind than `Failed` covers the error.
fn is_reported_apart(row: &Row, res: i32) -> bool
    ensures { result ≡ is_reported_apart row.now res }
{
    is_canceled(res)
        || (is_timer(row.entry.opcode) && is_error(ETIME as u32, res)
            || (is_cancel(row.entry.opcode)
                && (is_error(ENOENT as u32, res) || is_error(EALREADY as u32, res))))
}

// Returns whether a soft-linked request failed or was short itself, rather than being canceled with
// its chain.
fn severs(before: &Option<Row>, row: &Row, res: i32) -> bool
    ensures { result ≡ severs before.now row.now res }
{
    is_soft_linked(row) && (is_bad(row, res) && (was_issued(before) || !is_canceled(res)))
}

/// Returns whether the chain of the request has a later request, besides its linked timeout.
pub fn continues(state: &State, number: u32, row: &Row) -> bool
    ensures { result ≡ continues state.now.table number row.now }
{
    matches!(next_in(state, number), Some(other) if other.unit == row.unit)
}

/// Returns whether the event completes the request, and it severs its chain.
pub fn is_severing(before: &Option<Row>, row: &Row) -> bool
    ensures { result ≡ is_severing before.now row.now }
{
    matches!(ending_of(before, row), Some(res) if severs(before, row, res))
}

/// Returns whether a finding about the completion of the request can depend on other requests that
/// the event completes: the request was canceled, or it severs its chain.
pub fn depends_on_others(before: &Option<Row>, row: &Row) -> bool
    ensures { result ≡ depends_on_others before.now row.now }
{
    matches!(ending_of(before, row), Some(res) if is_canceled(res) || severs(before, row, res))
}

/// Returns whether the event completes the request, and that can be a finding: with an error, or
/// short.
pub fn ends_notably(before: &Option<Row>, row: &Row) -> bool
    ensures { result ≡ option_map_or (is_notable row.now) (ending_of before.now row.now) false }
{
    matches!(
        ending_of(before, row),
        Some(res) if res < 0 || (is_bad(row, res) || is_short(row, res))
    )
}

/// Returns whether the event cancels the request, and it is no linked timeout.
pub fn cancels(before: &Option<Row>, row: &Row) -> bool
    ensures { result ≡ cancels before.now row.now }
{
    !is_guard(row) && matches!(ending_of(before, row), Some(res) if is_canceled(res))
}

// Returns the request that is `count` after the given one, if there is one.
fn row_after(state: &State, number: u32, count: u32) -> Option<Row>
    ensures { result ≡ slice_get state.now.table (number + count) }
{
    let _row = row_at(state, number);
    row_at(state, number.checked_add(count)?)
}

// Returns the request after the given one, skipping a linked timeout.
fn next_in(state: &State, number: u32) -> Option<Row>
    ensures { result ≡ next_in state.now.table number }
{
    row_after(state, number, distance_to_next(state, number))
}

// Returns whether the chain of the request has another member after it, besides a linked timeout.
fn has_next(row: &Row, state: &State, number: u32) -> bool
    ensures { result ≡ has_next row.now (next_in state.now.table number) }
{
    matches!(next_in(state, number), Some(other) if other.unit == row.unit && !is_guard(&other))
}

// Returns whether a hard-linked request fails or is short, and its chain continues.
fn leaves_chain(before: &Option<Row>, row: &Row, res: i32) -> bool
    ensures { result ≡ leaves_chain before.now row.now res }
{
    row.entry.flags & IOSQE_IO_HARDLINK != 0
        && (is_bad(row, res) && (was_issued(before) || (before.is_some() && !is_canceled(res))))
}

// Returns whether a READ or WRITE moved fewer bytes than requested.
fn is_short(row: &Row, res: i32) -> bool
    ensures { result ≡ (is_transfer row.now.entry.opcode && is_less res row.now.entry.len) }
{
    is_transfer(row) && (res >= 0 && (res as u32) < row.entry.len)
}

// Returns whether completing with this result is a finding of this kind.
fn is_of(
    kind: EndedKind,
    at: Transition<'_>,
    completed: &Completed,
    before: &Option<Row>,
    number: u32,
    row: &Row,
    res: i32,
) -> bool
    ensures { result ≡ is_of kind (noted at.entry.setup.now completed.now.severing.items
        completed.now.canceled.items at.entry.before at.entry.event at.entry.state.now
        number row.now) before.now row.now (next_in at.entry.state.now.table number) res }
{
    match kind {
        EndedKind::Failed => res < 0 && !is_reported_apart(row, res),
        EndedKind::Short(verdict) => {
            is_short(row, res) && is_verdict(verdict, is_short_of_end(at, row))
        }
        EndedKind::Severed => severs(before, row, res) && severs_others(at, completed, number, row),
        EndedKind::Canceled => is_canceled(res) && !is_named(at, completed, number, row),
        EndedKind::TimedOut(verdict) => {
            (is_guard(row) && is_error(ETIME as u32, res))
                && is_verdict(verdict, was_ready(at, number, row))
        }
        EndedKind::Expired => row.entry.opcode == Op::Timeout as u8 && is_error(ETIME as u32, res),
        EndedKind::NotFound => is_cancel(row.entry.opcode) && is_error(ENOENT as u32, res),
        EndedKind::TooLate => is_cancel(row.entry.opcode) && is_error(EALREADY as u32, res),
        EndedKind::WentOn => leaves_chain(before, row, res) && has_next(row, at.state, number),
    }
}

// Returns whether a field that has no effect isn't 0.
fn has_idle_field(entry: &Sqe) -> bool
    ensures { result ≡ has_idle_field entry.now }
{
    entry.ioprio != 0
        || (entry.buf_index != 0
            || (entry.personality != 0 || entry.splice_fd_in.unsigned_abs() != 0))
}

fn is_linked(entry: &Sqe) -> bool
    ensures { result ≡ is_linked entry.now }
{
    entry.flags & IOSQE_IO_LINK != 0 || entry.flags & IOSQE_IO_HARDLINK != 0
}

// Returns whether submitting the request is a finding of this kind, by the state after the event.
fn comes_as(kind: QueuedKind, state: &State, number: u32, row: &Row) -> bool
    ensures { result ≡ comes_as kind state.now.table number row.now }
{
    match kind {
        QueuedKind::CutOff => is_linked(&row.entry) && row_after(state, number, 1).is_none(),
        QueuedKind::NoEffect => has_idle_field(&row.entry),
        QueuedKind::SameUserData => has_twin(state, number, row),
    }
}

/// Returns whether the event completes the request, and that is a finding of this kind. `before` is
/// the request before the event, `row` after it.
pub fn ended_test(
    kind: EndedKind,
    at: Transition<'_>,
    completed: &Completed,
    before: &Option<Row>,
    number: u32,
    row: &Row,
) -> bool
    ensures { result ≡ ended_test kind (noted at.entry.setup.now
        completed.now.severing.items completed.now.canceled.items
        at.entry.before at.entry.event at.entry.state.now number row.now) before.now
        at.entry.state.now.table number row.now }
{
    matches!(
        ending_of(before, row),
        Some(res) if is_of(kind, at, completed, before, number, row, res)
    )
}

/// Returns whether the event submits the request, and that is a finding of this kind.
pub fn queued_test(
    kind: QueuedKind,
    before: &Option<Row>,
    state: &State,
    number: u32,
    row: &Row,
) -> bool
    ensures { result ≡ queued_test kind before.now state.now.table number row.now }
{
    before.is_none() && comes_as(kind, state, number, row)
}
