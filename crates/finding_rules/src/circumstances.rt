//! What a finding about a completed request depends on besides the request (read(2), write(2),
//! io_uring_enter(2)).
ghost use Rattle.std.specs.Prelude.{◌≡◌, ◌==◌, ◌&&◌, not, false};
ghost use Rattle.finding_rules.specs.{list_any, is_number, is_verdict, moved, file_of, ends_before, is_short_of_end, is_later, member_of, is_expiry_of, limits, expires_over, could_finish, has_ready_target, expires_over_ready, was_canceled, has_canceled_target, is_severed_in, noted};

use crate::completed::{Completed, Member};
use crate::conflicts::{begins, moved, number_or_zero};
use crate::ends::{continues, is_canceled, result_in};
use crate::files::file_of;
use crate::requests::row_at;
use crate::transition::Transition;
use crate::uses::is_number;
use entries::{Choice, Row};
use finding_kinds::Verdict;
use links_drains::is_guard;
use machine::{Event, State};
use opcodes::Op;
use places::Place;

/// Returns whether the verdict is the right one of a finding that is a fault exactly if the test
/// holds.
pub(crate) fn is_verdict(verdict: Verdict, test: bool) -> bool
    ensures { result ≡ is_verdict verdict test }
{
    match verdict {
        Verdict::Fault => test,
        Verdict::Note => !test,
    }
}

// ---- short transfers

// Returns whether the `count` bytes that the transfer moved ended before the end of the file.
fn ends_before(state: &State, count: u64, row: &Row, object: u32) -> bool
    ensures { result ≡ ends_before state.now count row.now.entry object }
{
    let end = u128::from(begins(state, count, &row.entry)) + u128::from(count);
    end < u128::from(number_or_zero(state.value(Place::FileLength(object))))
}

/// Returns whether the request is a WRITE, or a READ of a regular file that stopped before the
/// file's end.
pub(crate) fn is_short_of_end(at: Transition<'_>, row: &Row) -> bool
    ensures { result ≡ is_short_of_end at.entry.setup.now at.entry.state.now row.now }
{
    row.entry.opcode == Op::Write as u8
        || matches!(
            file_of(at.setup, row.entry.fd),
            Some(object) if ends_before(at.state, moved(row.phase), row, object)
        )
}

// ---- chains

// Returns whether the second request is a later one of the first one's chain.
fn is_later(member: Member, other: Member) -> bool
    ensures { result ≡ is_later member other }
{
    member.number < other.number && other.unit == member.unit
}

fn has_later(members: &[Member], member: Member) -> bool
    ensures { result ≡ list_any (is_later member) members.now }
{
    members.iter().any(|other| is_later(member, *other))
}

fn member_of(number: u32, row: &Row) -> Member
    ensures { result ≡ member_of number row.now }
{
    Member {
        number,
        unit: row.unit,
    }
}

/// Returns whether the event canceled a later request of the chain.
pub(crate) fn severs_others(
    at: Transition<'_>,
    completed: &Completed,
    number: u32,
    row: &Row,
) -> bool
    ensures { result ≡ (noted at.entry.setup.now completed.now.severing.items
        completed.now.canceled.items at.entry.before at.entry.event at.entry.state.now
        number row.now).severs_others }
{
    continues(at.state, number, row) && has_later(&completed.canceled, member_of(number, row))
}

// Returns whether an earlier request severed the member's chain.
fn is_severed(severing: &[Member], canceled: &[Member], member: Member) -> bool
    ensures { result ≡ is_severed_in severing.now canceled.now member }
{
    severing.iter().any(|other| is_later(*other, member) && has_later(canceled, *other))
}

// Returns whether an earlier request severed the chain of the request. The first request of a chain
// has no earlier one.
fn is_row_severed(completed: &Completed, number: u32, row: &Row) -> bool
    ensures { result ≡ (not (row.now.unit == number) && is_severed_in
        completed.now.severing.items completed.now.canceled.items
        (member_of number row.now)) }
{
    row.unit != number
        && is_severed(
            &completed.severing,
            &completed.canceled,
            member_of(number, row),
        )
}

// ---- linked timeouts

// Returns whether the request is the linked timeout of another.
fn limits(number: u32, row: &Row) -> bool
    ensures { result ≡ limits number row.now }
{
    is_guard(row) && is_number(row.target, number)
}

// Returns whether the event is the expiry of the linked timeout of a request.
fn expires_over(state: &State, event: Event, number: u32) -> bool
    ensures { result ≡ expires_over state.now.table event number }
{
    match event {
        Event::Expire(guard) => {
            matches!(row_at(state, guard), Some(row) if limits(number, &row))
        }
        _ => false,
    }
}

/// Returns whether another finding of the event names a canceled request: an earlier request of its
/// chain severed it, or its linked timeout expired.
pub(crate) fn is_named(at: Transition<'_>, completed: &Completed, number: u32, row: &Row) -> bool
    ensures { result ≡ (noted at.entry.setup.now completed.now.severing.items
        completed.now.canceled.items at.entry.before at.entry.event at.entry.state.now
        number row.now).is_named }
{
    is_row_severed(completed, number, row) || expires_over(at.state, at.event, number)
}

fn could_finish(state: &State, number: u32) -> bool
    ensures { result ≡ could_finish state.now number }
{
    state.refuses(Event::Finish(number, Choice::Full)).is_none()
}

// Returns whether the request is a linked timeout whose target could complete in full.
fn has_ready_target(state: &State, row: &Row) -> bool
    ensures { result ≡ has_ready_target state.now row.now }
{
    is_guard(row) && matches!(row.target, Some(number) if could_finish(state, number))
}

/// Returns whether the event is the expiry of a linked timeout whose target could complete in full,
/// by the state before it.
pub(crate) fn expires_over_ready(state: &State, event: Event) -> bool
    ensures { result ≡ expires_over_ready state.now event }
{
    let Event::Expire(number) = event else {
        return false;
    };
    matches!(row_at(state, number), Some(row) if has_ready_target(state, &row))
}

fn was_canceled(row: &Row) -> bool
    ensures { result ≡ was_canceled row.now }
{
    matches!(result_in(row.phase), Some(res) if is_canceled(res))
}

fn has_canceled_target(state: &State, row: &Row) -> bool
    ensures { result ≡ has_canceled_target state.now.table row.now }
{
    let Some(target) = row.target else {
        return false;
    };
    matches!(row_at(state, target), Some(row) if was_canceled(&row))
}

/// Returns whether the event is the expiry of this linked timeout, and canceled its target though
/// that could have completed.
pub(crate) fn was_ready(at: Transition<'_>, number: u32, row: &Row) -> bool
    ensures { result ≡ (is_expiry_of number at.entry.event && (at.entry.before.was_ready
        && has_canceled_target at.entry.state.now.table row.now)) }
{
    match at.event {
        Event::Expire(guard) => {
            guard == number && (at.before.was_ready && has_canceled_target(at.state, row))
        }
        _ => false,
    }
}
