//! Conflicts between an event and incomplete READs and WRITEs that are not ordered with it.
ghost use Rattle.std.specs.Prelude.{◌≡◌, ◌==◌};
ghost use Rattle.finding_rules.specs.{is_at_position, has_drain_flag, drains, is_before_in_drain, meet, moved, is_good, is_in_buffer, is_same_file, number_or_zero, position_at, begins, is_placed, is_over, is_by_position, is_between, is_after_barrier, is_ordered_after, is_candidate, is_synced_early, would_conflict, is_conflict, conflicts};

use crate::effect::{Effect, is_transfer};
use crate::files::{is_same_descriptor, is_same_file};
use crate::requests::row_at;
use crate::transition::Transition;
use entries::{IOSQE_IO_DRAIN, Phase, Row, Sqe};
use finding_kinds::{ConflictKind, MOST_ROWS, Verdict, descriptor_number};
use links_drains::{is_guard, is_issued, is_unfinished};
use machine::{Setup, State};
use opcodes::Op;
use places::{Place, Value};

/// The offset -1: the transfer uses the position of its descriptor.
const AT_POSITION: u64 = 18446744073709551615;

/// Returns whether two ranges overlap, each given by its first number and its length.
pub(crate) fn meet(first: u64, count: u64, other: u64, others: u64) -> bool
    ensures { result ≡ meet first count other others }
{
    let start = u128::from(first.max(other));
    let end = (u128::from(first) + u128::from(count)).min(u128::from(other) + u128::from(others));
    start < end
}

/// Returns how many bytes a request moved; 0 if it is incomplete or failed.
pub(crate) fn moved(phase: Phase) -> u64
    ensures { result ≡ moved phase }
{
    match phase {
        Phase::Ended(res) if res >= 0 => res as u64,
        _ => 0,
    }
}

fn is_good(phase: Phase) -> bool
    ensures { result ≡ is_good phase }
{
    matches!(phase, Phase::Ended(res) if res >= 0)
}

fn is_in_buffer(address: u64, count: u64, row: &Row) -> bool
    ensures { result ≡ is_in_buffer address count row.now }
{
    meet(address, count, row.entry.addr, row.entry.len as u64)
}

fn is_write(entry: &Sqe) -> bool
    ensures { result ≡ (entry.now.opcode == 23) }
{
    entry.opcode == Op::Write as u8
}

fn is_at_position(entry: &Sqe) -> bool
    ensures { result ≡ is_at_position entry.now }
{
    entry.off == AT_POSITION
}

// Returns whether two entries use the position of the same descriptor.
fn is_by_position(setup: &Setup, first: &Sqe, second: &Sqe) -> bool
    ensures { result ≡ is_by_position setup.now first.now second.now }
{
    is_at_position(first)
        && (is_at_position(second)
            && (is_same_descriptor(first, second) && is_same_file(setup, first, second)))
}

/// Returns the number in an optional value, or 0.
pub(crate) fn number_or_zero(value: Option<Value>) -> u64
    ensures { result ≡ number_or_zero value }
{
    match value {
        Some(Value::Number(number)) => number,
        _ => 0,
    }
}

// Returns the position of the descriptor that the entry names.
fn position_at(state: &State, entry: &Sqe) -> u64
    ensures { result ≡ position_at state.now entry.now }
{
    match descriptor_number(entry.fd) {
        Some(fd) => number_or_zero(state.value(Place::Position(fd))),
        None => 0,
    }
}

/// Returns the file offset at which a transfer of `count` bytes began, by the state after it.
pub(crate) fn begins(state: &State, count: u64, entry: &Sqe) -> u64
    ensures { result ≡ begins state.now count entry.now }
{
    if is_at_position(entry) {
        position_at(state, entry).saturating_sub(count)
    } else {
        entry.off
    }
}

// Returns whether the offset of a request is known: it is given, or the request is issued.
fn is_placed(row: &Row) -> bool
    ensures { result ≡ is_placed row.now }
{
    !is_at_position(&row.entry) || is_issued(row)
}

// Returns whether the file range that a completed request moved overlaps the range of another.
// False if both use one position, which `SharedPosition` covers.
fn is_over(setup: &Setup, state: &State, count: u64, done: &Sqe, row: &Row) -> bool
    ensures { result ≡ is_over setup.now state.now count done.now row.now }
{
    if !is_placed(row) || is_by_position(setup, done, &row.entry) {
        return false;
    }
    let first = begins(state, count, done);
    let other = begins(state, 0, &row.entry);
    meet(first, count, other, row.entry.len as u64)
}

// ---- order

fn has_drain_flag(row: &Row) -> bool
    ensures { result ≡ has_drain_flag row.now }
{
    row.entry.flags & IOSQE_IO_DRAIN != 0
}

// Returns whether a chain drains. Its requests are consecutive in the table.
fn drains(state: &State, unit: u32) -> bool
    ensures { result ≡ drains state.now.table unit }
{
    let _first = row_at(state, unit);
    for number in unit..MOST_ROWS {
        match row_at(state, number) {
            Some(row) if row.unit == unit => {
                if has_drain_flag(&row) {
                    return true;
                }
            }
            _ => return false,
        }
    }
    false
}

fn is_before_in_drain(state: &State, row: &Row, before: &Row) -> bool
    ensures { result ≡ is_before_in_drain state.now.table row.now before.now }
{
    before.unit < row.unit && (drains(state, before.unit) || drains(state, row.unit))
}

// Returns whether `other` is an incomplete request of a draining chain that lies between the chains
// of `before` and `row`.
fn is_between(state: &State, row: &Row, before: &Row, other: &Row) -> bool
    ensures { result ≡ is_between state.now.table row.now before.now other.now }
{
    (before.unit < other.unit && other.unit < row.unit)
        && (is_unfinished(other) && drains(state, other.unit))
}

// Returns whether a draining chain between two others orders `row` after `before`. Only requests
// from the start of the earlier chain on can belong to it.
fn is_after_barrier(state: &State, row: &Row, before: &Row) -> bool
    ensures { result ≡ is_after_barrier state.now.table row.now before.now }
{
    let _first = row_at(state, before.unit);
    for number in before.unit..MOST_ROWS {
        match row_at(state, number) {
            Some(other) => {
                if is_between(state, row, before, &other) {
                    return true;
                }
            }
            None => return false,
        }
    }
    false
}

// Returns whether `row` is ordered after `before`.
fn is_ordered_after(state: &State, number: u32, row: &Row, other: u32, before: &Row) -> bool
    ensures { result ≡ is_ordered_after state.now.table number row.now other before.now }
{
    (before.unit == row.unit && (other < number && !is_guard(before)))
        || (is_before_in_drain(state, row, before) || is_after_barrier(state, row, before))
}

// ---- kinds

/// Returns whether the request is an incomplete READ or WRITE.
pub fn is_candidate(row: &Row) -> bool
    ensures { result ≡ is_candidate row.now }
{
    is_transfer(row) && is_unfinished(row)
}

// Returns whether `done` is an FSYNC without error and `row` an earlier WRITE of at least one byte
// to its file.
fn is_synced_early(setup: &Setup, number: u32, done: &Row, other: u32, row: &Row) -> bool
    ensures { result ≡ is_synced_early setup.now number done.now other row.now }
{
    done.entry.opcode == Op::Fsync as u8
        && (is_good(done.phase)
            && (other < number
                && (is_write(&row.entry)
                    && (0 < row.entry.len && is_same_file(setup, &done.entry, &row.entry)))))
}

// Returns whether the completion of `done` conflicts with `row`, whatever their order.
fn would_conflict(
    kind: ConflictKind,
    at: Transition<'_>,
    number: u32,
    done: &Row,
    other: u32,
    row: &Row,
) -> bool
    ensures { result
        ≡ would_conflict kind at.entry.setup.now at.entry.state.now number done.now other
        row.now }
{
    let count = moved(done.phase);
    match kind {
        ConflictKind::BufferInUse => {
            done.entry.opcode == Op::Read as u8 && is_in_buffer(done.entry.addr, count, row)
        }
        ConflictKind::Unordered => {
            (is_write(&done.entry) || is_write(&row.entry))
                && (is_over(at.setup, at.state, count, &done.entry, row)
                    && is_same_file(at.setup, &done.entry, &row.entry))
        }
        ConflictKind::SharedPosition => {
            (0 < count && 0 < row.entry.len) && is_by_position(at.setup, &done.entry, &row.entry)
        }
        ConflictKind::FsyncEarly(Verdict::Fault) => false,
        ConflictKind::FsyncEarly(Verdict::Note) => {
            is_synced_early(at.setup, number, done, other, row)
        }
    }
}

fn is_conflict(
    kind: ConflictKind,
    at: Transition<'_>,
    effect: &Effect,
    number: u32,
    row: &Row,
) -> bool
    ensures { result ≡ is_conflict kind at.entry.setup.now at.entry.state.now effect.now number
        row.now }
{
    match effect {
        Effect::Nothing => false,
        Effect::Stored(address, count) => {
            matches!(kind, ConflictKind::BufferInUse) && is_in_buffer(*address, *count, row)
        }
        Effect::Finished(by, done) => {
            would_conflict(kind, at, *by, done, number, row)
                && !is_ordered_after(at.state, number, row, *by, done)
        }
    }
}

/// Returns whether the event's deed is a finding of this kind about an incomplete READ or WRITE.
pub fn conflicts(
    kind: ConflictKind,
    at: Transition<'_>,
    effect: &Effect,
    number: u32,
    row: &Row,
) -> bool
    ensures { result ≡ conflicts kind at.entry.setup.now at.entry.state.now effect.now number
        row.now }
{
    is_candidate(row) && is_conflict(kind, at, effect, number, row)
}
