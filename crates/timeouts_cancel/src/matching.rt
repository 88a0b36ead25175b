//! The requests that ASYNC_CANCEL, POLL_REMOVE and TIMEOUT_REMOVE match (io_uring_enter(2)). A
//! search costs at most twice a scan of the issued requests up to the match.
ghost use Rattle.std.specs.Prelude.{◌≡◌, ◌<◌, Some, IfOk, IfSome, IfNone, length, slice_get, if◌then◌else◌};
ghost use Rattle.entries.specs.declared.row.Row.{Row};
ghost use Rattle.timeouts_cancel.specs.Matches.{holds_number, fits_key, is_match, matches_of, found_by, found_first, user_of, waiting_by, IsMatch, IsNextCandidate, IsNextMatch, NoCandidateFrom, NoMatch, NoMatchFrom};
ghost use Rattle.timeouts_cancel.specs.declared.matching.Key.TheVariants.{Fd, User};

use entries::Row;
use links_drains::{Table, is_guard, is_issued};
use model_files::World;
use opcodes::{Op, is_running};
use std::alloc::AllocError;

/// The criterion by which requests are searched.
#[derive(Clone, Copy)]
pub enum Key {
    /// Any request with this user_data.
    User(u64),
    /// Requests that hold this descriptor, open or closed (IORING_ASYNC_CANCEL_FD).
    Fd(i32),
    /// A POLL_ADD with this user_data.
    Poll(u64),
    /// A TIMEOUT with this user_data.
    Timeout(u64),
}

/// The first match: the one with the smallest number.
#[derive(Clone, Copy)]
pub enum Found {
    /// Nothing matches.
    Absent,
    /// The match is running and cannot be canceled.
    Running(u32),
    /// The match waits and can be canceled.
    Waiting(u32),
}

/// Returns the first issued request with this user_data, except LINK_TIMEOUTs and the request `me`
/// that searches. Doesn't allocate.
pub fn find(table: &Table, world: &World, addr: u64, me: u32) -> Found
    ensures { result ≡ found_by table.now world.now (User addr) me }
{
    find_by(table, world, Key::User(addr), me)
}

/// Returns the first issued request that matches, except LINK_TIMEOUTs and the request `me` that
/// searches. Doesn't allocate.
#[tactic(auto, using(crate::proofs::MatchByMatch::found_next, crate::proofs::MatchByMatch::found_none))]
pub fn find_by(table: &Table, world: &World, key: Key, me: u32) -> Found
    ensures { result ≡ found_by table.now world.now key me }
{
    match next_match(table, key, me, 0) {
        Some((r, row)) => found_as(world, r, &row),
        None => Found::Absent,
    }
}

/// Returns all issued requests that match and are waiting, by ascending number, except
/// LINK_TIMEOUTs and the request `me` that searches.
#[tactic(auto, using(crate::proofs::MatchByMatch::waiting_past))]
pub fn all_by(table: &Table, world: &World, key: Key, me: u32) -> Result<Vec<u32>, AllocError>
    ensures { IfOk result (λ all. all.items ≡ waiting_by table.now world.now key me) }
{
    let mut all = Vec::new(table.allocator());
    let mut from = 0;
    while let Some((r, row)) = next_match(table, key, me, from) {
        if !is_running(world, &row) {
            all.push(r)?;
        }
        from = r + 1;
    }
    Ok(all)
}

/// Returns how many issued requests match, except LINK_TIMEOUTs and the request `me` that searches.
/// Doesn't allocate.
#[tactic(auto, using(crate::proofs::MatchByMatch::count_more, crate::proofs::MatchByMatch::count_past))]
pub fn count_by(table: &Table, key: Key, me: u32) -> u32
    ensures { result ≡ length (matches_of table.now key me) }
{
    let mut count = 0;
    let mut next = 0;
    while let Some((r, _row)) = next_match(table, key, me, next) {
        count += 1;
        next = r + 1;
    }
    count
}

// A match, as running or waiting.
fn found_as(world: &World, r: u32, row: &Row) -> Found
    ensures { result ≡ found_first world.now (Some (r, row.now)) }
{
    if is_running(world, row) {
        Found::Running(r)
    } else {
        Found::Waiting(r)
    }
}

// The first match from a number on.
fn next_match(table: &Table, key: Key, me: u32, from: u32) -> Option<(u32, Row)>
    ensures some { IfSome result (λ p. IsNextMatch table.now key me from p.0 p.1) }
    ensures none { IfNone result (NoMatchFrom table.now key me from) }
    ensures few { IfSome result (λ p. p.0 < 65536) }
{
    match key {
        Key::User(sought) | Key::Poll(sought) | Key::Timeout(sought) => {
            next_with_user(table, key, me, from, sought)
        }
        Key::Fd(number) => next_with_descriptor(table, number, me, from),
    }
}

// The first match from a number on, by two searches in turn: one examines the issued requests by
// ascending number, the other those with the hash of the user_data, by descending number. They stop
// where the first decides, or where they meet.
#[tactic(auto, using(crate::proofs::InTurn::met_few))]
fn next_with_user(table: &Table, key: Key, me: u32, from: u32, user_data: u64) -> Option<(u32, Row)>
    requires { user_of key ≡ Some user_data }
    ensures some { IfSome result (λ p. IsNextMatch table.now key me from p.0 p.1) }
    ensures none { IfNone result (NoMatchFrom table.now key me from) }
    ensures few { IfSome result (λ p. p.0 < 65536) }
{
    prove!(table.len() <= 65536);
    let mut at = from;
    let mut least = None;
    let mut end = table.end_of_user(user_data);
    while at < end {
        let r = table.next_issued(at)?;
        if let Some(found) = matching(table, key, me, r) {
            return Some(found);
        }
        at = r + 1;
        let last = end - 1;
        least = or_later(table, key, me, last, least);
        end = table.end_before(user_data, last);
    }
    least
}

// Request r, if it matches, or else a later match.
fn or_later(
    table: &Table,
    key: Key,
    me: u32,
    r: u32,
    later: Option<(u32, Row)>,
) -> Option<(u32, Row)>
    requires { r < length table.now }
    ensures { (row : Row) → slice_get table.now r ≡ Some row
        → result ≡ (if is_match key me r row then Some (r, row) else later) }
{
    let row = table.row_ref(r);
    if is_match(key, me, r, row) {
        Some((r, *row))
    } else {
        later
    }
}

// The first match from a number on, through the requests that hold the descriptor.
fn next_with_descriptor(table: &Table, number: i32, me: u32, from: u32) -> Option<(u32, Row)>
    ensures some { IfSome result (λ p. IsNextMatch table.now (Fd number) me from p.0 p.1) }
    ensures none { IfNone result (NoMatchFrom table.now (Fd number) me from) }
    ensures few { IfSome result (λ p. p.0 < 65536) }
{
    let mut at = from;
    while let Some(r) = next_holder(table, number, at) {
        if let Some(found) = matching(table, Key::Fd(number), me, r) {
            return Some(found);
        }
        at = r + 1;
    }
    None
}

// The first request from a number on that holds the descriptor. No descriptor is negative.
fn next_holder(table: &Table, number: i32, from: u32) -> Option<u32>
    ensures some { IfSome result (λ r. IsNextCandidate table.now (Fd number) from r) }
    ensures none { IfNone result (NoCandidateFrom table.now (Fd number) from) }
    ensures few { IfSome result (λ r. r < 65536) }
{
    if number < 0 {
        return None;
    }
    table.next_holder(number as u32, from)
}

// Request r, if it matches.
fn matching(table: &Table, key: Key, me: u32, r: u32) -> Option<(u32, Row)>
    requires { r < length table.now }
    ensures some { IfSome result (λ p. IsMatch table.now key me r p) }
    ensures none { IfNone result (NoMatch table.now key me r) }
{
    let row = table.row_ref(r);
    if is_match(key, me, r, row) {
        Some((r, *row))
    } else {
        None
    }
}

fn is_match(key: Key, me: u32, r: u32, row: &Row) -> bool
    ensures { result ≡ is_match key me r row.now }
{
    if !is_issued(row) || is_guard(row) {
        return false;
    }
    r != me && fits_key(key, row)
}

fn fits_key(key: Key, row: &Row) -> bool
    ensures { result ≡ fits_key key row.now }
{
    let (opcode, user_data) = (row.entry.opcode, row.entry.user_data);
    match key {
        Key::User(sought) => user_data == sought,
        Key::Fd(number) => holds_number(row.held, number),
        Key::Poll(sought) => opcode == Op::PollAdd as u8 && user_data == sought,
        Key::Timeout(sought) => opcode == Op::Timeout as u8 && user_data == sought,
    }
}

fn holds_number(held: Option<u32>, number: i32) -> bool
    ensures { result ≡ holds_number held number }
{
    match held {
        Some(fd) => number >= 0 && number as u32 == fd,
        None => false,
    }
}
