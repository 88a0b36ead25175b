//! The memory that undo records take, in bytes.

use crate::tests::starting::{REQUEST_AND_STEP, TWO_REQUESTS, state_of};
use crate::tests::{ONE_NOP, check};
use machine::{Event, State};
use std::alloc::{AllocError, Global};
use std::test::Fail;

/// The size of a record with at most 30 packed bytes, which it holds itself.
const LEAST: usize = 56;

/// The maximum size of the record of a completion or a thread's step, without the bytes that it
/// names.
const OVERHEAD: usize = 288;

/// A page with one nonzero byte is written over zeros, and read over zeros.
const PAGE_WRITTEN_AND_READ: &str =
    r#"{"entries":2,"memory":[[100,"01"]],"objects":[{"name":"f","file":""}],"fds":["f"],"threads":[[["put",0,{"op":23,"fd":3,"len":4096,"ud":1}],["push",0],["put",1,{"op":22,"fd":3,"addr":8192,"len":4096,"ud":2}],["push",1],["enter",2,0,0]]],"schedule":[]}"#;

/// Bytes that are stored over zeros: the first digits, the digits that are repeated, and how often.
/// Last, the maximum size of what the record names. One byte of the page changes, or every second,
/// or all, or none.
const STORED: [(&str, &str, usize, usize); 4] = [
    ("01", "00", 4095, 200),
    ("", "0001", 2048, 4850),
    ("", "01", 4096, 4300),
    ("", "00", 4096, 0),
];

/// The same for a whole file that is synced.
const SYNCED: [(&str, &str, usize, usize); 3] = [
    ("01", "00", 65535, 200),
    ("", "0100", 32768, 74300),
    ("", "01", 65536, 66000),
];

// Runs events, and returns the size of the last one's record.
fn kept_of_last(state: &mut State, events: &[Event]) -> Result<usize, Fail> {
    let mut kept = 0;
    for event in events {
        kept = state.step(*event)?.kept_bytes();
    }
    Ok(kept)
}

// Does the same from the start of a script.
fn kept(alloc: Global, text: &str, events: &[Event]) -> Result<usize, Fail> {
    let mut state = state_of(alloc, text)?;
    kept_of_last(&mut state, events)
}

// Builds digits: a beginning, and then a repeated part.
fn digits(alloc: Global, first: &str, next: &str, times: usize) -> Result<String, AllocError> {
    let mut digits = String::new(alloc);
    digits.push_str(first)?;
    for _ in 0..times {
        digits.push_str(next)?;
    }
    Ok(digits)
}

// Builds the script of a thread that stores bytes.
fn storing(alloc: Global, bytes: &str) -> Result<String, AllocError> {
    format!(in alloc; r#"{{"entries":1,"threads":[[["store",0,"{bytes}"]]],"schedule":[]}}"#)
}

// Builds a script that writes bytes over a file of zeros, and fsyncs it.
fn syncing(alloc: Global, bytes: &str) -> Result<String, AllocError> {
    format!(in alloc;
        r#"{{"entries":2,"memory":[[0,"{bytes}"]],"objects":[{{"name":"f","file":""}}],"fds":["f"],"threads":[[["put",0,{{"op":23,"fd":3,"len":65536,"ud":1}}],["push",0],["put",1,{{"op":3,"fd":3,"ud":2}}],["push",1],["enter",2,0,0]]],"schedule":[]}}"#
    )
}

// Returns the size of the record of a store over zeros.
fn kept_of_store(alloc: Global, bytes: &str) -> Result<usize, Fail> {
    let script = storing(alloc, bytes)?;
    kept(alloc, script.as_str(), &[Event::Step(0)])
}

// Returns the size of the record of the fsync.
fn kept_of_sync(alloc: Global, bytes: &str) -> Result<usize, Fail> {
    let script = syncing(alloc, bytes)?;
    kept(alloc, script.as_str(), &TWO_REQUESTS)
}

fn is_store_little(alloc: Global, stored: (&str, &str, usize, usize)) -> Result<bool, Fail> {
    let (first, next, times, most) = stored;
    let bytes = digits(alloc, first, next, times)?;
    Ok(kept_of_store(alloc, bytes.as_str())? <= OVERHEAD.saturating_add(most))
}

fn is_sync_little(alloc: Global, synced: (&str, &str, usize, usize)) -> Result<bool, Fail> {
    let (first, next, times, most) = synced;
    let bytes = digits(alloc, first, next, times)?;
    Ok(kept_of_sync(alloc, bytes.as_str())? <= OVERHEAD.saturating_add(most))
}

fn are_bytes_little(alloc: Global) -> Result<bool, Fail> {
    for stored in STORED {
        if !is_store_little(alloc, stored)? {
            return Ok(false);
        }
    }
    for synced in SYNCED {
        if !is_sync_little(alloc, synced)? {
            return Ok(false);
        }
    }
    Ok(true)
}

fn are_events_little(alloc: Global) -> Result<bool, Fail> {
    let tick = kept(alloc, ONE_NOP, &[Event::Tick(0)])?;
    let finish = kept(alloc, ONE_NOP, &REQUEST_AND_STEP[..5])?;
    let write = kept(alloc, PAGE_WRITTEN_AND_READ, &TWO_REQUESTS[..7])?;
    let read = kept(alloc, PAGE_WRITTEN_AND_READ, &TWO_REQUESTS)?;
    Ok(tick == LEAST && finish == LEAST && write <= 512 && read <= 512)
}

#[test]
fn records_keep_little(rt: HostRuntime) -> Result<(), Fail> {
    let events = are_events_little(rt.alloc())?;
    let bytes = are_bytes_little(rt.alloc())?;
    check(&rt, events && bytes);
    Ok(())
}
