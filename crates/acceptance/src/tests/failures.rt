//! Sessions whose reader or writer fails at one call; each call is tried.

use crate::tests::devices::{Failure, Plan, SOUND};
use crate::tests::sessions::{Served, serve_slowly, session_of, walk_slowly};
use crate::tests::{INPUT, ONE_NOP, OUTPUT, check, check_none};
use debug_server::{NoSource, RunFault, ServeFault, Session};
use std::alloc::Global;
use std::io::ErrorKind;

/// The number of reads: one for each of the 67 bytes of input, and one at the end.
const READS: usize = 68;

/// The number of writes and flushes: one for each of the 93 bytes of output, and a flush after each
/// of the seven replies.
const WRITES: usize = 100;

const INTERRUPTED: Failure = Failure::Error(ErrorKind::Interrupted);

/// The calls 11 and 100 are flushes, which can't return that they moved no bytes.
const WRITES_THAT_FAIL: [(usize, Failure); 10] = [
    (1, INTERRUPTED),
    (1, Failure::Nothing),
    (10, INTERRUPTED),
    (10, Failure::Nothing),
    (11, INTERRUPTED),
    (12, INTERRUPTED),
    (12, Failure::Nothing),
    (WRITES - 1, INTERRUPTED),
    (WRITES - 1, Failure::Nothing),
    (WRITES, INTERRUPTED),
];

// Counts the lines that end within the bytes.
fn lines(bytes: &[u8]) -> usize {
    bytes.iter().filter(|byte| **byte == b'\n').count()
}

fn is_beginning(bytes: &[u8]) -> bool {
    OUTPUT.as_bytes().starts_with(bytes)
}

// Counts the lines that were read before a call.
fn lines_before(call: usize) -> usize {
    let input = INPUT.as_bytes();
    let count = call.saturating_sub(1).min(input.len());
    lines(&input[..count])
}

// Returns how many bytes are written before a call: each byte takes one call, and each reply ends
// with a flush.
fn written_before(call: usize) -> usize {
    let mut next = 1usize;
    for (i, byte) in OUTPUT.as_bytes().iter().enumerate() {
        if next >= call {
            return i;
        }
        next = next.saturating_add(if *byte == b'\n' { 2 } else { 1 });
    }
    OUTPUT.len()
}

// Returns whether the failed call is reported, and the right prefix was written. Before a failed
// read, that is the replies to the lines read; before a failed write or flush, the bytes of the
// earlier calls.
fn is_reported(fault: Option<ServeFault>, written: &[u8], reading: Plan, writing: Plan) -> bool {
    let cut = match fault {
        Some(ServeFault::Read) => reading.call > 0 && lines(written) == lines_before(reading.call),
        Some(ServeFault::Write) => {
            writing.call > 0 && written.len() == written_before(writing.call)
        }
        _ => false,
    };
    cut && is_beginning(written)
}

// Returns whether a session was refused as closed, without any call of a device.
fn is_refused(served: &Served) -> bool {
    served.fault == Some(ServeFault::Closed) && served.reads == 0 && served.writes == 0
}

// Returns whether a session reports a failed call and is closed afterwards.
fn closes(alloc: Global, session: &mut Session, plans: (Plan, Plan)) -> bool {
    let input = INPUT.as_bytes();
    let served = serve_slowly(alloc, session, input, plans, &mut NoSource);
    let again = serve_slowly(alloc, session, input, (SOUND, SOUND), &mut NoSource);
    is_reported(served.fault, served.written.as_slice(), plans.0, plans.1) & is_refused(&again)
}

fn closes_anew(alloc: Global, plans: (Plan, Plan)) -> bool {
    match session_of(alloc, ONE_NOP) {
        Ok(mut session) => closes(alloc, &mut session, plans),
        Err(_) => false,
    }
}

// Checks the same for `walk`, whose fault is a serving fault.
fn walk_reports(alloc: Global, plans: (Plan, Plan)) -> bool {
    let walked = walk_slowly(alloc, ONE_NOP, INPUT, plans);
    let fault = match walked.fault {
        Some(RunFault::Serve(fault)) => Some(fault),
        _ => None,
    };
    is_reported(fault, walked.written.as_slice(), plans.0, plans.1)
}

fn read_at(call: usize, kind: ErrorKind) -> (Plan, Plan) {
    let failure = Failure::Error(kind);
    (Plan { call, failure }, SOUND)
}

fn write_at(call: usize, failure: Failure) -> (Plan, Plan) {
    (SOUND, Plan { call, failure })
}

// Fails each read in turn, and returns the first one that isn't reported correctly.
fn wrong_read(alloc: Global) -> Option<usize> {
    for call in 1..READS + 1 {
        if !closes_anew(alloc, read_at(call, ErrorKind::UnexpectedEof)) {
            return Some(call);
        }
    }
    None
}

fn wrong_interrupted_read(alloc: Global) -> Option<usize> {
    for call in [1, 7, 40, READS] {
        if !closes_anew(alloc, read_at(call, ErrorKind::Interrupted)) {
            return Some(call);
        }
    }
    None
}

fn wrong_write(alloc: Global) -> Option<usize> {
    for call in 1..WRITES + 1 {
        if !closes_anew(alloc, write_at(call, Failure::Error(ErrorKind::BrokenPipe))) {
            return Some(call);
        }
    }
    None
}

fn wrong_other_write(alloc: Global) -> Option<usize> {
    for (call, failure) in WRITES_THAT_FAIL {
        if !closes_anew(alloc, write_at(call, failure)) {
            return Some(call);
        }
    }
    None
}

fn wrong_read_of_a_walk(alloc: Global) -> Option<usize> {
    for call in 1..READS + 1 {
        if !walk_reports(alloc, read_at(call, ErrorKind::Interrupted)) {
            return Some(call);
        }
    }
    None
}

fn wrong_write_of_a_walk(alloc: Global) -> Option<usize> {
    for call in 1..WRITES + 1 {
        if !walk_reports(alloc, write_at(call, INTERRUPTED)) {
            return Some(call);
        }
    }
    None
}

#[test]
fn each_read_fails(rt: HostRuntime) {
    check_none(&rt, wrong_read(rt.alloc()));
    check_none(&rt, wrong_interrupted_read(rt.alloc()));
}

#[test]
fn each_write_fails(rt: HostRuntime) {
    check_none(&rt, wrong_write(rt.alloc()));
    check_none(&rt, wrong_other_write(rt.alloc()));
}

// Returns whether `walk` succeeds if the devices would fail at the next call only. So the two
// counts include every call.
fn is_whole_walk(alloc: Global) -> bool {
    let reading = Plan {
        call: READS + 1,
        failure: INTERRUPTED,
    };
    let writing = Plan {
        call: WRITES + 1,
        failure: INTERRUPTED,
    };
    let walked = walk_slowly(alloc, ONE_NOP, INPUT, (reading, writing));
    walked.fault.is_none() & (walked.written.as_slice() == OUTPUT.as_bytes())
}

#[test]
fn each_call_of_a_walk_fails(rt: HostRuntime) {
    check_none(&rt, wrong_read_of_a_walk(rt.alloc()));
    check_none(&rt, wrong_write_of_a_walk(rt.alloc()));
    check(&rt, is_whole_walk(rt.alloc()));
}
