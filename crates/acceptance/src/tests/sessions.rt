//! Sessions over devices that move one byte per call, and replies to single lines.
ghost use Rattle.std.specs.Prelude.{◌≡◌, length};

use crate::tests::devices::{Plan, SOUND, SlowReader, SlowWriter};
use crate::tests::{INPUT, ONE_NOP, OUTPUT, check};
use debug_server::{NoSource, RunFault, ServeFault, Session, Source, replies, serve, walk};
use machine::Event;
use script::read_script;
use std::alloc::Global;
use std::test::Fail;

const EMPTY: &str = r#"{"entries":1,"threads":[],"schedule":[]}"#;

/// Scripts, commands, and the replies. The last line of the second input has no newline.
const RUNS: [(&str, &str, &str); 2] = [
    (ONE_NOP, INPUT, OUTPUT),
    (EMPTY, "where\nshow clock\nquit", "at 0 of 0\n0\nbye\n"),
];

/// The outcome of `serve`: its fault, its output, and the numbers of calls.
#[derive(Drop)]
pub struct Served {
    pub fault: Option<ServeFault>,
    pub written: Vec<u8>,
    pub reads: usize,
    pub writes: usize,
}

/// The outcome of `walk`: its fault and its output.
#[derive(Drop)]
pub struct Walked {
    pub fault: Option<RunFault>,
    pub written: Vec<u8>,
}

/// Serves lines to a session over devices that may fail.
pub fn serve_slowly<S: Source>(
    alloc: Global,
    session: &mut Session,
    lines: &[u8],
    (reading, writing): (Plan, Plan),
    source: &mut S,
) -> Served {
    let mut reader = SlowReader::new(lines, reading);
    let mut writer = SlowWriter::new(alloc, writing);
    let fault = serve(session, &mut reader, &mut writer, source).err();
    Served {
        fault,
        written: writer.written,
        reads: reader.calls,
        writes: writer.calls,
    }
}

/// Runs `walk` over devices that may fail.
pub fn walk_slowly(
    alloc: Global,
    script: &str,
    lines: &str,
    (reading, writing): (Plan, Plan),
) -> Walked {
    let mut reader = SlowReader::new(lines.as_bytes(), reading);
    let mut writer = SlowWriter::new(alloc, writing);
    let fault = walk(alloc, script.as_bytes(), &mut reader, &mut writer).err();
    Walked {
        fault,
        written: writer.written,
    }
}

// Returns whether `walk` succeeds with this output.
fn walks(alloc: Global, script: &str, input: &str, output: &str) -> bool {
    let walked = walk_slowly(alloc, script, input, (SOUND, SOUND));
    walked.fault.is_none() & (walked.written.as_slice() == output.as_bytes())
}

// Returns whether the replies are the same with input and output in memory.
fn is_replied(alloc: Global, script: &str, input: &str, output: &str) -> bool {
    match replies(alloc, script.as_bytes(), input.as_bytes()) {
        Ok(replied) => replied.as_slice() == output.as_bytes(),
        Err(_) => false,
    }
}

#[test]
fn one_byte_a_call(rt: HostRuntime) {
    for (script, input, output) in RUNS {
        check(&rt, walks(rt.alloc(), script, input, output));
        check(&rt, is_replied(rt.alloc(), script, input, output));
    }
}

// Opens a session at the end of a script's schedule.
pub fn session_of(alloc: Global, text: &str) -> Result<Session, RunFault> {
    match read_script(alloc, text.as_bytes()) {
        Ok(script) => Session::new(alloc, &script),
        Err(fault) => Err(RunFault::Script(fault)),
    }
}

/// Returns whether a session gives this reply to a line.
pub fn answers(session: &mut Session, line: &str, text: &str) -> bool {
    match session.line(line.as_bytes(), None) {
        Ok(reply) => reply.as_slice() == text.as_bytes(),
        Err(_) => false,
    }
}

// Returns whether a session gives this reply to `sync` if the source has these events.
fn is_synced(session: &mut Session, events: &[Event], text: &str) -> bool {
    match session.line(b"sync", Some(events)) {
        Ok(reply) => reply.as_slice() == text.as_bytes(),
        Err(_) => false,
    }
}

fn answers_twice(session: &mut Session) -> bool {
    answers(session, "back 2", "at 4 of 6\n") && answers(session, "where", "at 4 of 6\n")
}

// The source has one event more than a trace may have, or exactly the maximum. In the second case,
// its first event differs.
fn answers_in_full(session: &mut Session, ticks: &[Event]) -> bool
    requires { length ticks.now ≡ 1048577 }
{
    is_synced(session, ticks, "refused 5 full\n")
        && is_synced(session, &ticks[1..], "refused 3 torn 0\n")
        && answers(session, "where", "at 4 of 6\n")
}

#[test]
fn lines_one_by_one(rt: HostRuntime) -> Result<(), Fail> {
    let mut session = session_of(rt.alloc(), ONE_NOP)?;
    check(&rt, answers_twice(&mut session));
    let ticks = vec![in rt.alloc(); Event::Tick(1); 1048577]?;
    check(&rt, answers_in_full(&mut session, &ticks));
    Ok(())
}

/// The fault of `serve`, and the numbers of read calls and of write calls.
type Counts = (Option<ServeFault>, usize, usize);

fn counts(alloc: Global, session: &mut Session, input: &str) -> Counts {
    let served = serve_slowly(
        alloc,
        session,
        input.as_bytes(),
        (SOUND, SOUND),
        &mut NoSource,
    );
    (served.fault, served.reads, served.writes)
}

// Serves some input to a new session, and then one line.
fn counts_twice(alloc: Global, input: &str) -> Result<(Counts, Counts), RunFault> {
    let mut session = session_of(alloc, ONE_NOP)?;
    let first = counts(alloc, &mut session, input);
    let second = counts(alloc, &mut session, "where\n");
    Ok((first, second))
}

// `quit` takes five reads; its reply takes four writes and a flush. The end of the input doesn't
// close a session. A line takes six reads and its end a seventh; its reply takes ten writes and a
// flush.
#[test]
fn calls_of_a_session_are_counted(rt: HostRuntime) -> Result<(), Fail> {
    let closed = counts_twice(rt.alloc(), "quit\nwhere\n")?;
    let left_open = counts_twice(rt.alloc(), "where\n")?;
    check(
        &rt,
        closed == ((None, 5, 5), (Some(ServeFault::Closed), 0, 0)),
    );
    check(&rt, left_open == ((None, 7, 11), (None, 7, 11)));
    Ok(())
}
