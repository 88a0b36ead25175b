//! The lines that the program prints when it fails.

use crate::tests::{check, check_none};
use debug_server::{Fault, RunFault, ServeFault};
use live_runner::LiveFault;
use machine::{Refusal, SetupRefusal};
use script::{Key, Path, ScriptFault, TraceFault};
use std::alloc::Global;

/// The path of the first item of the fourth thread.
const ITEM: Path = Path {
    key: Key::Threads,
    item: Some(3),
    inner: Some(0),
};

/// The path of the schedule.
const LIST: Path = Path {
    key: Key::Schedule,
    item: None,
    inner: None,
};

/// Run faults, and the line that each prints.
const LINES: [(RunFault, &str); 15] = [
    (RunFault::Script(ScriptFault::NotJson), "fault script 1"),
    (
        RunFault::Script(ScriptFault::Shape(ITEM)),
        "fault script 2 threads 3 0",
    ),
    (
        RunFault::Script(ScriptFault::Range(ITEM)),
        "fault script 3 threads 3 0",
    ),
    (
        RunFault::Script(ScriptFault::Limit(LIST)),
        "fault script 4 schedule",
    ),
    (
        RunFault::Schedule(12, Refusal::BadChoice),
        "fault schedule 12 11",
    ),
    (RunFault::Net, "fault net"),
    (RunFault::Serve(ServeFault::Read), "fault session 1"),
    (RunFault::Serve(ServeFault::Write), "fault session 2"),
    (RunFault::Serve(ServeFault::Memory), "fault session 3"),
    (RunFault::Memory, "fault memory"),
    (RunFault::Script(ScriptFault::Memory), "fault memory"),
    (RunFault::Trace(TraceFault::Memory), "fault memory"),
    (RunFault::Trace(TraceFault::Magic), "fault trace 1"),
    (RunFault::Trace(TraceFault::Trailing), "fault trace 6"),
    (RunFault::Trace(TraceFault::Setup(8)), "fault trace 8 8"),
];

// Returns whether a fault prints this line.
fn is_line(alloc: Global, fault: Fault, line: &str) -> bool {
    match format!(in alloc; "{fault}") {
        Ok(text) => text.as_str() == line,
        Err(_) => false,
    }
}

// Returns the index of the first fault that prints another line.
fn wrong_line(alloc: Global) -> Option<usize> {
    for (i, (fault, line)) in LINES.iter().enumerate() {
        if !is_line(alloc, Fault::Run(*fault), line) {
            return Some(i);
        }
    }
    None
}

// Returns whether a live run's fault prints this line.
fn is_live_line(alloc: Global, fault: LiveFault, line: &str) -> bool {
    is_line(alloc, Fault::Live(fault), line)
}

#[test]
fn texts_of_faults(rt: HostRuntime) {
    let memory = LiveFault::Setup(SetupRefusal::Memory);
    check(&rt, is_line(rt.alloc(), Fault::File, "fault file"));
    check(&rt, is_live_line(rt.alloc(), memory, "fault memory"));
    check(
        &rt,
        is_live_line(rt.alloc(), LiveFault::Torn(3), "fault torn"),
    );
    check_none(&rt, wrong_line(rt.alloc()));
}
