//! The `schedule` subcommand: puts the events of a trace into a script.

use crate::{SCRIPT_AND_ONE, TOO_LONG, WHOLE_TRACE_AND_ONE, done, fail, file_fault, keep};
use debug_server::{Fault, RunFault, Traced};
use rewriting::{RewriteFault, ScheduleFault, with_events_of};
use std::process::ExitCode;
use std::rt::Files;
use whole_files::{lead_to_one_file, read_file};

/// The exit status if the command line is wrong.
const WORDS: u8 = 2;

/// The message if OUT is another path of the trace's file.
const ONTO_TRACE: &str = "error: OUT leads to TRACE's own file: the trace would be overwritten";

const OTHER_SETUP: &str = "TRACE is of another setup than SCRIPT";

const NO_PLACE: &str = "SCRIPT can't have the events of TRACE as its schedule";

// Reports that a trace has more events than a schedule can have.
fn refuse_long(rt: &impl Eprint, events: u32) -> ExitCode {
    match eprintln!(rt; "TRACE has {events} events, but a schedule has at most 65536") {
        Ok(()) | Err(_) => ExitCode::FAILURE,
    }
}

// Reports why a script isn't rewritten.
fn refuse(rt: &impl Eprint, fault: ScheduleFault) -> ExitCode {
    match fault {
        ScheduleFault::OtherSetup => fail(rt, 1, &OTHER_SETUP),
        ScheduleFault::TooMany(events) => refuse_long(rt, events),
        ScheduleFault::Trace(fault) => fail(rt, 1, &Fault::Run(RunFault::Trace(fault))),
        ScheduleFault::Rewrite(RewriteFault::Script(fault)) => {
            fail(rt, 1, &Fault::Run(RunFault::Script(fault)))
        }
        ScheduleFault::Rewrite(RewriteFault::Memory) => fail(rt, 1, &Fault::Run(RunFault::Memory)),
        ScheduleFault::Rewrite(RewriteFault::TooLong) => fail(rt, 1, &TOO_LONG),
        ScheduleFault::Rewrite(RewriteFault::Place) => fail(rt, 1, &NO_PLACE),
    }
}

/// Writes a script with the events of a trace as its schedule to a file, and prints how many there
/// are. Returns the exit status.
pub fn schedule_file(
    rt: &(impl Files + Print + Eprint + AllocGlobal),
    script: &str,
    trace: &str,
    out: &str,
) -> Result<ExitCode, Fault> {
    if lead_to_one_file(rt, trace, out).map_err(file_fault)? {
        return Ok(fail(rt, WORDS, &ONTO_TRACE));
    }
    let text = read_file(rt, script, SCRIPT_AND_ONE).map_err(file_fault)?;
    let bytes = read_file(rt, trace, WHOLE_TRACE_AND_ONE).map_err(file_fault)?;
    match with_events_of(rt.alloc(), &text, &bytes) {
        Ok((bytes, events)) => done(keep(rt, out, &Traced { events, bytes })),
        Err(fault) => Ok(refuse(rt, fault)),
    }
}
