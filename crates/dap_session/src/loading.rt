//! Opens the run of a script or of a trace.
ghost use Rattle.std.specs.Prelude.{◌≡◌, ◌≤◌, None, length, IfOk};
ghost use Rattle.scenario.specs.Setups.{setup_refusal};
ghost use Rattle.dap_session.specs.Runs.{walk_of};

use crate::base::Base;
use crate::debuggee::Debuggee;
use dap_answers::Refusal;
use dap_messages::{Program, Text};
use debug_server::{RunFault, Session, script_of};
use machine::{Event, Setup};
use runs::ReportFault;
use script::Script;
use script_check::{check_script, long_line, refusal_sentence, unread_line};
use source_map::{SourceMap, source_map};
use std::alloc::{AllocError, Global};
use std::rt::Files;
use traces::{TraceFault, read_trace2};
use whole_files::{FileFault, read_file};

/// One byte more than a script may have.
const SCRIPT_AND_ONE: u64 = 8388609;

/// One byte more than a trace of the second form may have.
const TRACE_AND_ONE: u64 = 287966118;

// Returns the text before the first line feed of a text.
fn line_of(text: &str) -> &str {
    match text.split_once('\n') {
        Some((line, _)) => line,
        None => text,
    }
}

// Returns the first line of a report, without its line feed. The path at its start may have line
// feeds of its own.
fn first_line(alloc: Global, path: &str, report: &[u8]) -> Result<String, AllocError> {
    let text = String::from_utf8_lossy(alloc, report)?;
    match text.as_str().strip_prefix(path) {
        Some(rest) => format!(in alloc; "{path}{}", line_of(rest)),
        None => String::from_str(alloc, line_of(text.as_str())),
    }
}

// Returns what `check` says first about a script.
fn check_line(alloc: Global, path: &str, text: &[u8]) -> Result<String, AllocError> {
    let mut report = Vec::new(alloc);
    match check_script(alloc, path, text, &mut report) {
        Ok(_) => first_line(alloc, path, report.as_slice()),
        Err(ReportFault::Script(_)) => {
            let line = long_line(alloc, path, None)?;
            first_line(alloc, path, line.as_bytes())
        }
        Err(_) => Err(AllocError),
    }
}

// Returns why a script can't be run.
fn script_refusal(alloc: Global, path: &str, text: &[u8]) -> Refusal {
    match check_line(alloc, path, text) {
        Ok(line) => Refusal::Text(line),
        Err(_) => Refusal::Memory,
    }
}

// Returns why a file can't be read.
fn file_refusal(alloc: Global, path: &str, fault: FileFault) -> Refusal {
    if let FileFault::Memory = fault {
        return Refusal::Memory;
    }
    let line = match unread_line(alloc, path) {
        Ok(line) => first_line(alloc, path, line.as_bytes()),
        Err(_) => Err(AllocError),
    };
    match line {
        Ok(line) => Refusal::Text(line),
        Err(_) => Refusal::Memory,
    }
}

// Opens a session over events, at the start.
fn session_at_start(alloc: Global, setup: &Setup, events: &[Event]) -> Result<Session, RunFault>
    requires starts { setup_refusal setup.now ≡ None }
    requires most { length events.now ≤ 1048576 }
    ensures { IfOk result (λ session. session.state.walk.at ≡ 0) }
{
    let mut session = Session::of(alloc, setup, events)?;
    match session.jump(0) {
        Ok(()) => Ok(session),
        Err(_) => Err(RunFault::Memory),
    }
}

// Opens a session over a script, at the start of its run, with its source map.
fn open_script(
    alloc: Global,
    text: &[u8],
    script: &Script,
) -> Result<(Session, Option<SourceMap>), RunFault>
    ensures { IfOk result (λ r. r.0.state.walk.at ≡ 0) }
{
    let Ok(map) = source_map(alloc, text, script) else {
        return Err(RunFault::Memory);
    };
    let session = session_at_start(alloc, script.setup(), script.schedule())?;
    Ok((session, map))
}

// Reads a script, and opens a session over it.
fn read_text(alloc: Global, text: &[u8]) -> Result<(Session, Option<SourceMap>), RunFault>
    ensures { IfOk result (λ r. r.0.state.walk.at ≡ 0) }
{
    let script = script_of(alloc, text)?;
    open_script(alloc, text, &script)
}

fn load_script(rt: &(impl Files + AllocGlobal), base: Base, path: Text) -> Result<Debuggee, Refusal>
    ensures { IfOk result (λ run. (walk_of run).at ≡ 0) }
{
    let alloc = rt.alloc();
    let text = match read_file(rt, path.as_str(), SCRIPT_AND_ONE) {
        Ok(text) => text,
        Err(fault) => return Err(file_refusal(alloc, path.as_str(), fault)),
    };
    match read_text(alloc, &text) {
        Ok((session, map)) => Ok(Debuggee::new(alloc, session, base, path, map)),
        Err(RunFault::Memory) => Err(Refusal::Memory),
        Err(_) => Err(script_refusal(alloc, path.as_str(), &text)),
    }
}

// Returns the text about a trace that is none.
fn trace_refusal(alloc: Global, path: &str, fault: TraceFault) -> Refusal {
    let fault = RunFault::Trace(fault);
    match format!(in alloc; "{path}: this is no trace of form 2: {fault}") {
        Ok(text) => Refusal::Text(text),
        Err(_) => Refusal::Memory,
    }
}

fn event_line(
    alloc: Global,
    path: &str,
    index: u32,
    setup: &Setup,
    events: &[Event],
) -> Result<String, AllocError>
    requires starts { setup_refusal setup.now ≡ None }
    requires most { length events.now ≤ 1048576 }
{
    let sentence = refusal_sentence(alloc, setup, events)?;
    format!(in alloc; "{path}: event {index}: {sentence}")
}

// Opens a session over the events of a trace.
fn open_trace(
    alloc: Global,
    path: &str,
    setup: &Setup,
    events: &[Event],
) -> Result<Session, Refusal>
    requires starts { setup_refusal setup.now ≡ None }
    requires most { length events.now ≤ 1048576 }
    ensures { IfOk result (λ session. session.state.walk.at ≡ 0) }
{
    match session_at_start(alloc, setup, events) {
        Ok(session) => Ok(session),
        Err(RunFault::Schedule(index, _)) => {
            match event_line(alloc, path, index, setup, events) {
                Ok(line) => Err(Refusal::Text(line)),
                Err(_) => Err(Refusal::Memory),
            }
        }
        Err(_) => Err(Refusal::Memory),
    }
}

// Reads a trace, and opens a session over it.
fn read_trace(alloc: Global, path: &str, bytes: &[u8]) -> Result<Session, Refusal>
    ensures { IfOk result (λ session. session.state.walk.at ≡ 0) }
{
    match read_trace2(alloc, bytes) {
        Ok((setup, events)) => open_trace(alloc, path, &setup, &events),
        Err(TraceFault::Memory) => Err(Refusal::Memory),
        Err(fault) => Err(trace_refusal(alloc, path, fault)),
    }
}

fn load_trace(rt: &(impl Files + AllocGlobal), base: Base, path: Text) -> Result<Debuggee, Refusal>
    ensures { IfOk result (λ run. (walk_of run).at ≡ 0) }
{
    let alloc = rt.alloc();
    let bytes = match read_file(rt, path.as_str(), TRACE_AND_ONE) {
        Ok(bytes) => bytes,
        Err(fault) => return Err(file_refusal(alloc, path.as_str(), fault)),
    };
    match read_trace(alloc, path.as_str(), &bytes) {
        Ok(session) => Ok(Debuggee::new(alloc, session, base, path, None)),
        Err(refusal) => Err(refusal),
    }
}

/// Opens a run at its start.
pub(crate) fn load(
    rt: &(impl Files + AllocGlobal),
    base: Base,
    program: Program,
) -> Result<Debuggee, Refusal>
    ensures { IfOk result (λ run. (walk_of run).at ≡ 0) }
{
    match program {
        Program::Script(path) => load_script(rt, base, path),
        Program::Trace(path) => load_trace(rt, base, path),
    }
}
