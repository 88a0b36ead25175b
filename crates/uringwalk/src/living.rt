//! The `live` subcommand: runs a script's threads side by side, then answers commands.
ghost use Rattle.std.specs.Prelude.{◌≤◌};

use crate::{SCRIPT_AND_ONE, file_fault};
use debug_server::{Fault, RunFault, ServeFault};
use live_runner::Closed;
use live_sessions::{answer_closed, live_script, trace_closed};
use std::io;
use std::rt::Files;
use std::sync::Wait;
use std::thread::Threads;
use std::time::Clock;
use whole_files::{read_file, write_file};

// Writes a run's trace to its file, if there is one.
fn keep_run(
    rt: &(impl Files + AllocGlobal),
    out: Option<&str>,
    closed: &Closed,
) -> Result<(), Fault> {
    let Some(out) = out else {
        return Ok(());
    };
    match trace_closed(rt.alloc(), closed) {
        Ok(trace) => write_file(rt, out, &trace.bytes).map_err(file_fault),
        Err(_) => Err(Fault::Run(RunFault::Memory)),
    }
}

// Prints how many events a run has.
fn print_run(rt: &impl Print, closed: &Closed) -> Result<(), Fault> {
    match println!(rt; "closed {}", closed.events().len()) {
        Ok(()) => Ok(()),
        Err(_) => Err(Fault::Run(RunFault::Serve(ServeFault::Write))),
    }
}

// Writes a run's trace to its file if there is one, prints how many events the run has, and answers
// the commands of standard input.
fn answer_run(
    rt: &(impl Files + Input + Print + AllocGlobal),
    out: Option<&str>,
    closed: &Closed,
) -> Result<(), Fault> {
    keep_run(rt, out, closed)?;
    print_run(rt, closed)?;
    answer_closed(rt.alloc(), closed, &mut rt.reader(), &mut io::writer(rt))?;
    Ok(())
}

/// Runs the threads of a script, writes the run's trace to its file if there is one, prints how
/// many events the run has, and answers the commands of standard input.
pub fn live_file<R: Files + Input + Print + AllocGlobal + Threads + Wait + Clock + Sync>(
    rt: &R,
    script: &str,
    turns: u32,
    kernel: u32,
    out: Option<&str>,
) -> Result<(), Fault>
    requires { kernel ≤ 8 }
{
    let text = read_file(rt, script, SCRIPT_AND_ONE).map_err(file_fault)?;
    match live_script(rt, rt.alloc(), &text, turns, kernel) {
        Ok(closed) => answer_run(rt, out, &closed),
        Err(fault) => Err(fault),
    }
}
