//! The `log` subcommand: each event of a run and what it changed.

use crate::WHOLE_TRACE_AND_ONE;
use crate::input::read_input;
use crate::output::Output;
use crate::reporting::Failure;
use debug_server::Fault;
use run_log::{EventRange, log_run};
use std::process::ExitCode;
use std::rt::Files;

/// Prints the events in a range, and what each changed, in the run of a script or a trace. Returns
/// exit status 0, or 1 after a fault.
pub fn log_file<R: Files + Input + Print + Eprint + AllocGlobal>(
    rt: &R,
    path: &str,
    range: EventRange,
) -> Result<ExitCode, Fault> {
    let bytes = read_input(rt, path, WHOLE_TRACE_AND_ONE)?;
    let mut output = Output::new(rt);
    match log_run(rt.alloc(), &bytes, range, &mut output) {
        Ok(()) => Ok(ExitCode::SUCCESS),
        Err(_) if !output.has_reader() => Ok(ExitCode::FAILURE),
        Err(fault) => Ok(Failure::from_report(rt.alloc(), &bytes, fault).print(rt)),
    }
}
