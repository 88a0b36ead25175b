//! The `check` subcommand: the faults of a script.

use crate::input::{is_standard_input, read_input};
use crate::output::{Output, write_text};
use crate::reporting::fault_of_report;
use crate::{SCRIPT_AND_ONE, suggest_explore};
use debug_server::{Fault, RunFault};
use runs::ReportFault;
use script_check::{Verdict, check_script, long_line, unread_line};
use std::fs;
use std::process::ExitCode;
use std::rt::Files;

// Returns the number of bytes of a file; None if it isn't a regular file.
fn length_of(rt: &impl Files, path: &str) -> Option<u64> {
    if is_standard_input(path) {
        return None;
    }
    match fs::metadata(rt, path) {
        Ok(found) if found.is_file() => Some(found.len()),
        _ => None,
    }
}

// Prints that a script is too long, and returns exit status 1.
fn report_length<R: Files + Print + AllocGlobal>(
    rt: &R,
    path: &str,
    output: &mut Output<'_, R>,
) -> Result<ExitCode, Fault> {
    let length = length_of(rt, path);
    write_text(output, long_line(rt.alloc(), path, length))?;
    Ok(ExitCode::FAILURE)
}

// Prints the faults of a script's text, or `ok` if it has none. Returns the exit status.
fn report_faults<R: Files + Print + Eprint + AllocGlobal>(
    rt: &R,
    path: &str,
    text: &[u8],
    output: &mut Output<'_, R>,
) -> Result<ExitCode, Fault> {
    match check_script(rt.alloc(), path, text, output) {
        Ok(Verdict::Fine) => Ok(ExitCode::SUCCESS),
        Ok(Verdict::Unscheduled) => {
            suggest_explore(rt, path);
            Ok(ExitCode::SUCCESS)
        }
        Ok(Verdict::Faulty(_)) | Ok(Verdict::Refused(_, _)) => Ok(ExitCode::FAILURE),
        Err(ReportFault::Script(_)) => report_length(rt, path, output),
        Err(fault) => Err(fault_of_report(fault)),
    }
}

/// Prints the faults of a script, or `ok` if it has none. Returns exit status 1 if it has some,
/// otherwise 0.
pub fn check_file<R: Files + Input + Print + Eprint + AllocGlobal>(
    rt: &R,
    path: &str,
) -> Result<ExitCode, Fault> {
    let mut output = Output::new(rt);
    let text = match read_input(rt, path, SCRIPT_AND_ONE) {
        Ok(text) => text,
        Err(Fault::Run(RunFault::Memory)) => return Err(Fault::Run(RunFault::Memory)),
        Err(_) => {
            write_text(&mut output, unread_line(rt.alloc(), path))?;
            return Ok(ExitCode::FAILURE);
        }
    };
    report_faults(rt, path, &text, &mut output)
}
