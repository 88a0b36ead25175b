//! The `timeline` subcommand: draws a run into a file.

use crate::input::{is_standard_input, read_input};
use crate::reporting::Failure;
use crate::{WHOLE_TRACE_AND_ONE, fail, file_fault};
use debug_server::Fault;
use std::process::ExitCode;
use std::rt::Files;
use timeline::{Drawing, Window, draw_run, picture_of};
use whole_files::{lead_to_one_file, write_file};

/// The exit status if the command line is wrong.
const WORDS: u8 = 2;

/// The message if OUT is another path of the run's file.
const ONTO_RUN: &str = "error: OUT leads to RUN's own file: the picture would overwrite the run";

const NO_PICTURE: &str = "error: OUT must end in .html or .json";

// Reports that a run has too many events.
fn refuse_long(rt: &impl Eprint, events: u32) -> ExitCode {
    match eprintln!(rt;
        "error: RUN has {events} events: more than 5000 need both --from and --to"
    ) {
        Ok(()) | Err(_) => ExitCode::from(WORDS),
    }
}

// Writes a picture to its file, and returns the exit status.
fn keep_page(rt: &(impl Files + AllocGlobal), out: &str, page: &[u8]) -> Result<ExitCode, Fault> {
    match write_file(rt, out, page) {
        Ok(()) => Ok(ExitCode::SUCCESS),
        Err(fault) => Err(file_fault(fault)),
    }
}

// Writes what was drawn to its file, unless the run is too long, and returns the exit status.
fn keep_drawing(
    rt: &(impl Files + Eprint + AllocGlobal),
    out: &str,
    drawing: Drawing,
) -> Result<ExitCode, Fault> {
    match drawing {
        Drawing::Bytes(page) => keep_page(rt, out, &page),
        Drawing::TooLong(events) => Ok(refuse_long(rt, events)),
    }
}

// Returns whether a picture would overwrite its run.
fn loses_run(rt: &(impl Files + AllocGlobal), run: &str, out: &str) -> Result<bool, Fault> {
    if is_standard_input(run) {
        return Ok(false);
    }
    lead_to_one_file(rt, run, out).map_err(file_fault)
}

/// Draws the events from `from` up to `to` of the run of a script or a trace, and writes the
/// picture to a file. Returns the exit status.
pub fn draw_file(
    rt: &(impl Files + Input + Eprint + AllocGlobal),
    run: &str,
    out: &str,
    from: Option<u32>,
    to: Option<u32>,
) -> Result<ExitCode, Fault> {
    let Some(picture) = picture_of(out) else {
        return Ok(fail(rt, WORDS, &NO_PICTURE));
    };
    if loses_run(rt, run, out)? {
        return Ok(fail(rt, WORDS, &ONTO_RUN));
    }
    let bytes = read_input(rt, run, WHOLE_TRACE_AND_ONE)?;
    match draw_run(rt.alloc(), run, &bytes, Window { from, to }, picture) {
        Ok(drawing) => keep_drawing(rt, out, drawing),
        Err(fault) => Ok(Failure::from_report(rt.alloc(), &bytes, fault).print(rt)),
    }
}
