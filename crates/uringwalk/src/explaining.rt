//! The `explain` subcommand: the findings of one run or of several.

use crate::input::{is_standard_input, read_input};
use crate::output::{Output, write_text};
use crate::reporting::Failure;
use crate::{WHOLE_TRACE_AND_ONE, suggest_explore};
use debug_server::{Fault, ReportForm, RunFault};
use explanations::{Explanation, Form, Request, explain_run, named_fault, named_report};
use finding_kinds::Kind;
use runs::is_trace;
use std::alloc::{AllocError, Global};
use std::process::ExitCode;
use std::rt::Files;

/// The exit status if some finding counts.
const SOME_FAULTS: u8 = 3;

/// The result of explaining a run.
#[derive(Clone, Copy)]
enum Ending {
    /// No finding counts.
    Fine,
    /// Some finding counts.
    Faulty,
    /// The run can't be read or run.
    Failed,
}

impl Ending {
    // Returns the result for a report, by whether some finding counts.
    fn from_report(is_faulty: bool) -> Ending {
        if is_faulty {
            Ending::Faulty
        } else {
            Ending::Fine
        }
    }

    // Returns the worse of two results.
    fn or_worse(self, other: Ending) -> Ending {
        match (self, other) {
            (Ending::Failed, _) | (_, Ending::Failed) => Ending::Failed,
            (Ending::Faulty, _) | (_, Ending::Faulty) => Ending::Faulty,
            (Ending::Fine, Ending::Fine) => Ending::Fine,
        }
    }

    fn status(self) -> ExitCode {
        match self {
            Ending::Fine => ExitCode::SUCCESS,
            Ending::Faulty => ExitCode::from(SOME_FAULTS),
            Ending::Failed => ExitCode::FAILURE,
        }
    }
}

/// Returns the first kind of each name.
pub(crate) fn kinds_of(alloc: Global, words: &[&str]) -> Result<Vec<Kind>, AllocError> {
    let mut kinds = Vec::new(alloc);
    for word in words {
        if let Some(kind) = Kind::of_word(*word) {
            kinds.push(kind)?;
        }
    }
    Ok(kinds)
}

fn is_json(request: Request<'_>) -> bool {
    matches!(request.form, Form::Json)
}

// Returns the form of a report. Only a file has locations in a SARIF log.
fn form_of<'a>(form: ReportForm, runs: &[&'a str]) -> Form<'a> {
    match form {
        ReportForm::Text => Form::Text,
        ReportForm::Json => Form::Json,
        ReportForm::Sarif => {
            Form::Sarif(runs.first().copied().filter(|run| !is_standard_input(run)))
        }
    }
}

// Reads a run, and returns its report. Says on standard error if a script has no schedule.
fn explanation_of(
    rt: &(impl Files + Input + Eprint + AllocGlobal),
    run: &str,
    request: Request<'_>,
) -> Result<Explanation, Failure> {
    let bytes = match read_input(rt, run, WHOLE_TRACE_AND_ONE) {
        Ok(bytes) => bytes,
        Err(fault) => return Err(Failure::from_fault(rt.alloc(), fault)),
    };
    match explain_run(rt.alloc(), &bytes, request) {
        Ok(explanation) => {
            if explanation.is_unscheduled && !is_trace(&bytes) {
                suggest_explore(rt, run);
            }
            Ok(explanation)
        }
        Err(fault) => Err(Failure::from_report(rt.alloc(), &bytes, fault)),
    }
}

// Prints the report of the only run.
fn explain_one<R: Files + Input + Print + Eprint + AllocGlobal>(
    rt: &R,
    run: &str,
    request: Request<'_>,
) -> Result<ExitCode, Fault> {
    match explanation_of(rt, run, request) {
        Ok(
            Explanation {
                text,
                is_faulty,
                ..
            },
        ) => {
            write_text(&mut Output::new(rt), Ok(text))?;
            Ok(Ending::from_report(is_faulty).status())
        }
        Err(failure) => Ok(failure.print(rt)),
    }
}

// Returns the fault of a run among several, with the name of the run.
fn text_of_failure(
    alloc: Global,
    run: &str,
    failure: &Failure,
    json: bool,
) -> Result<String, AllocError> {
    let fault = &failure.fault;
    let line = format!(in alloc; "{fault}")?;
    named_fault(alloc, run, line.as_str(), failure.reason.as_str(), json)
}

// Returns the report or the fault of a run among several, with the name of the run.
fn named_text(
    rt: &(impl Files + Input + Eprint + AllocGlobal),
    run: &str,
    request: Request<'_>,
) -> (Result<String, AllocError>, Ending) {
    let alloc = rt.alloc();
    match explanation_of(rt, run, request) {
        Ok(explanation) => {
            let report = explanation.text.as_str();
            let text = named_report(alloc, run, report, is_json(request));
            (text, Ending::from_report(explanation.is_faulty))
        }
        Err(failure) => (
            text_of_failure(alloc, run, &failure, is_json(request)),
            Ending::Failed,
        ),
    }
}

// Returns the text before the report of the run at an index.
fn text_before(index: usize, json: bool) -> &'static str {
    match (json, index) {
        (true, 0) => "[\n",
        (true, _) => ",\n",
        (false, 0) => "",
        (false, _) => "\n",
    }
}

// Prints the report of each of several runs.
fn explain_each<R: Files + Input + Print + Eprint + AllocGlobal>(
    rt: &R,
    runs: &[&str],
    request: Request<'_>,
) -> Result<ExitCode, Fault> {
    let mut output = Output::new(rt);
    let mut ending = Ending::Fine;
    for (index, run) in runs.iter().enumerate() {
        let before = text_before(index, is_json(request));
        write_text(&mut output, String::from_str(rt.alloc(), before))?;
        let (text, end) = named_text(rt, *run, request);
        write_text(&mut output, text)?;
        ending = ending.or_worse(end);
    }
    if is_json(request) {
        write_text(&mut output, String::from_str(rt.alloc(), "\n]\n"))?;
    }
    Ok(ending.status())
}

/// Prints the findings in the runs of scripts and traces: those of kinds with some names, or all.
/// With several runs each report has the name of its run. Returns exit status 1 if a run can't be
/// read or run; else 3 if a listed finding is a fault of a kind whose name isn't allowed; else 0.
pub fn explain_files<R: Files + Input + Print + Eprint + AllocGlobal>(
    rt: &R,
    runs: &[&str],
    kinds: &[&str],
    allowed: &[&str],
    form: ReportForm,
) -> Result<ExitCode, Fault> {
    let Ok(kinds) = kinds_of(rt.alloc(), kinds) else {
        return Err(Fault::Run(RunFault::Memory));
    };
    let Ok(allowed) = kinds_of(rt.alloc(), allowed) else {
        return Err(Fault::Run(RunFault::Memory));
    };
    let request = Request {
        kinds: &kinds,
        allowed: &allowed,
        form: form_of(form, runs),
    };
    match runs {
        [run] => explain_one(rt, *run, request),
        _ => explain_each(rt, runs, request),
    }
}
