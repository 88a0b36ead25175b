//! The `explain` subcommand: runs a script or a trace and reports its findings.
ghost use Rattle.std.specs.Prelude.{◌≡◌, ◌≤◌, None, IfOk, IfErr, length};
ghost use Rattle.explanations.specs.{Common.list_any, Common.setup_refusal, Explained.Explains, Explained.ExplainsRun, Explained.Unexplained, Explained.UnexplainedRun, Explained.counts, Explained.is_among, Explained.is_fault_of, Explained.is_requested};

use crate::json::add_object;
use crate::sarif::{HEAD, Source, TAIL, add_result, source_of};
use finding_kinds::{Finding, Kind};
use findings::search_run;
use machine::{Event, Setup, State};
use runs::{Ended, ReportFault, read_run};
use sentences::{Run, sentence};
use std::alloc::{AllocError, Global};

/// The form of a report.
#[derive(Clone, Copy)]
pub enum Form<'a> {
    /// Paragraphs.
    Text,
    /// A list of objects.
    Json,
    /// A SARIF log. The run is the file of this path; without one, nothing has a location.
    Sarif(Option<&'a str>),
}

/// The options of `explain`.
#[derive(Clone, Copy)]
pub struct Request<'a> {
    /// Report only kinds with these names (`--kind`), or all kinds if there are none.
    pub kinds: &'a [Kind],
    /// Faults of kinds with these names don't change the exit status (`--allow`).
    pub allowed: &'a [Kind],
    /// The form of the report: `--json`, `--sarif`, or paragraphs.
    pub form: Form<'a>,
}

/// The report of a run.
#[derive(Drop)]
pub struct Explanation {
    /// The findings of the requested kinds in order.
    pub text: String,
    /// Whether some of them is a fault that isn't allowed.
    pub is_faulty: bool,
    /// Whether the run has threads and no event.
    pub is_unscheduled: bool,
}

// Returns whether a kind has the name of one of some kinds.
fn is_among(kinds: &[Kind], kind: Kind) -> bool
    ensures { result ≡ is_among kinds.now kind }
{
    kinds.iter().any(|other| other.has_name_of(kind))
}

fn is_requested(kinds: &[Kind], kind: Kind) -> bool
    ensures { result ≡ is_requested kinds.now kind }
{
    kinds.is_empty() || is_among(kinds, kind)
}

// Returns whether the finding is a fault of a requested kind.
fn is_fault_of(kinds: &[Kind], finding: &Finding) -> bool
    ensures { result ≡ is_fault_of kinds.now finding.now }
{
    is_requested(kinds, finding.kind) && finding.kind.is_fault()
}

// Returns whether the finding is a fault of a requested kind that isn't allowed.
fn counts(kinds: &[Kind], allowed: &[Kind], finding: &Finding) -> bool
    ensures { result ≡ counts kinds.now allowed.now finding.now }
{
    is_fault_of(kinds, finding) && !is_among(allowed, finding.kind)
}

fn has_fault(kinds: &[Kind], allowed: &[Kind], found: &[Finding]) -> bool
    ensures { result ≡ list_any (counts kinds.now allowed.now) found.now }
{
    found.iter().any(|finding| counts(kinds, allowed, finding))
}

// Appends a headline, with the kind and the moment, and the finding's sentences below it.
fn add_paragraph(
    alloc: Global,
    out: &mut String,
    run: &Run<'_>,
    index: usize,
    finding: Finding,
) -> Result<(), AllocError> {
    let kind = finding.kind.word();
    let moment = finding.moment;
    let text = sentence(alloc, run, index)?;
    let paragraph = format!(in alloc; "{kind} at {moment}\n  {text}\n\n")?;
    out.push_str(paragraph.as_str())
}

// Appends a finding, if its kind is requested.
fn add_finding(
    alloc: Global,
    out: &mut String,
    source: Option<&Source>,
    run: &Run<'_>,
    request: Request<'_>,
    index: usize,
    finding: Finding,
) -> Result<(), AllocError> {
    if !is_requested(request.kinds, finding.kind) {
        return Ok(());
    }
    match request.form {
        Form::Text => add_paragraph(alloc, out, run, index, finding),
        Form::Json => add_object(alloc, out, run, index, finding),
        Form::Sarif(_) => add_result(alloc, out, source, run, index, finding),
    }
}

fn add_findings(
    alloc: Global,
    out: &mut String,
    source: Option<&Source>,
    run: &Run<'_>,
    request: Request<'_>,
) -> Result<(), AllocError> {
    for index in 0..run.found.len() {
        add_finding(alloc, out, source, run, request, index, run.found[index])?;
    }
    Ok(())
}

// Appends the numbers of faults and of notes; and of allowed faults, if `--allow` was given.
fn add_sum(
    alloc: Global,
    out: &mut String,
    found: &[Finding],
    request: Request<'_>,
) -> Result<(), AllocError> {
    let Request { kinds, allowed, .. } = request;
    let reported = found
        .iter()
        .filter(|it| is_requested(kinds, it.kind))
        .count();
    let bad = found.iter().filter(|it| is_fault_of(kinds, it)).count();
    let faults = found.iter().filter(|it| counts(kinds, allowed, it)).count();
    let notes = reported.saturating_sub(bad);
    let spared = bad.saturating_sub(faults);
    let sum = if allowed.is_empty() {
        format!(in alloc; "faults {faults}, notes {notes}\n")?
    } else {
        format!(in alloc; "faults {faults}, notes {notes}, allowed {spared}\n")?
    };
    out.push_str(sum.as_str())
}

// Appends the findings as a SARIF log.
fn add_log(
    alloc: Global,
    out: &mut String,
    source: Option<Source>,
    run: &Run<'_>,
    request: Request<'_>,
) -> Result<(), AllocError> {
    out.push_str(HEAD)?;
    add_findings(alloc, out, source.as_ref(), run, request)?;
    out.push_str(TAIL)
}

// Returns the report of the run that bytes describe.
fn text_of(
    alloc: Global,
    bytes: &[u8],
    run: &Run<'_>,
    request: Request<'_>,
) -> Result<String, AllocError> {
    let mut out = String::new(alloc);
    match request.form {
        Form::Text => {
            add_findings(alloc, &mut out, None, run, request)?;
            add_sum(alloc, &mut out, run.found, request)?;
        }
        Form::Json => {
            out.push_str("[\n")?;
            add_findings(alloc, &mut out, None, run, request)?;
            out.push_str("\n]\n")?;
        }
        Form::Sarif(Some(path)) => {
            let source = source_of(alloc, path, bytes)?;
            add_log(alloc, &mut out, source, run, request)?;
        }
        Form::Sarif(None) => add_log(alloc, &mut out, None, run, request)?,
    }
    Ok(out)
}

// Runs the events, which bytes describe, and reports their findings.
fn explain_events(
    alloc: Global,
    bytes: &[u8],
    setup: &Setup,
    events: &[Event],
    request: Request<'_>,
) -> Result<Explanation, ReportFault>
    requires starts { setup_refusal setup.now ≡ None }
    requires most { length events.now ≤ 1048576 }
    ensures ok { IfOk result (Explains setup.now events.now request.entry.kinds.now
        request.entry.allowed.now) }
    ensures err { IfErr result (Unexplained setup.now events.now) }
{
    let Ok(mut state) = State::new(alloc, setup) else {
        return Err(ReportFault::Memory);
    };
    let found = match search_run(alloc, &mut state, setup, events) {
        Ok(found) => found,
        Err(Ended::Refused(index, refusal)) => return Err(ReportFault::Schedule(index, refusal)),
        Err(_) => return Err(ReportFault::Memory),
    };
    let run = Run {
        setup,
        state: &state,
        events,
        history: &found.history,
        found: &found.findings,
    };
    let text = text_of(alloc, bytes, &run, request)?;
    Ok(Explanation {
        text,
        is_faulty: has_fault(request.kinds, request.allowed, &found.findings),
        is_unscheduled: events.is_empty() && !setup.threads.as_slice().is_empty(),
    })
}

/// Runs a trace, if the first byte is `U`, or else a script, and reports its findings. Errors: the
/// input is malformed, an event is refused, or an allocation fails.
#[tactic(auto, using(crate::proofs::Unexplained::unexplained_unread, crate::proofs::Unexplained::unexplained_run))]
pub fn explain_run(
    alloc: Global,
    bytes: &[u8],
    request: Request<'_>,
) -> Result<Explanation, ReportFault>
    ensures ok { IfOk result (ExplainsRun bytes.now request.entry.kinds.now
        request.entry.allowed.now) }
    ensures err { IfErr result (UnexplainedRun bytes.now) }
{
    let run = read_run(alloc, bytes)?;
    explain_events(alloc, bytes, run.setup(), run.events(), request)
}
