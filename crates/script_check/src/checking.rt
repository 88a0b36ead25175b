//! The `check` subcommand: writes what is wrong with a script.
ghost use Rattle.std.specs.Prelude.{◌≡◌, ◌≤◌, None, length, IfOk, IfErr};
ghost use Rattle.scenario.specs.Setups.{setup_refusal};
ghost use Rattle.machine.specs.Runs.{start, Accepts};
ghost use Rattle.script_check.specs.Verdicts.{Ends, IsVerdict, IsOfOutput, IsUnreported};

use crate::document::Wording;
use crate::refused::sentence_at;
use crate::report::{Source, event_text, faults_text, warnings_text};
use crate::verdict::Verdict;
use machine::{Event, Refusal, Setup, State};
use runs::{Ended, ReportFault, drive};
use script::items::key_path;
use script::{Key, Script, ScriptFault, read_script};
use std::alloc::{AllocError, Global};
use std::io::Write;
use whole_files::write_out;

/// The most bytes that a script may have.
pub(crate) const MOST_BYTES: usize = 8388608;

// Writes the report.
fn write_text<W: Write>(
    message: Result<String, AllocError>,
    writer: &mut W,
) -> Result<(), ReportFault>
    ensures { IfErr result IsOfOutput }
{
    let text = message?;
    write_out(writer, text.as_str().as_bytes())?;
    Ok(())
}

// Returns the line that reports a refused event. `state` is the one before the event.
fn refusal_text(
    alloc: Global,
    source: Source<'_>,
    state: &State,
    setup: &Setup,
    events: &[Event],
    index: u32,
    refusal: Refusal,
) -> Wording {
    let message = sentence_at(alloc, state, setup, events, index, refusal)?;
    event_text(alloc, source, index, message.as_str())
}

// Returns the verdict on a valid script whose events are all accepted.
fn accepted(setup: &Setup, events: &[Event]) -> Verdict
    ensures { Accepts (start setup.now) events.now → Ends setup.now events.now result }
{
    if events.is_empty() && !setup.threads.as_slice().is_empty() {
        Verdict::Unscheduled
    } else {
        Verdict::Fine
    }
}

// Runs events from the start of a setup, writes the report, and returns the verdict.
fn check_events<W: Write>(
    alloc: Global,
    source: Source<'_>,
    setup: &Setup,
    events: &[Event],
    writer: &mut W,
) -> Result<Verdict, ReportFault>
    requires starts { setup_refusal setup.now ≡ None }
    requires most { length events.now ≤ 1048576 }
    ensures ok { IfOk result (Ends setup.now events.now) }
    ensures err { IfErr result IsOfOutput }
{
    let Ok(mut state) = State::new(alloc, setup) else {
        return Err(ReportFault::Memory);
    };
    match drive(&mut state, setup, events, &mut ()) {
        Ok(()) => {
            write_text(warnings_text(alloc, source, setup), writer)?;
            write_text(String::from_str(alloc, "ok\n"), writer)?;
            Ok(accepted(setup, events))
        }
        Err(Ended::Refused(index, refusal)) => {
            let text = refusal_text(alloc, source, &state, setup, events, index, refusal);
            write_text(text, writer)?;
            write_text(warnings_text(alloc, source, setup), writer)?;
            Ok(Verdict::Refused(index, refusal))
        }
        Err(Ended::Memory) => Err(ReportFault::Memory),
    }
}

// Runs a script's schedule, writes the report, and returns the verdict.
fn check_plan<W: Write>(
    alloc: Global,
    source: Source<'_>,
    script: &Script,
    writer: &mut W,
) -> Result<Verdict, ReportFault>
    ensures ok { IfOk result (Ends script.now.setup script.now.schedule) }
    ensures err { IfErr result IsOfOutput }
{
    check_events(alloc, source, script.setup(), script.schedule(), writer)
}

/// Writes what is wrong with a script, or `ok`. For an invalid script, writes a line for each of at
/// most 20 faults, beginning with its first fault. For a valid one, writes a line about the first
/// event that is refused, and a warning for each request that fails in every run, at most 20. These
/// lines begin with `name`. A text of more than 8,388,608 bytes gets
/// no verdict: it isn't read, and nothing is written.
#[tactic(auto, using(crate::proofs::VerdictLemmas::verdict_of_plan, crate::proofs::VerdictLemmas::unreported))]
pub fn check_script<W: Write>(
    alloc: Global,
    name: &str,
    text: &[u8],
    writer: &mut W,
) -> Result<Verdict, ReportFault>
    ensures ok { IfOk result (IsVerdict text.now) }
    ensures err { IfErr result (IsUnreported text.now) }
{
    if text.len() > MOST_BYTES {
        return Err(ReportFault::Script(ScriptFault::Limit(key_path(Key::Document))));
    }
    let source = Source { name, text };
    match read_script(alloc, text) {
        Ok(script) => check_plan(alloc, source, &script, writer),
        Err(ScriptFault::Memory) => Err(ReportFault::Memory),
        Err(fault) => {
            write_text(faults_text(alloc, source, fault), writer)?;
            Ok(Verdict::Faulty(fault))
        }
    }
}
