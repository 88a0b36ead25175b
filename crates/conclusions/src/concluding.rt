//! The conclusion of a search.
ghost use Rattle.std.specs.Prelude.{◌≡◌, ◌≤◌, length, IfOk, IfSome, is_some, None, false};
ghost use Rattle.scenario.specs.Setups.{setup_refusal};
ghost use Rattle.rewriting.specs.Rewriting.{IsRewritten};
ghost use Rattle.exploring.specs.RandomRuns.{CanRun};
ghost use Rattle.conclusions.specs.Conclusions.{IsHit, IsScriptOf, IsFoundScript};

use crate::fault::ConclusionFault;
use crate::shown::{Shown, sentence_of, shown_by};
use explorations::{Discovery, Exploration, SeenKind, json_of, text_of};
use exploring::RandomRuns;
use finding_kinds::Kind;
use machine::Setup;
use rewriting::{RewriteFault, with_schedule};
use search_rounds::Totals;
use shrinking::Shrunk;
use std::alloc::{AllocError, Global};

/// What a search prints and writes.
#[derive(Drop)]
pub struct Conclusion {
    pub printed: String,
    /// The script with the schedule that was found, if there is a file to write.
    pub script: Option<Vec<u8>>,
    pub is_found: bool,
}

/// How a search reports.
#[derive(Clone, Copy)]
pub struct Reporting<'a> {
    /// The text of the script.
    pub script: &'a [u8],
    /// The texts of the places and their values, if they are looked for.
    pub until: &'a [&'a str],
    /// What fails in every run, a clause for each instruction.
    pub every_run: &'a [String],
    /// The file to write.
    pub out: Option<&'a str>,
    pub json: bool,
}

// Returns the kinds that runs showed, and how many runs showed each.
fn seen_by(alloc: Global, kinds: &[Kind], totals: &Totals) -> Result<Vec<SeenKind>, AllocError> {
    let mut seen = Vec::new(alloc);
    for (kind, runs) in kinds.iter().zip(totals.kinds.iter()) {
        if *runs > 0 {
            seen.push(SeenKind {
                kind: kind.word(),
                runs: *runs,
            })?;
        }
    }
    Ok(seen)
}

// Returns the result as text or as JSON.
fn printed(
    alloc: Global,
    exploration: &Exploration<'_, '_>,
    json: bool,
) -> Result<String, AllocError> {
    if json {
        json_of(alloc, exploration)
    } else {
        text_of(alloc, exploration)
    }
}

// Returns the result of a search.
fn exploration_of<'a, 'b>(
    runs: &RandomRuns<'_>,
    every_run: &'b [String],
    totals: &Totals,
    seen: &'a [SeenKind],
    discovery: Option<Discovery<'a>>,
    unwritten: Option<&'b str>,
) -> Exploration<'a, 'b> {
    Exploration {
        seed: runs.seed,
        late: runs.options.late,
        every_run,
        runs: totals.runs,
        events: totals.events,
        seen,
        discovery,
        unwritten,
    }
}

// Returns the report of a run that was found.
fn report_of(
    runs: &RandomRuns<'_>,
    reporting: Reporting<'_>,
    totals: &Totals,
    number: u32,
    shown: &Shown,
) -> Result<String, AllocError>
    requires starts { setup_refusal runs.now.setup.now ≡ None }
    requires most { length shown.now.shrunk.events.items ≤ 65536 }
{
    let seen = seen_by(runs.alloc, runs.kinds, totals)?;
    let text = sentence_of(runs.alloc, runs.setup, &shown.shrunk)?;
    let sighting = shown.shrunk.sighting;
    let kind = sighting.finding.map(|finding| finding.kind.word());
    let until = reporting.until.join(runs.alloc, ", ")?;
    let discovery = Discovery {
        kind,
        name: kind.unwrap_or(until.as_str()),
        moment: sighting.moment,
        run: number,
        text: text.as_str(),
        length: shown.length,
        schedule: &shown.shrunk.events,
        out: reporting.out,
    };
    let exploration = exploration_of(
        runs,
        reporting.every_run,
        totals,
        &seen,
        Some(discovery),
        None,
    );
    printed(runs.alloc, &exploration, reporting.json)
}

// Returns the report of a search that found nothing.
fn nothing(
    runs: &RandomRuns<'_>,
    reporting: Reporting<'_>,
    totals: &Totals,
) -> Result<Conclusion, ConclusionFault>
    ensures { IfOk result (λ c. (c.is_found ≡ false) × (c.script ≡ None)) }
{
    let seen = seen_by(runs.alloc, runs.kinds, totals)?;
    let exploration = exploration_of(
        runs,
        reporting.every_run,
        totals,
        &seen,
        None,
        reporting.out,
    );
    Ok(Conclusion {
        printed: printed(runs.alloc, &exploration, reporting.json)?,
        script: None,
        is_found: false,
    })
}

// Returns the script with a schedule, if there is a file to write.
fn script_with(
    alloc: Global,
    reporting: Reporting<'_>,
    setup: &Setup,
    shrunk: &Shrunk,
) -> Result<Option<Vec<u8>>, RewriteFault>
    requires text { IsScriptOf reporting.script.now setup.now }
    requires most { length shrunk.now.events.items ≤ 65536 }
    ensures { IfOk result (λ script. IfSome script (λ made.
        IsRewritten reporting.entry.script.now setup.now shrunk.now.events.items made.items)) }
{
    match reporting.out {
        Some(_) => Ok(Some(with_schedule(alloc, reporting.script, &shrunk.events)?)),
        None => Ok(None),
    }
}

/// Returns the report of a search, and the script with the schedule that was found.
pub fn conclude(
    runs: &RandomRuns<'_>,
    reporting: Reporting<'_>,
    found: Option<u32>,
    totals: &Totals,
) -> Result<Conclusion, ConclusionFault>
    requires runs { CanRun runs.now }
    requires starts { setup_refusal runs.now.setup.now ≡ None }
    requires hit { IsHit runs.now found }
    requires text { IsScriptOf reporting.script.now runs.now.setup.now }
    ensures found { IfOk result (λ c. c.is_found ≡ is_some found) }
    ensures script { IfOk result (λ c. IfSome c.script
        (λ made. IsFoundScript reporting.entry.script.now runs.now found made.items)) }
{
    let Some(number) = found else {
        return nothing(runs, reporting, totals);
    };
    let Some(shown) = shown_by(runs, number)? else {
        return nothing(runs, reporting, totals);
    };
    Ok(Conclusion {
        printed: report_of(runs, reporting, totals, number, &shown)?,
        script: script_with(runs.alloc, reporting, runs.setup, &shown.shrunk)?,
        is_found: true,
    })
}
