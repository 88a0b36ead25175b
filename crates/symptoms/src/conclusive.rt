//! The conclusive findings of a run. Those about its end aren't if the run is cut off before.
ghost use Rattle.std.specs.Prelude.{◌≡◌, ◌≤◌, length, IfOk};
ghost use Rattle.quiescence.specs.Over.{SaysOver};
ghost use Rattle.runs.specs.Moments.{IsAt};
ghost use Rattle.findings.specs.Searching.{HasSearched};
ghost use Rattle.symptoms.specs.Symptoms.{is_of_end, conclusive, AreConclusive};

use finding_kinds::{ConflictKind, Finding, Kind, Verdict};
use findings::{Found, Search};
use machine::{Event, Setup, State};
use quiescence::is_over;
use std::alloc::AllocError;

/// Returns whether findings of a kind are about the end of a run. An FSYNC that may be early is a
/// fault only if bytes aren't durable then.
pub fn is_of_end(kind: Kind) -> bool
    ensures { result ≡ is_of_end kind }
{
    matches!(
        kind,
        Kind::Lasting(_) | Kind::Left(_) | Kind::Conflict(ConflictKind::FsyncEarly(Verdict::Fault))
    )
}

// Returns whether the run is over: nothing more can happen but idle events. Fails only for a setup
// with 2^32 threads or more; no state starts from one, since 16 are the most.
fn ends_over(setup: &Setup, state: &State) -> Result<bool, AllocError>
    requires { length state.now.threads ≤ length setup.now.threads }
    ensures { IfOk result (λ over. SaysOver over state.now) }
{
    match u32::try_from(setup.threads.as_slice().len()) {
        Ok(threads) => Ok(is_over(state, threads)),
        Err(_) => Err(AllocError),
    }
}

// Removes the findings about the end, unless the run is over then.
fn keep_conclusive(findings: &mut Vec<Finding>, is_over: bool)
    ensures { findings.new.items ≡ conclusive is_over findings.old.items }
{
    findings.retain(|finding| is_over || !is_of_end(finding.kind));
}

/// Returns the conclusive findings of a run of which the search has seen all events, given the state
/// at the run's end.
pub(crate) fn conclusive_findings(
    search: Search,
    setup: &Setup,
    events: &[Event],
    state: &State,
) -> Result<Vec<Finding>, AllocError>
    requires at { IsAt setup.now events.now (length events.now) state.now }
    requires seen { HasSearched setup.now events.now (length events.now) search.found.items
        search.numbers.items search.watches.items search.files.writes.items
        search.files.suspects.items search.files.retried.items }
    ensures { IfOk result (λ found. AreConclusive setup.now events.now found.items) }
{
    let is_over = ends_over(setup, state)?;
    let Found { mut findings, .. } = search.finish(setup, events, state)?;
    keep_conclusive(&mut findings, is_over);
    Ok(findings)
}
