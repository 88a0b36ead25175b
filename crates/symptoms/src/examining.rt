//! Examines a run for a symptom.
ghost use Rattle.std.specs.Prelude.{◌≡◌, ◌≤◌, length, find, option_map, IfOk, OnOk, IfErr};
ghost use Rattle.machine.specs.Runs.{start, Accepts};
ghost use Rattle.runs.specs.Moments.{IsAt};
ghost use Rattle.findings.specs.Searching.{HasSearched, Halted};
ghost use Rattle.symptoms.specs.declared.symptom.Symptom.TheVariants.{Finding as OfFinding, Reaches};
ghost use Rattle.symptoms.specs.Symptoms.{is_wanted, seen_by, seen_at, AreConclusive, IsFirst};

use crate::conclusive::conclusive_findings;
use crate::reaching::{Lookout, Sought};
use crate::symptom::{Goal, Sighting, Symptom, Wanted};
use finding_kinds::Finding;
use findings::Search;
use machine::{Event, Setup, State};
use runs::{Ended, Pair, drive};
use std::alloc::{AllocError, Global};
use std::marker::Brand;

/// What a run shows.
#[derive(Drop)]
pub struct Examined {
    /// The first sighting of the symptom, if there is one.
    pub sighting: Option<Sighting>,
    /// The conclusive findings of the run, in order.
    pub findings: Vec<Finding>,
}

// Returns the sighting of the first wanted finding.
fn sighting_by(finding: Option<Finding>) -> Option<Sighting>
    ensures { result ≡ option_map seen_by finding }
{
    match finding {
        Some(finding) => Some(Sighting {
            moment: finding.moment,
            finding: Some(finding),
        }),
        None => None,
    }
}

// Returns the sighting of the first moment at which places take values.
fn sighting_at(moment: Option<u32>) -> Option<Sighting>
    ensures { result ≡ option_map seen_at moment }
{
    match moment {
        Some(moment) => Some(Sighting {
            moment,
            finding: None,
        }),
        None => None,
    }
}

fn first_wanted(findings: &[Finding], wanted: &Wanted<'_>) -> Option<Finding>
    ensures { result ≡ find (λ f. is_wanted wanted.now f.kind) findings.now }
{
    findings
        .iter()
        .find(|finding| wanted.includes(finding.kind))
        .copied()
}

/// Returns what a run shows, given a search that has seen all its events and the state at its end.
#[tactic(auto, using(crate::proofs::Sighted::sighted_finding))]
pub fn examined_by(
    search: Search,
    setup: &Setup,
    events: &[Event],
    state: &State,
    wanted: &Wanted<'_>,
) -> Result<Examined, AllocError>
    requires at { IsAt setup.now events.now (length events.now) state.now }
    requires seen { HasSearched setup.now events.now (length events.now) search.found.items
        search.numbers.items search.watches.items search.files.writes.items
        search.files.suspects.items search.files.retried.items }
    ensures sighting { IfOk result
        (λ x. IsFirst setup.now events.now (OfFinding wanted.now) x.sighting) }
    ensures findings { IfOk result (λ x. AreConclusive setup.now events.now x.findings.items) }
{
    let findings = conclusive_findings(search, setup, events, state)?;
    Ok(Examined {
        sighting: sighting_by(first_wanted(&findings, wanted)),
        findings,
    })
}

// Looks for the first wanted finding. The history that only sentences need isn't kept.
fn examine_findings(
    alloc: Global,
    state: &mut State,
    setup: &Setup,
    events: &[Event],
    wanted: &Wanted<'_>,
) -> Result<Examined, Ended<AllocError>>
    requires starts { state.old ≡ start setup.now }
    requires most { length events.now ≤ 1048576 }
    ensures runs { OnOk result (Accepts (start setup.now) events.now) }
    ensures at { OnOk result (IsAt setup.now events.now (length events.now) state.new) }
    ensures sighting { IfOk result
        (λ x. IsFirst setup.now events.now (OfFinding wanted.now) x.sighting) }
    ensures findings { IfOk result (λ x. AreConclusive setup.now events.now x.findings.items) }
    ensures err { IfErr result (Halted setup.now events.now) }
{
    let Ok(mut search) = Search::without_history(alloc, setup, state) else {
        return Err(Ended::Memory);
    };
    drive(state, setup, events, &mut search)?;
    match examined_by(search, setup, events, state, wanted) {
        Ok(examined) => Ok(examined),
        Err(_) => Err(Ended::Memory),
    }
}

// Looks for the first moment at which the goals are reached.
fn examine_goals_as<K: Sought>(
    alloc: Global,
    state: &mut State,
    setup: &Setup,
    events: &[Event],
    goals: &[Goal],
) -> Result<Examined, Ended<AllocError>>
    requires starts { state.old ≡ start setup.now }
    requires most { length events.now ≤ 1048576 }
    requires goals { goals.now ≡ K.goals }
    ensures runs { OnOk result (Accepts (start setup.now) events.now) }
    ensures at { OnOk result (IsAt setup.now events.now (length events.now) state.new) }
    ensures sighting { IfOk result
        (λ x. IsFirst setup.now events.now (Reaches goals.entry) x.sighting) }
    ensures findings { IfOk result
        (λ x. AreConclusive setup.now events.now x.findings.items) }
    ensures err { IfErr result (Halted setup.now events.now) }
{
    let Ok(search) = Search::without_history(alloc, setup, state) else {
        return Err(Ended::Memory);
    };
    let mut observers: Pair<Search, Lookout<'_, K>> = Pair {
        first: search,
        second: Lookout::new(goals),
    };
    match drive(state, setup, events, &mut observers) {
        Ok(()) => {
            let Pair { first, second } = observers;
            match conclusive_findings(first, setup, events, state) {
                Ok(findings) => Ok(Examined {
                    sighting: sighting_at(second.reached),
                    findings,
                }),
                Err(_) => Err(Ended::Memory),
            }
        }
        Err(Ended::Refused(index, refusal)) => Err(Ended::Refused(index, refusal)),
        Err(_) => Err(Ended::Memory),
    }
}

/// Steps the events of a run from its start to its end, and returns the first sighting of the
/// symptom, with the findings. Fails if an event is refused or an allocation fails.
pub fn examine(
    alloc: Global,
    state: &mut State,
    setup: &Setup,
    events: &[Event],
    symptom: &Symptom<'_>,
) -> Result<Examined, Ended<AllocError>>
    requires starts { state.old ≡ start setup.now }
    requires most { length events.now ≤ 1048576 }
    ensures runs { OnOk result (Accepts (start setup.now) events.now) }
    ensures at { OnOk result (IsAt setup.now events.now (length events.now) state.new) }
    ensures sighting { IfOk result
        (λ x. IsFirst setup.now events.now symptom.now x.sighting) }
    ensures findings { IfOk result
        (λ x. AreConclusive setup.now events.now x.findings.items) }
    ensures err { IfErr result (Halted setup.now events.now) }
{
    match symptom {
        Symptom::Finding(wanted) => examine_findings(alloc, state, setup, events, wanted),
        Symptom::Reaches(goals) => { examine_goals_as::<Brand>(alloc, state, setup, events, goals) }
    }
}
