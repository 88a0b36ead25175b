//! The run that was found, made short and explained.
ghost use Rattle.std.specs.Prelude.{◌≡◌, ◌≤◌, length, IfOk, IfNone, IfSome, None};
ghost use Rattle.scenario.specs.Setups.{setup_refusal};
ghost use Rattle.machine.specs.Runs.{start, Accepts};
ghost use Rattle.symptoms.specs.Symptoms.{IsFirst};
ghost use Rattle.exploring.specs.RandomRuns.{CanRun, HasEvents, RunShows};
ghost use Rattle.conclusions.specs.Conclusions.{IsShown};

use exploring::{RandomRuns, Worker};
use finding_kinds::Finding;
use findings::search_run;
use machine::{Event, Setup, State};
use sentences::{Run, sentence};
use shrinking::{Shrunk, shrink};
use std::alloc::{AllocError, Global};
use symptoms::{Sighting, examine};

/// A run that shows the symptom.
#[derive(Drop)]
pub(crate) struct Shown {
    /// The number of events before it was made short.
    pub(crate) length: u32,
    pub(crate) shrunk: Shrunk,
}

// Makes a run again, and returns its events.
fn events_of(runs: &RandomRuns<'_>, number: u32) -> Result<Vec<Event>, AllocError>
    requires { CanRun runs.now }
    ensures events { IfOk result (λ events. HasEvents runs.now number events.items) }
    ensures most { IfOk result (λ events. length events.items ≤ 65536) }
{
    let mut worker = Worker::new(runs.alloc, runs.setup)?;
    runs.examine_run(&mut worker, number)?;
    worker.sample.events.as_slice().to_vec(runs.alloc)
}

// Returns where events show the symptom.
fn sighting_of(runs: &RandomRuns<'_>, events: &[Event]) -> Result<Option<Sighting>, AllocError>
    requires runs { CanRun runs.now }
    requires most { length events.now ≤ 65536 }
    ensures accepts { IfOk result (λ _. Accepts (start runs.now.setup.now) events.now) }
    ensures first { IfOk result (IsFirst runs.now.setup.now events.now runs.now.symptom) }
{
    let Ok(mut state) = State::new(runs.alloc, runs.setup) else {
        return Err(AllocError);
    };
    match examine(runs.alloc, &mut state, runs.setup, events, &runs.symptom) {
        Ok(examined) => Ok(examined.sighting),
        Err(_) => Err(AllocError),
    }
}

/// Makes a run that shows the symptom again, and makes it short. The result is never None.
#[tactic(auto, using(crate::proofs::Hits::has_sighting))]
pub(crate) fn shown_by(runs: &RandomRuns<'_>, number: u32) -> Result<Option<Shown>, AllocError>
    requires runs { CanRun runs.now }
    requires starts { setup_refusal runs.now.setup.now ≡ None }
    requires shows { RunShows runs.now number }
    ensures some { IfOk result (λ shown. IfNone shown ⊥) }
    ensures shown { IfOk result (λ shown. IfSome shown
        (λ x. IsShown runs.now number x.shrunk.events.items x.shrunk.sighting)) }
{
    let events = events_of(runs, number)?;
    let Some(sighting) = sighting_of(runs, &events)? else {
        return Ok(None);
    };
    let shrunk = shrink(runs.alloc, runs.setup, &events, &runs.symptom, sighting)?;
    Ok(Some(Shown {
        length: events.len() as u32,
        shrunk,
    }))
}

// Returns the sentences about a finding, given the state at the start.
fn sentence_from(
    alloc: Global,
    state: &mut State,
    setup: &Setup,
    events: &[Event],
    finding: Finding,
) -> Result<String, AllocError>
    requires starts { state.old ≡ start setup.now }
    requires most { length events.now ≤ 1048576 }
{
    let Ok(found) = search_run(alloc, state, setup, events) else {
        return Err(AllocError);
    };
    let run = Run {
        setup,
        state,
        events,
        history: &found.history,
        found: &found.findings,
    };
    match found.findings.iter().position(|it| *it == finding) {
        Some(index) => sentence(alloc, &run, index),
        None => Ok(String::new(alloc)),
    }
}

/// Returns the sentences about a finding of a run. The text is empty if there is no finding.
pub(crate) fn sentence_of(
    alloc: Global,
    setup: &Setup,
    shrunk: &Shrunk,
) -> Result<String, AllocError>
    requires starts { setup_refusal setup.now ≡ None }
    requires most { length shrunk.now.events.items ≤ 1048576 }
{
    let Some(finding) = shrunk.sighting.finding else {
        return Ok(String::new(alloc));
    };
    let Ok(mut state) = State::new(alloc, setup) else {
        return Err(AllocError);
    };
    sentence_from(alloc, &mut state, setup, &shrunk.events, finding)
}
