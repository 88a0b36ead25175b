//! Collects the events of a part of a run, with the changes of each, while the run is stepped.
ghost use Rattle.std.specs.Prelude.{◌≡◌, [], map, string_bytes, IfOk};
ghost use Rattle.timeline.specs.{Common.IsAfter, Steps.AreSteps, Steps.IsStep, Steps.shown_line};

use crate::deeds::deed_of;
use crate::parts::StepPart;
use places::Record;
use run_log::{EventRange, change_lines, changes_of};
use runs::{Observed, Observer};
use script::EventText;
use std::alloc::{AllocError, Global};
use std::marker::PhantomData;
use timeline_values::{Ranged, change_parts};

/// The most bytes of a line of trace events.
const LONGEST: usize = 400;

/// An observer that collects the events of a range, each with the lines of its changes.
#[derive(Drop)]
pub(crate) struct Steps<K> {
    alloc: Global,
    range: EventRange,
    pub steps: Vec<StepPart>,
    proof: PhantomData<K>,
}

// Returns a line for trace events, cut if it is long.
fn shown_line(alloc: Global, line: &[u8]) -> Result<String, AllocError>
    ensures { IfOk result (λ text. string_bytes text ≡ shown_line line.now) }
{
    if line.len() <= LONGEST {
        return String::from_utf8_lossy(alloc, line);
    }
    let (front, _) = line.split_at(LONGEST);
    let front = String::from_utf8_lossy(alloc, front)?;
    format!(in alloc; "{front}..")
}

fn shown_lines(alloc: Global, lines: &[Vec<u8>]) -> Result<Vec<String>, AllocError>
    ensures { IfOk result (λ texts. map (λ text. string_bytes text) texts.items
        ≡ map (λ line. shown_line line.items) lines.now) }
{
    let mut texts = Vec::new(alloc);
    for line in lines {
        texts.push(shown_line(alloc, line)?)?;
    }
    Ok(texts)
}

// Returns an event that was stepped, with the lines of its changes.
fn step_of(alloc: Global, at: Observed<'_>, past: &Record) -> Result<StepPart, AllocError>
    requires { IsAfter at.setup.now at.events.now at.index at.event past.now at.state.now }
    ensures { IfOk result (IsStep at.entry.setup.now at.entry.events.now at.entry.index) }
{
    let changes = changes_of(alloc, past, at.state)?;
    let lines = change_lines(alloc, at.setup, &changes)?;
    let deed = deed_of(alloc, at.setup, at.state, &changes, at.event)?;
    let event = EventText(at.event);
    Ok(StepPart {
        event: format!(in alloc; "{event}")?,
        does: deed.text,
        instruction: deed.instruction,
        row: deed.row,
        changes: change_parts(alloc, at.setup, &changes)?,
        lines: shown_lines(alloc, &lines)?,
    })
}

impl<K: Ranged> Steps<K> {
    /// Returns an observer that has seen no event.
    pub(crate) fn new(alloc: Global, range: EventRange) -> Steps<K>
        requires { range ≡ K.range }
        ensures range { result.range ≡ K.range }
        ensures none { result.steps.items ≡ [] }
    {
        Steps {
            alloc,
            range,
            steps: Vec::new(alloc),
            proof: PhantomData,
        }
    }
}

impl<K: Ranged> Observer for Steps<K> {
    type Note = ();

    type Stop = AllocError;

    ghost has_seen = { λ o s es i. (o.range ≡ K.range) × AreSteps s es K.range i o.steps.items };

    ghost notes = { λ s es i n. Unit {0} };

    ghost stops = { λ o s es i x. Unit {0} };

    fn before(&self, _at: Observed<'_>) -> Result<(), AllocError> {
        Ok(())
    }

    fn after(&mut self, at: Observed<'_>, past: &Record, _note: ()) -> Result<(), AllocError> {
        if self.range.has(at.index) {
            self.steps.push(step_of(self.alloc, at, past)?)?;
        }
        Ok(())
    }
}
