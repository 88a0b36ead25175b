//! The requests that set breakpoints.
ghost use Rattle.std.specs.Prelude.{◌≡◌, IfOk, OnErr, OnOk, filter, map};
ghost use Rattle.dap_session.specs.Moves.{SetsFindings};
ghost use Rattle.dap_session.specs.Searches.{finding_moments, moment_in, stops_at};

use crate::breakpoints::{Lines, moment_of, moments_of, name_of};
use crate::conditions::value_of;
use crate::debuggee::Debuggee;
use crate::members::object_of;
use crate::sourcing::TRACE_SOURCE;
use crate::verdicts::{unverified, verified, verified_at};
use crate::wanted::{Wanted, stops_at};
use dap_answers::{Refusal, Reply};
use dap_messages::{
    DataBreakpoint, ExceptionFilter, FunctionBreakpoint, InstructionBreakpoint,
    SetBreakpointsArguments, Source, SourceBreakpoint,
};
use dap_views::place_named;
use explanations::Report;
use inverse_log::Walker;
use places::{Items, Place, Value as PlaceValue};
use serde_json::Value;
use std::alloc::{AllocError, Global};
use stops::Moments;
use watches::{LIMIT, Watches};

const NOT_THE_SOURCE: &str = "this file isn't the program's";

const NO_ITEM: &str = "the line has no instruction and no event";

const CONDITION: &str = "only data breakpoints have conditions";

const NO_EVENT: &str = "the run has no event with this name";

const NO_ADDRESS: &str = "the run has no such moment";

const NO_PLACE: &str = "there is no such place";

const NO_VALUE: &str = "a condition is = and a value of the place";

const TOO_MANY: &str = "there are 64 data breakpoints already";

// Returns whether two paths may lead to one file: one ends with the other.
fn is_same_file(one: &str, other: &str) -> bool {
    one == other || ends_with_path(one, other) || ends_with_path(other, one)
}

// Returns whether a path ends with another one after a slash.
fn ends_with_path(long: &str, short: &str) -> bool {
    match long.strip_suffix(short) {
        Some(front) => front.ends_with('/'),
        None => false,
    }
}

// Returns what a line's breakpoint is set on, or why it isn't.
fn line_verdict(
    alloc: Global,
    lines: Lines<'_>,
    breakpoint: &SourceBreakpoint,
) -> Result<Value, AllocError> {
    if breakpoint.condition.is_some() {
        return unverified(alloc, CONDITION);
    }
    match lines.find_for(breakpoint) {
        Some(located) => verified_at(alloc, lines.base, located),
        None => unverified(alloc, NO_ITEM),
    }
}

fn line_verdicts(
    alloc: Global,
    lines: Lines<'_>,
    wanted: &[SourceBreakpoint],
) -> Result<Value, AllocError> {
    let mut verdicts = Vec::new(alloc);
    for breakpoint in wanted {
        verdicts.push(line_verdict(alloc, lines, breakpoint)?)?;
    }
    object_of(alloc, "breakpoints", verdicts)
}

// Returns that none of some breakpoints is set.
fn none_set(alloc: Global, count: usize) -> Result<Value, AllocError> {
    let mut verdicts = Vec::new(alloc);
    for _ in 0..count {
        verdicts.push(unverified(alloc, NOT_THE_SOURCE)?)?;
    }
    object_of(alloc, "breakpoints", verdicts)
}

fn has_event(walker: &Walker, breakpoint: &FunctionBreakpoint) -> bool {
    match name_of(breakpoint) {
        Some(name) => walker.events().iter().any(|event| name.names(*event)),
        None => false,
    }
}

fn function_verdicts(
    alloc: Global,
    walker: &Walker,
    wanted: &[FunctionBreakpoint],
) -> Result<Value, AllocError> {
    let mut verdicts = Vec::new(alloc);
    for breakpoint in wanted {
        let verdict = if breakpoint.condition.is_some() {
            unverified(alloc, CONDITION)?
        } else if has_event(walker, breakpoint) {
            verified(alloc)?
        } else {
            unverified(alloc, NO_EVENT)?
        };
        verdicts.push(verdict)?;
    }
    object_of(alloc, "breakpoints", verdicts)
}

fn instruction_verdicts(
    alloc: Global,
    walker: &Walker,
    wanted: &[InstructionBreakpoint],
) -> Result<Value, AllocError> {
    let mut verdicts = Vec::new(alloc);
    for breakpoint in wanted {
        let verdict = if breakpoint.condition.is_some() {
            unverified(alloc, CONDITION)?
        } else if moment_of(walker, breakpoint).is_some() {
            verified(alloc)?
        } else {
            unverified(alloc, NO_ADDRESS)?
        };
        verdicts.push(verdict)?;
    }
    object_of(alloc, "breakpoints", verdicts)
}

// Watches a place, unless it is watched. Returns why it can't be watched, if it can't.
fn set_watch(watches: &mut Watches, place: Place) -> Result<Option<&'static str>, AllocError> {
    if watches
        .places()
        .iter()
        .any(|watched| watched.equals(&place))
    {
        return Ok(None);
    }
    if watches.places().len() + watches.breaks().len() >= LIMIT {
        return Ok(Some(TOO_MANY));
    }
    watches.watch(place)?;
    Ok(None)
}

// Stops at a value of a place, unless a run stops there already. Returns why it can't stop there,
// if it can't.
fn set_break(
    watches: &mut Watches,
    place: Place,
    value: PlaceValue,
) -> Result<Option<&'static str>, AllocError> {
    let is_set = watches
        .breaks()
        .iter()
        .any(|set| set.place.equals(&place) && set.value.equals(&value));
    if is_set {
        return Ok(None);
    }
    if watches.places().len() + watches.breaks().len() >= LIMIT {
        return Ok(Some(TOO_MANY));
    }
    watches.break_at(place, value)?;
    Ok(None)
}

// Sets a data breakpoint. Returns why it can't be set, if it can't.
fn set_data(
    alloc: Global,
    walker: &Walker,
    watches: &mut Watches,
    breakpoint: &DataBreakpoint,
) -> Result<Option<&'static str>, AllocError> {
    let words = breakpoint.data.as_str();
    let Some(place) = place_named(alloc, walker.setup(), words)? else {
        return Ok(Some(NO_PLACE));
    };
    let Some(condition) = &breakpoint.condition else {
        return set_watch(watches, place);
    };
    match value_of(alloc, walker, words, condition.as_str())? {
        Some((place, value)) => set_break(watches, place, value),
        None => Ok(Some(NO_VALUE)),
    }
}

/// Returns the data breakpoints that are requested, and what a response says about each.
pub(crate) fn data_of(
    alloc: Global,
    walker: &Walker,
    wanted: &[DataBreakpoint],
) -> Result<(Watches, Value), AllocError> {
    let mut watches = Watches::new(alloc);
    let mut verdicts = Vec::new(alloc);
    for breakpoint in wanted {
        let verdict = match set_data(alloc, walker, &mut watches, breakpoint)? {
            None => verified(alloc)?,
            Some(message) => unverified(alloc, message)?,
        };
        verdicts.push(verdict)?;
    }
    let body = object_of(alloc, "breakpoints", verdicts)?;
    Ok((watches, body))
}

// Returns the moments of the findings that pass a filter, in the order of the findings.
fn passing_moments(
    alloc: Global,
    reports: &[Report],
    filters: &[ExceptionFilter],
) -> Result<Vec<usize>, AllocError>
    ensures { IfOk result (λ ms. ms.items
        ≡ map moment_in (filter (stops_at filters.now) reports.now)) }
{
    reports
        .iter()
        .filter(|report| stops_at(filters, report))
        .map(|report| report.finding.moment as usize)
        .collect(alloc)
}

/// Returns the moments of the findings at which a run stops.
pub(crate) fn finding_moments(
    alloc: Global,
    reports: &[Report],
    filters: &[ExceptionFilter],
) -> Result<Moments, AllocError>
    ensures { IfOk result (λ ms. ms ≡ finding_moments filters.now reports.now) }
{
    Ok(Moments::from_vec(passing_moments(alloc, reports, filters)?))
}

impl Debuggee {
    pub(crate) fn lines(&self) -> Lines<'_> {
        Lines {
            map: self.map.as_ref(),
            walker: self.searched.walker(),
            base: self.base,
        }
    }

    // Returns whether a source is the program's.
    pub(crate) fn is_source(&self, source: &Source) -> bool {
        match source {
            Source::Path(path) => is_same_file(path.as_str(), self.path.as_str()),
            Source::Reference(reference) => self.map.is_none() && *reference == TRACE_SOURCE,
        }
    }

    pub(crate) fn set_breakpoints(
        &mut self,
        arguments: SetBreakpointsArguments,
    ) -> Result<Reply, Refusal>
        ensures kept { self.new ≡ record self.old { marks = self.new.marks } }
        ensures err { OnErr result (self.new ≡ self.old) }
    {
        let SetBreakpointsArguments {
            source,
            breakpoints,
        } = arguments;
        if !self.is_source(&source) {
            return Ok(Reply::of(Some(none_set(self.alloc, breakpoints.len())?)));
        }
        let body = line_verdicts(self.alloc, self.lines(), breakpoints.as_slice())?;
        let moments = moments_of(
            self.alloc,
            self.lines(),
            breakpoints.as_slice(),
            self.wanted.functions.as_slice(),
            self.wanted.instructions.as_slice(),
        )?;
        self.wanted.lines = breakpoints;
        self.marks.breakpoints = moments;
        Ok(Reply::of(Some(body)))
    }

    pub(crate) fn set_functions(
        &mut self,
        wanted: Items<FunctionBreakpoint>,
    ) -> Result<Reply, Refusal>
        ensures kept { self.new ≡ record self.old { marks = self.new.marks } }
        ensures err { OnErr result (self.new ≡ self.old) }
    {
        let body = function_verdicts(self.alloc, self.walker(), wanted.as_slice())?;
        let moments = moments_of(
            self.alloc,
            self.lines(),
            self.wanted.lines.as_slice(),
            wanted.as_slice(),
            self.wanted.instructions.as_slice(),
        )?;
        self.wanted.functions = wanted;
        self.marks.breakpoints = moments;
        Ok(Reply::of(Some(body)))
    }

    pub(crate) fn set_instructions(
        &mut self,
        wanted: Items<InstructionBreakpoint>,
    ) -> Result<Reply, Refusal>
        ensures kept { self.new ≡ record self.old { marks = self.new.marks } }
        ensures err { OnErr result (self.new ≡ self.old) }
    {
        let body = instruction_verdicts(self.alloc, self.walker(), wanted.as_slice())?;
        let moments = moments_of(
            self.alloc,
            self.lines(),
            self.wanted.lines.as_slice(),
            self.wanted.functions.as_slice(),
            wanted.as_slice(),
        )?;
        self.wanted.instructions = wanted;
        self.marks.breakpoints = moments;
        Ok(Reply::of(Some(body)))
    }

    pub(crate) fn set_data(&mut self, wanted: Items<DataBreakpoint>) -> Result<Reply, Refusal>
        ensures kept { self.new ≡ record self.old { watches = self.new.watches } }
        ensures err { OnErr result (self.new ≡ self.old) }
    {
        let (watches, body) = data_of(self.alloc, self.walker(), wanted.as_slice())?;
        self.wanted.data = wanted;
        self.watches = watches;
        Ok(Reply::of(Some(body)))
    }

    pub(crate) fn set_exceptions(
        &mut self,
        wanted: Items<ExceptionFilter>,
    ) -> Result<Reply, Refusal>
        ensures kept { self.new ≡ record self.old { marks = self.new.marks } }
        ensures stops { OnOk result (SetsFindings self.old wanted self.new) }
        ensures err { OnErr result (self.new ≡ self.old) }
    {
        if wanted.is_empty() {
            self.marks.findings = Moments::new(self.alloc);
            self.wanted.filters = wanted;
            return Ok(Reply::of(None));
        }
        self.searched.search()?;
        let reports = self.searched.reports();
        let moments = finding_moments(self.alloc, reports, wanted.as_slice())?;
        self.marks.findings = moments;
        self.wanted.filters = wanted;
        Ok(Reply::of(None))
    }

    /// Sets the breakpoints that the editor set for an earlier run. Only their filters are kept:
    /// where the run stops at findings, they choose the one that it names.
    pub(crate) fn set_all(&mut self, wanted: &Wanted) -> Result<(), Refusal>
        ensures { self.new.session ≡ self.old.session }
    {
        self.marks.breakpoints = moments_of(
            self.alloc,
            self.lines(),
            wanted.lines.as_slice(),
            wanted.functions.as_slice(),
            wanted.instructions.as_slice(),
        )?;
        let (watches, _body) = data_of(self.alloc, self.walker(), wanted.data.as_slice())?;
        self.watches = watches;
        self.wanted.filters = wanted.filters.copy(self.alloc)?;
        if wanted.filters.is_empty() {
            return Ok(());
        }
        self.search()?;
        let (reports, filters) = (self.searched.reports(), wanted.filters.as_slice());
        self.marks.findings = finding_moments(self.alloc, reports, filters)?;
        Ok(())
    }
}
