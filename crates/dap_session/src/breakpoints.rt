//! Breakpoints: on lines, on names of events, and on moments.

use crate::addresses::address_of;
use crate::base::Base;
use crate::event_names::EventName;
use crate::lines::{Located, Wish, event_line, events_between, items_between};
use dap_messages::{FunctionBreakpoint, InstructionBreakpoint, SourceBreakpoint};
use inverse_log::Walker;
use machine::Event;
use source_map::SourceMap;
use std::alloc::{AllocError, Global};
use stops::{Moments, Site, breakpoints};

/// The lines of a run's source: those of its script, or of its trace.
#[derive(Clone, Copy)]
pub(crate) struct Lines<'a> {
    pub(crate) map: Option<&'a SourceMap>,
    pub(crate) walker: &'a Walker,
    pub(crate) base: Base,
}

impl Lines<'_> {
    /// Returns what is on a line.
    pub(crate) fn find(&self, wish: Wish) -> Option<Located> {
        match self.map {
            Some(map) => wish.find(map),
            None => event_line(wish.line, self.walker.len()),
        }
    }

    /// Returns what starts in a range.
    pub(crate) fn between(
        &self,
        alloc: Global,
        first: Wish,
        last: Wish,
    ) -> Result<Vec<Located>, AllocError> {
        match self.map {
            Some(map) => items_between(alloc, map, first, last),
            None => events_between(alloc, self.walker.len(), first, last),
        }
    }

    /// Returns what a breakpoint is set on.
    pub(crate) fn find_for(&self, breakpoint: &SourceBreakpoint) -> Option<Located> {
        if breakpoint.condition.is_some() {
            return None;
        }
        self.find(self.base.wish(breakpoint.line, breakpoint.column))
    }
}

fn add_lines(
    sites: &mut Vec<Site>,
    lines: Lines<'_>,
    wanted: &[SourceBreakpoint],
) -> Result<(), AllocError> {
    for breakpoint in wanted {
        if let Some(located) = lines.find_for(breakpoint) {
            sites.push(located.site)?;
        }
    }
    Ok(())
}

/// Returns the name of a breakpoint on events, if it has no condition.
pub(crate) fn name_of(breakpoint: &FunctionBreakpoint) -> Option<EventName> {
    if breakpoint.condition.is_some() {
        return None;
    }
    EventName::read(breakpoint.name.as_str())
}

// Returns the names of some breakpoints on events.
fn names_of(alloc: Global, wanted: &[FunctionBreakpoint]) -> Result<Vec<EventName>, AllocError> {
    let mut names = Vec::new(alloc);
    for breakpoint in wanted {
        if let Some(name) = name_of(breakpoint) {
            names.push(name)?;
        }
    }
    Ok(names)
}

// Adds the events that have one of some names, each once.
fn add_named(
    sites: &mut Vec<Site>,
    events: &[Event],
    names: &[EventName],
) -> Result<(), AllocError> {
    if names.is_empty() {
        return Ok(());
    }
    for (index, event) in events.iter().enumerate() {
        if names.iter().any(|name| name.names(*event)) {
            sites.push(Site::Event(index))?;
        }
    }
    Ok(())
}

/// Returns the moment of a breakpoint on an address, if it has no condition. Nothing stops at the
/// end of the run.
pub(crate) fn moment_of(walker: &Walker, breakpoint: &InstructionBreakpoint) -> Option<usize> {
    if breakpoint.condition.is_some() {
        return None;
    }
    let address = address_of(breakpoint.reference.as_str())?;
    let moment = address.checked_add(breakpoint.offset)?;
    let Ok(moment) = usize::try_from(moment) else {
        return None;
    };
    if walker.len() <= moment {
        return None;
    }
    Some(moment)
}

fn add_instructions(
    sites: &mut Vec<Site>,
    walker: &Walker,
    wanted: &[InstructionBreakpoint],
) -> Result<(), AllocError> {
    for breakpoint in wanted {
        if let Some(moment) = moment_of(walker, breakpoint) {
            sites.push(Site::Event(moment))?;
        }
    }
    Ok(())
}

/// Returns the moments at which breakpoints stop a run.
pub(crate) fn moments_of(
    alloc: Global,
    lines: Lines<'_>,
    source: &[SourceBreakpoint],
    functions: &[FunctionBreakpoint],
    instructions: &[InstructionBreakpoint],
) -> Result<Moments, AllocError> {
    let mut sites = Vec::new(alloc);
    add_lines(&mut sites, lines, source)?;
    let names = names_of(alloc, functions)?;
    add_named(&mut sites, lines.walker.events(), &names)?;
    add_instructions(&mut sites, lines.walker, instructions)?;
    if sites.is_empty() {
        return Ok(Moments::new(alloc));
    }
    let end = lines.walker.last_state()?;
    breakpoints(alloc, lines.walker, &end, &sites)
}
