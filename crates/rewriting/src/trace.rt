//! Takes the schedule of a script from a trace.
ghost use Rattle.std.specs.Prelude.{◌≡◌, ℕ, None, Ok, List, length, IfOk, IfErr};
ghost use Rattle.scenario.specs.declared.event.Event.{Event};
ghost use Rattle.scenario.specs.Setups.{setup_refusal};
ghost use Rattle.script.specs.Scripts.{Scenario, Reads};
ghost use Rattle.traces.specs.Setups.{canonical, IsTrace2};
ghost use Rattle.rewriting.specs.Rewriting.{IsRewritten, IsUnplanned, IsUnscheduled};

use crate::fault::{RewriteFault, ScheduleFault};
use crate::schedule::rewritten;
use scenario::{Event, Setup};
use script::{ScriptFault, read_script};
use std::alloc::Global;
use traces::{TraceFault, read_trace2, write_trace2};

/// The most events of a schedule.
const MOST_EVENTS: u32 = 65_536;

// Reads the events of a trace, which must have this setup.
fn events_of(alloc: Global, setup: &Setup, trace: &[u8]) -> Result<Vec<Event>, ScheduleFault>
    requires starts { setup_refusal setup.now ≡ None }
    ensures ok { IfOk result (λ events. IsTrace2 (canonical setup.now) events.items trace.now) }
    ensures err { (text : List ℕ) → IfErr result (IsUnplanned text setup.now trace.now) }
{
    let (_, events) = match read_trace2(alloc, trace) {
        Ok(found) => found,
        Err(TraceFault::Memory) => return Err(ScheduleFault::Rewrite(RewriteFault::Memory)),
        Err(fault) => return Err(ScheduleFault::Trace(fault)),
    };
    // A trace of the same events has the same setup if it has the same bytes.
    let same = write_trace2(alloc, setup, &events)?;
    if same.as_slice() == trace {
        Ok(events)
    } else {
        Err(ScheduleFault::OtherSetup)
    }
}

// Replaces the schedule of a script with this setup.
fn with_trace(
    alloc: Global,
    text: &[u8],
    setup: &Setup,
    trace: &[u8],
) -> Result<(Vec<u8>, u32), ScheduleFault>
    requires starts { setup_refusal setup.now ≡ None }
    ensures ok { IfOk result (λ made. (events : List Event)
        × IsTrace2 (canonical setup.now) events trace.now
        × IsRewritten text.now setup.now events made.0.items × (made.1 ≡ length events)) }
    ensures err { IfErr result (IsUnplanned text.now setup.now trace.now) }
{
    let events = events_of(alloc, setup, trace)?;
    let count = events.len() as u32;
    if count > MOST_EVENTS {
        return Err(ScheduleFault::TooMany(count));
    }
    let made = rewritten(alloc, text, setup, &events)?;
    Ok((made, count))
}

/// Returns the text of a script with the events of a trace of the second form as its schedule, and
/// their number. The trace must have the script's setup, after rounding the ring sizes.
pub fn with_events_of(
    alloc: Global,
    text: &[u8],
    trace: &[u8],
) -> Result<(Vec<u8>, u32), ScheduleFault>
    // The result is a script with the text's setup and the trace's events.
    ensures ok { IfOk result (λ made. (p : Scenario) × (events : List Event)
        × Reads text.now (Ok p) × IsTrace2 (canonical p.setup) events trace.now
        × IsRewritten text.now p.setup events made.0.items × (made.1 ≡ length events)) }
    ensures err { IfErr result (IsUnscheduled text.now trace.now) }
{
    match read_script(alloc, text) {
        Ok(script) => with_trace(alloc, text, script.setup(), trace),
        Err(ScriptFault::Memory) => Err(ScheduleFault::Rewrite(RewriteFault::Memory)),
        Err(fault) => Err(ScheduleFault::Rewrite(RewriteFault::Script(fault))),
    }
}
