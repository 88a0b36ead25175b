//! Reads a run from the bytes of a script or a trace.
ghost use Rattle.std.specs.Prelude.{◌≡◌, ◌≤◌, None, true, false, length, IfOk, IfErr};
ghost use Rattle.runs.specs.{Common.setup_refusal, Reading.IsUnread, Reading.IsUnreadAs, Reading.Reads, Reading.ReadsAs, Reading.Startable};

use machine::{Event, Setup};
use places::Items;
use script::{Script, ScriptFault, read_script};
use std::alloc::Global;
use std::marker::Model;
use traces::{TraceFault, read_trace2};

/// The first byte of every trace. No script begins with it.
const TRACE_MARK: u8 = b'U';

/// What a run was read from.
#[derive(Drop)]
pub(crate) enum Source {
    Script(Script),
    Trace(Setup, Items<Event>),
}

/// A run: a setup from which it can start, and at most 1,048,576 events, some of which may be
/// refused.
pub struct Run {
    source: Source,
}

// Written by hand, so that dropping a run is one step of a proof.
impl Drop for Run {
    fn drop(self) {
        let Run { source: _ } = self;
    }
}

impl Model for Run {
    ghost use Rattle.script.specs.Scripts.{Scenario};
    ghost use Rattle.runs.specs.Reading.{Startable, scenario_of};

    ghost Value = { Scenario };

    ghost view = { λ r. scenario_of r.source };

    ghost invariant = { λ r. Startable (scenario_of r.source) };
}

impl Run {
    fn from_script(script: Script) -> Run
        requires { Startable script }
        ensures { result ≡ script }
    {
        Run {
            source: Source::Script(script),
        }
    }

    fn from_trace(setup: Setup, events: Items<Event>) -> Run
        requires { Startable (record { setup = setup; schedule = events }) }
        ensures { result ≡ record { setup = setup; schedule = events } }
    {
        Run {
            source: Source::Trace(setup, events),
        }
    }

    /// Returns the setup from which the run starts.
    pub fn setup(&self) -> &Setup
        ensures value { result.now ≡ self.now.setup }
        ensures starts { setup_refusal self.now.setup ≡ None }
    {
        match &self.source {
            Source::Script(script) => script.setup(),
            Source::Trace(setup, _) => setup,
        }
    }

    /// Returns the events of the run.
    pub fn events(&self) -> &[Event]
        ensures value { result.now ≡ self.now.schedule }
        ensures most { length self.now.schedule ≤ 1048576 }
    {
        match &self.source {
            Source::Script(script) => script.schedule(),
            Source::Trace(_, events) => events.as_slice(),
        }
    }
}

/// Why a run can't be read.
#[derive(Clone, Copy)]
pub enum RunFault {
    /// The first fault of the script.
    Script(ScriptFault),
    /// The first fault of the trace.
    Trace(TraceFault),
    /// An allocation failed.
    Memory,
}

// Reads a script.
fn read_as_script(alloc: Global, text: &[u8]) -> Result<Run, RunFault>
    ensures ok { IfOk result (ReadsAs false text.now) }
    ensures err { IfErr result (IsUnreadAs false text.now) }
{
    match read_script(alloc, text) {
        Ok(script) => Ok(Run::from_script(script)),
        Err(ScriptFault::Memory) => Err(RunFault::Memory),
        Err(fault) => Err(RunFault::Script(fault)),
    }
}

// Reads a trace of the second form.
fn read_as_trace(alloc: Global, trace: &[u8]) -> Result<Run, RunFault>
    ensures ok { IfOk result (ReadsAs true trace.now) }
    ensures err { IfErr result (IsUnreadAs true trace.now) }
{
    match read_trace2(alloc, trace) {
        Ok((setup, events)) => Ok(Run::from_trace(setup, Items::from_vec(events))),
        Err(TraceFault::Memory) => Err(RunFault::Memory),
        Err(fault) => Err(RunFault::Trace(fault)),
    }
}

/// Returns whether bytes are read as a trace: they begin with a `U`.
pub fn is_trace(bytes: &[u8]) -> bool {
    bytes.first() == Some(&TRACE_MARK)
}

/// Reads a trace of the second form if the bytes begin with a `U`, and otherwise a script.
pub fn read_run(alloc: Global, bytes: &[u8]) -> Result<Run, RunFault>
    ensures ok { IfOk result (Reads bytes.now) }
    ensures err { IfErr result (IsUnread bytes.now) }
{
    match bytes {
        [TRACE_MARK, ..] => read_as_trace(alloc, bytes),
        _ => read_as_script(alloc, bytes),
    }
}
