//! Logs a run, event by event.
ghost use Rattle.std.specs.Prelude.{◌≡◌, ◌≤◌, ◌⊎◌, ℕ, List, Option, None, length, IfOk, OnOk, IfErr};
ghost use Rattle.run_log.specs.{Appends, Keeps, setup_refusal, view, start, WritesFront, EventRange, Shows, Written, Stopped, Logged, Unlogged};

use crate::changed::changes_of;
use crate::line::event_lines;
use crate::range::EventRange;
use machine::{Event, Setup, State};
use places::Record;
use runs::{Observed, Observer, ReportFault, drive, read_run};
use std::alloc::{AllocError, Global};
use std::io::Write;
use std::marker::{Brand, PhantomData};
use whole_files::write_out;

/// The writer and the range at the start of a log, for proofs.
pub trait LogStart {
    // The writer's contents, if they are known, and the name of the reference to it.
    ghost contents: { Option (List ℕ) };

    ghost name: { ℕ };

    // The events to log.
    ghost range: { EventRange };
}

impl LogStart for Brand {
    ghost contents = { None };

    ghost name = { 0 };

    ghost range = { record { from = 0; to = None } };
}

// An observer that writes the lines of each event in a range after the event was stepped.
#[derive(Drop)]
struct Logger<'a, W, S> {
    alloc: Global,
    range: EventRange,
    writer: &'a mut W,
    start: PhantomData<S>,
}

// Returns the lines of an event, from its undo record and the state after it.
fn report(
    alloc: Global,
    setup: &Setup,
    index: usize,
    event: Event,
    past: &Record,
    state: &State,
) -> Result<Vec<u8>, AllocError>
    ensures { IfOk result
        (λ text. Shows setup.now index event (view state.now) past.now text.items) }
{
    let changes = changes_of(alloc, past, state)?;
    event_lines(alloc, setup, index, event, &changes)
}

// Writes the lines of an event, from its undo record and the state after it.
fn write_report<W: Write>(
    alloc: Global,
    setup: &Setup,
    index: usize,
    event: Event,
    past: &Record,
    state: &State,
    writer: &mut W,
) -> Result<(), ReportFault>
    ensures ok { OnOk result ((text : List ℕ)
        × Shows setup.now index event (view state.now) past.now text
        × Appends (W.contents writer.old) (W.contents writer.new) text) }
    ensures err { IfErr result (λ f. ((f ≡ ReportFault.Memory)
        × Keeps (W.contents writer.old) (W.contents writer.new))
        ⊎ ((f ≡ ReportFault.Write) × (text : List ℕ)
        × Shows setup.now index event (view state.now) past.now text
        × WritesFront (W.contents writer.old) (W.contents writer.new) text)) }
{
    match report(alloc, setup, index, event, past, state) {
        Ok(text) => match write_out(writer, &text) {
            Ok(()) => Ok(()),
            Err(_) => Err(ReportFault::Write),
        },
        Err(_) => Err(ReportFault::Memory),
    }
}

impl<'a, W: Write, S: LogStart> Observer for Logger<'a, W, S> {
    type Note = ();

    type Stop = ReportFault;

    ghost has_seen = { λ o s es i. Written s es S.range i S.contents (W.contents o.writer.now)
        × (o.range ≡ S.range) × (o.writer.ghost_name ≡ S.name) };

    ghost notes = { λ s es i n. Unit {0} };

    ghost stops = { λ o s es i f. Stopped s es S.range f S.contents (W.contents o.writer.now)
        × (o.writer.ghost_name ≡ S.name) };

    fn before(&self, _at: Observed<'_>) -> Result<(), ReportFault> {
        Ok(())
    }

    fn after(&mut self, at: Observed<'_>, past: &Record, _note: ()) -> Result<(), ReportFault> {
        if !self.range.has(at.index) {
            return Ok(());
        }
        write_report(
            self.alloc,
            at.setup,
            at.index,
            at.event,
            past,
            at.state,
            self.writer,
        )
    }
}

// Runs events from the start, with a logger as observer.
fn log_from<W: Write, S: LogStart>(
    state: &mut State,
    setup: &Setup,
    events: &[Event],
    logger: &mut Logger<'_, W, S>,
) -> Result<(), ReportFault>
    requires starts { state.old ≡ start setup.now }
    requires most { length events.now ≤ 1048576 }
    requires contents { W.contents logger.old.writer.now ≡ S.contents }
    requires range { logger.old.range ≡ S.range }
    requires name { logger.old.writer.ghost_name ≡ S.name }
    ensures ok { OnOk result (Written setup.now events.now S.range (length events.now) S.contents
        (W.contents logger.new.writer.now)) }
    ensures err { IfErr result (λ f. Stopped setup.now events.now S.range f S.contents
        (W.contents logger.new.writer.now)) }
    ensures same { logger.new.writer.ghost_name ≡ S.name }
{
    drive(state, setup, events, logger)?;
    Ok(())
}

/// Runs events from the start of a setup. Writes the lines of each event in the range after its
/// step.
pub fn log_events<W: Write>(
    alloc: Global,
    setup: &Setup,
    events: &[Event],
    range: EventRange,
    writer: &mut W,
) -> Result<(), ReportFault>
    requires starts { setup_refusal setup.now ≡ None }
    requires most { length events.now ≤ 1048576 }
    ensures ok { OnOk result
        (Written setup.now events.now range (length events.now) (W.contents writer.old)
        (W.contents writer.new)) }
    ensures err { IfErr result
        (λ f. Stopped setup.now events.now range f (W.contents writer.old)
        (W.contents writer.new)) }
{
    let Ok(mut state) = State::new(alloc, setup) else {
        return Err(ReportFault::Memory);
    };
    let mut logger = Logger::<W, Brand> {
        alloc,
        range,
        writer,
        start: PhantomData,
    };
    log_from(&mut state, setup, events, &mut logger)
}

/// Logs the run of a trace if the first byte is `U`, otherwise the run of a script.
pub fn log_run<W: Write>(
    alloc: Global,
    bytes: &[u8],
    range: EventRange,
    writer: &mut W,
) -> Result<(), ReportFault>
    ensures ok { OnOk result
        (Logged bytes.now range (W.contents writer.old) (W.contents writer.new)) }
    ensures err { IfErr result
        (λ f. Unlogged bytes.now range f (W.contents writer.old) (W.contents writer.new)) }
{
    let run = read_run(alloc, bytes)?;
    log_events(alloc, run.setup(), run.events(), range, writer)
}
