//! Makes random runs.
ghost use Rattle.std.specs.Prelude.{◌≡◌, ◌≤◌, ◌<◌, ◌+◌, ◌++◌, ◌∷◌, [], List, None, true, length, take, IfOk, OnOk, OnErr};
ghost use Rattle.places.specs.declared.value.Change.{Change};
ghost use Rattle.scenario.specs.declared.event.Event.{Event};
ghost use Rattle.machine.specs.Runs.{start, Accepts, Link, Linked};
ghost use Rattle.machine.specs.Steps.{refusal};
ghost use Rattle.machine.specs.declared.whole.Machine.{Machine};
ghost use Rattle.quiescence.specs.Over.{SaysOver};
ghost use Rattle.sampling.specs.Samples.{IsRun, IsSample, IsBegun, IsOpening, IsBegin, IsLast, StaysSeen};

use crate::choosing::next_event;
use crate::draws::{SampleOptions, Source, source_of};
use crate::program::Program;
use crate::samples::Sample;
use machine::{Event, Setup, State};
use places::Record;
use quiescence::is_over;
use runs::{Observed, Observer};
use std::alloc::AllocError;

/// Continues a run from its opening, so that it is run `number` of a seed, and calls the observer
/// before and after each event. Fails if an allocation fails or the observer stops the run; the
/// events so far lead back to the start then too.
pub fn sample<O: Observer>(
    state: &mut State,
    program: &Program<'_>,
    options: SampleOptions,
    seed: u64,
    number: u32,
    into: &mut Sample,
    observer: &mut O,
) -> Result<(), AllocError>
    requires opening { IsOpening program.now options into.old.events.items into.old.next_row }
    requires linked { Linked (start program.now) into.old.events.items into.old.records.items
        state.old }
    requires most { options.most ≤ 1048576 }
    requires stays { StaysSeen O.has_seen program.now }
    requires seen { O.has_seen observer.old program.now into.old.events.items
        (length into.old.events.items) }
    ensures sample { OnOk result (IsSample program.now options seed number into.new.events.items) }
    ensures begins { OnOk result (IsBegin into.old.events.items into.new.events.items) }
    ensures accepts { Accepts (start program.now) into.new.events.items }
    ensures linked { Linked (start program.now) into.new.events.items into.new.records.items
        state.new }
    ensures over { OnOk result (SaysOver into.new.is_over state.new) }
    ensures seen { OnOk result (O.has_seen observer.new program.now into.new.events.items
        (length into.new.events.items)) }
{
    into.is_over = false;
    let source = source_of(options, seed, number);
    run(state, program, &source, options.most, into, observer)?;
    into.is_over = is_over(state, program.thread_count());
    Ok(())
}

/// Undoes a run, given the state after its events. Doesn't allocate.
pub fn undo(state: &mut State, sample: &Sample)
    requires { (s : Machine) × Linked s sample.now.events.items sample.now.records.items state.old }
    ensures { (s : Machine) → Linked s sample.now.events.items sample.now.records.items state.old
        → state.new ≡ s }
{
    state.unwind(&sample.records);
}

/// Undoes the events of a run from number `opening` on. The first request of the last submission
/// was `next_row` then. Doesn't allocate.
pub fn rewind(state: &mut State, sample: &mut Sample, opening: usize, next_row: u32)
    requires events { opening ≤ length sample.old.events.items }
    requires records { opening ≤ length sample.old.records.items }
    requires linked { (s : Machine) × Linked s sample.old.events.items sample.old.records.items
        state.old }
    ensures events { sample.new.events.items ≡ take opening sample.old.events.items }
    ensures next_row { sample.new.next_row ≡ next_row }
    ensures linked { (s : Machine) → Linked s sample.old.events.items sample.old.records.items state.old
        → Linked s sample.new.events.items sample.new.records.items state.new }
{
    state.unwind(&sample.records[opening..]);
    sample.events.truncate(opening);
    sample.records.truncate(opening);
    sample.next_row = next_row;
}

// Does the events that come next, until there are `most` of them or none is left.
fn run<O: Observer>(
    state: &mut State,
    program: &Program<'_>,
    source: &Source,
    most: u32,
    into: &mut Sample,
    observer: &mut O,
) -> Result<(), AllocError>
    requires begun { IsBegun source.now most (start program.now) into.old.events.items
        into.old.next_row into.old.records.items state.old }
    requires most { most ≤ 1048576 }
    requires stays { StaysSeen O.has_seen program.now }
    requires seen { O.has_seen observer.old program.now into.old.events.items
        (length into.old.events.items) }
    ensures run { OnOk result (IsRun source.now most (start program.now) 0 into.new.events.items) }
    ensures begins { OnOk result (IsBegin into.old.events.items into.new.events.items) }
    ensures linked { Linked (start program.now) into.new.events.items into.new.records.items
        state.new }
    ensures seen { OnOk result (O.has_seen observer.new program.now into.new.events.items
        (length into.new.events.items)) }
{
    'events: while into.events.len() < most as usize {
        let Some(next) = next_event(state, program, source, into.next_row) else {
            return Ok(());
        };
        advance(state, program.setup(), next.event, into, observer)?;
        into.next_row = next.row;
    }
    Ok(())
}

// Does one event more.
pub(crate) fn advance<O: Observer>(
    state: &mut State,
    setup: &Setup,
    event: Event,
    into: &mut Sample,
    observer: &mut O,
) -> Result<(), AllocError>
    requires accepted { refusal state.old event ≡ None }
    requires linked { Linked (start setup.now) into.old.events.items into.old.records.items
        state.old }
    requires room { length into.old.events.items < 1048576 }
    requires stays { StaysSeen O.has_seen setup.now }
    requires seen { O.has_seen observer.old setup.now into.old.events.items
        (length into.old.events.items) }
    ensures events { OnOk result (into.new.events.items ≡ into.old.events.items ++ event ∷ []) }
    ensures linked { Linked (start setup.now) into.new.events.items into.new.records.items
        state.new }
    ensures seen { OnOk result (O.has_seen observer.new setup.now into.new.events.items
        (length into.new.events.items)) }
{
    if into.records.reserve(1).is_err() {
        return Err(AllocError);
    }
    let earlier = into.events.len();
    into.events.push(event)?;
    match step(state, setup, &into.events, earlier, event, observer) {
        Ok(stepped) => {
            into.records.push(stepped.past).unwrap();
            if stepped.is_seen {
                Ok(())
            } else {
                Err(AllocError)
            }
        }
        Err(AllocError) => {
            into.events.truncate(earlier);
            Err(AllocError)
        }
    }
}

// An event that was stepped.
#[derive(Drop)]
struct Stepped {
    past: Record,
    // Whether the observer continues.
    is_seen: bool,
}

// Steps the last of some events, of which `earlier` come before it, and calls the observer before
// and after it. Fails, with the state as it was, if an allocation fails or the observer stops the
// run before the event.
fn step<O: Observer>(
    state: &mut State,
    setup: &Setup,
    events: &[Event],
    earlier: usize,
    event: Event,
    observer: &mut O,
) -> Result<Stepped, AllocError>
    requires last { (es : List Event) × (rs : List (List Change))
        × IsLast setup.now es rs events.now earlier event state.old }
    requires seen { O.has_seen observer.old setup.now events.now earlier }
    ensures link { IfOk result (λ stepped. Link state.old event stepped.past state.new) }
    ensures seen { IfOk result (λ stepped. stepped.is_seen ≡ true
        → O.has_seen observer.new setup.now events.now (earlier + 1)) }
    ensures err { OnErr result (state.new ≡ state.old) }
{
    let before = Observed {
        setup,
        events,
        index: earlier,
        event,
        state,
    };
    let Ok(note) = observer.before(before) else {
        return Err(AllocError);
    };
    let Ok(past) = state.step(event) else {
        return Err(AllocError);
    };
    let after = Observed {
        setup,
        events,
        index: earlier,
        event,
        state,
    };
    let is_seen = match observer.after(after, &past, note) {
        Ok(()) => true,
        Err(_) => false,
    };
    Ok(Stepped { past, is_seen })
}
