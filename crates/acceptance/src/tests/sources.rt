//! Live sessions, which add events from a source.
ghost use Rattle.std.specs.Prelude.{◌≡◌, None, option_map, drop, slice_get};

use crate::tests::check;
use crate::tests::devices::SOUND;
use crate::tests::sessions::{Served, serve_slowly};
use debug_server::{RunFault, ServeFault, Session, Source};
use machine::Event;
use script::read_script;
use std::alloc::{AllocError, Global};
use std::test::Fail;

/// A thread with two stores, and a schedule that runs both.
const TWO_STORES: &str =
    r#"{"entries":1,"threads":[[["store",0,"aa"],["store",1,"bb"]]],"schedule":[["step",0],["step",0]]}"#;

/// A schedule whose first event is refused.
const NO_START: &str = r#"{"entries":1,"threads":[],"schedule":[["issue",0],["tick",1]]}"#;

const LINES: &str = "sync\nwhere\ngoto 1\nshow mem 0\nsync\nsync\nsync\nsync\nsync\nwhere\n";

const REPLIES: &str =
    "synced 1\nat 0 of 1\nat 1 of 1\naa\nsynced 2\nrefused 3 torn 0\nrefused 3 torn 1\nrefused 4 event 2\nrefused 2 source\nat 1 of 2\n";

const STEP: Event = Event::Step(0);

/// The source's traces: one step, two steps, a tick, one step, three steps.
const TRACES: [&[Event]; 5] = [
    &[STEP],
    &[STEP, STEP],
    &[Event::Tick(1)],
    &[STEP],
    &[STEP, STEP, STEP],
];

/// A source that returns the first of its traces and removes it, or `None` once none is left.
#[derive(Drop)]
struct Answers {
    traces: Vec<Vec<Event>>,
}

impl Source for Answers {
    ghost gives = { λ old answer new. (answer
        ≡ option_map (λ v. v.items) (slice_get old.traces.items 0))
        × (new.traces.items ≡ drop 1 old.traces.items) };

    ghost fails = { λ _ _. ⊥ };

    fn trace(&mut self) -> Result<Option<Vec<Event>>, AllocError> {
        if self.traces.is_empty() {
            return Ok(None);
        }
        Ok(Some(self.traces.remove(0)))
    }
}

/// A source whose allocations fail.
#[derive(Drop)]
struct Starved;

impl Source for Starved {
    ghost gives = { λ _ answer _. answer ≡ None };

    ghost fails = { λ old new. new ≡ old };

    fn trace(&mut self) -> Result<Option<Vec<Event>>, AllocError> {
        Err(AllocError)
    }
}

fn five_answers(alloc: Global) -> Result<Answers, AllocError> {
    let mut traces = Vec::new(alloc);
    for trace in TRACES {
        traces.push(Vec::from_slice(alloc, trace)?)?;
    }
    Ok(Answers { traces })
}

// Opens a live session of a script, without running its schedule.
fn live_session_of(alloc: Global, text: &str) -> Result<Session, RunFault> {
    match read_script(alloc, text.as_bytes()) {
        Ok(script) => Session::live(alloc, &script),
        Err(fault) => Err(RunFault::Script(fault)),
    }
}

// Serves lines to a new live session.
fn serve_anew<S: Source>(
    alloc: Global,
    script: &str,
    lines: &[u8],
    source: &mut S,
) -> Result<Served, RunFault> {
    let mut session = live_session_of(alloc, script)?;
    let served = serve_slowly(alloc, &mut session, lines, (SOUND, SOUND), source);
    Ok(served)
}

fn has(served: &Served, fault: Option<ServeFault>, written: &str) -> bool {
    served.fault == fault && served.written.as_slice() == written.as_bytes()
}

#[test]
fn syncs_with_a_list_of_answers(rt: HostRuntime) -> Result<(), Fail> {
    let mut source = five_answers(rt.alloc())?;
    let served = serve_anew(rt.alloc(), TWO_STORES, LINES.as_bytes(), &mut source)?;
    check(&rt, has(&served, None, REPLIES));
    Ok(())
}

// The line before `sync` is answered, and nothing after it.
#[test]
fn a_source_without_memory_closes_the_session(rt: HostRuntime) -> Result<(), Fail> {
    let served = serve_anew(rt.alloc(), NO_START, b"where\nsync\nwhere\n", &mut Starved)?;
    check(&rt, has(&served, Some(ServeFault::Memory), "at 0 of 0\n"));
    Ok(())
}
