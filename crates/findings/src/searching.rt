//! The search for findings, event by event.
ghost use Rattle.std.specs.Prelude.{◌≡◌, ◌≤◌, ◌++◌, List, length, IfOk, OnOk, IfErr, flat_map};
ghost use Rattle.findings.specs.{IsCopy, NamesOnce, Event, start, Accepts, view, SaysOver, IsAt, instruction_at, IsReportOf, overflows, done_as, noted_by, of_change, of_overflow, of_step, of_cancel, of_effect, after_notes, all_at_end, of_lasting, NotesFacts, HasSearched, Halted};

use crate::changes::look_at_record;
use crate::leftover::{add_all_left, add_all_unsynced};
use crate::lost::note_lost;
use crate::noting::{note_counter, note_dropped, note_emptied, note_event, note_slot};
use crate::ordering::in_order;
use crate::record::{Added, add_of_effect, add_of_event};
use crate::suspects::{Durability, follow_files};
use crate::verdicts::judge;
use crate::watching::{Watch, add_all_lasting, advance, begin, watches_of};
use finding_kinds::{Finding, History};
use finding_rules::{Before, Transition, done_as, overflows, slot_met};
use machine::{Event, Setup, State};
use places::Record;
use quiescence::is_over;
use runs::{Ended, Observed, Observer, drive};
use std::alloc::{AllocError, Global};

/// A search for the findings of a run. It observes the run from its start.
#[derive(Drop)]
pub struct Search {
    found: Vec<Finding>,
    /// The numbers of the incomplete READs and WRITEs.
    numbers: Vec<u32>,
    /// The conditions that are findings if they last to the end.
    watches: Vec<Watch>,
    /// The WRITEs and FSYNCs, and what became durable.
    files: Durability,
    keeps_history: bool,
    history: History,
}

/// The findings of a run, in order, and the history that their sentences need.
#[derive(Drop)]
pub struct Found {
    pub findings: Vec<Finding>,
    pub history: History,
}

// Records the history of an event that sentences need, if the search keeps it.
fn note(at: Transition<'_>, history: &mut History) -> Added {
    if !at.keeps_history {
        return Ok(());
    }
    note_counter(&mut history.counters, at.before.counter)?;
    let slot = slot_met(at.setup, at.state, at.event, at.before);
    note_slot(&mut history.slots, at.moment, slot)?;
    let dropped = at.state.submissions().dropped();
    note_dropped(&mut history.dropped, at.moment, dropped)?;
    note_event(at, history)?;
    let is_emptied = at.before.overflows && !overflows(at.state);
    note_emptied(
        &mut history.emptied,
        at.moment.saturating_add(1),
        is_emptied,
    )
}

// Adds all findings of an event, and records its history.
fn look(at: Transition<'_>, search: &mut Search) -> Added
    ensures added { OnOk result (search.new.found.items
        ≡ ((search.old.found.items
        ++ flat_map (of_change at.entry.moment (noted_by at.entry.setup.now
        at.entry.past.now at.entry.before at.entry.event at.entry.state.now)
        at.entry.state.now.table) at.entry.past.now)
        ++ (of_overflow at.entry.moment at.entry.before.overflows (overflows at.entry.state.now)
        ++ (of_step at.entry.moment at.entry.before.changes
        (instruction_at at.entry.setup.now at.entry.event at.entry.before.counter)
        at.entry.event at.entry.state.now
        ++ of_cancel at.entry.moment at.entry.before.cancel at.entry.state.now.table)))
        ++ of_effect at.entry.moment at.entry.setup.now at.entry.state.now
        (done_as at.entry.event
        (instruction_at at.entry.setup.now at.entry.event at.entry.before.counter)
        at.entry.state.now) search.new.numbers.items) }
    ensures once { OnOk result (NamesOnce at.entry.past.now) }
    ensures further { OnOk result (search.new.numbers.items
        ≡ after_notes (view at.entry.state.now) search.old.numbers.items at.entry.past.now) }
    ensures watches { search.new.watches ≡ search.old.watches }
    ensures files { search.new.files ≡ search.old.files }
{
    note(at, &mut search.history)?;
    let rows = &mut search.history.rows;
    look_at_record(&mut search.found, &mut search.numbers, rows, at)?;
    add_of_event(&mut search.found, at)?;
    let effect = done_as(at.setup, at.before, at.event, at.state);
    add_of_effect(&mut search.found, at, &effect, &search.numbers)
}

// Returns whether the run is over: nothing more can happen but idle events.
fn ends_over(setup: &Setup, state: &State) -> Result<bool, AllocError>
    requires { length state.now.threads ≤ length setup.now.threads }
    ensures { IfOk result (λ over. SaysOver over state.now) }
{
    match u32::try_from(setup.threads.as_slice().len()) {
        Ok(threads) => Ok(is_over(state, threads)),
        Err(_) => Err(AllocError),
    }
}

// Adds the findings at the end: conditions that still hold, incomplete requests, and files that are
// not durable. `over` says whether the run is over.
fn add_end(
    found: &mut Vec<Finding>,
    over: bool,
    watches: &[Watch],
    setup: &Setup,
    moment: u32,
    state: &State,
) -> Added
    ensures { OnOk result (found.new.items ≡
        (found.old.items ++ flat_map (of_lasting over state.now) watches.now)
        ++ all_at_end setup.now moment over state.now) }
{
    add_all_lasting(found, over, state, watches)?;
    add_all_left(found, moment, over, state)?;
    add_all_unsynced(found, setup, moment, state)
}

impl Search {
    /// Returns a search that has seen no event of a run, from the state at the run's start.
    pub fn new(alloc: Global, setup: &Setup, state: &State) -> Result<Search, AllocError>
        requires starts { state.now ≡ start setup.now }
        ensures { IfOk result (λ search. (es : List Event) → length es ≤ 1048576 →
            HasSearched setup.now es 0 search.found.items search.numbers.items
            search.watches.items search.files.writes.items search.files.suspects.items
            search.files.retried.items) }
    {
        let mut watches = watches_of(alloc, setup)?;
        begin(setup, state, &mut watches);
        Ok(Search {
            found: Vec::new(alloc),
            numbers: Vec::new(alloc),
            watches,
            files: Durability::new(alloc, setup)?,
            keeps_history: true,
            history: History::new(alloc),
        })
    }

    /// Returns such a search that leaves out the history, which only sentences need. It finds the
    /// same, at less cost.
    pub fn without_history(
        alloc: Global,
        setup: &Setup,
        state: &State,
    ) -> Result<Search, AllocError>
        requires starts { state.now ≡ start setup.now }
        ensures { IfOk result (λ search. (es : List Event) → length es ≤ 1048576 →
            HasSearched setup.now es 0 search.found.items search.numbers.items
            search.watches.items search.files.writes.items search.files.suspects.items
            search.files.retried.items) }
    {
        let mut search = Search::new(alloc, setup, state)?;
        search.keeps_history = false;
        Ok(search)
    }

    /// Copies a search, without its history.
    pub fn copy(&self, alloc: Global) -> Result<Search, AllocError>
        ensures found { IfOk result (λ search. search.found.items ≡ self.now.found.items) }
        ensures numbers { IfOk result (λ search. search.numbers.items ≡ self.now.numbers.items) }
        ensures watches { IfOk result (λ search. search.watches.items ≡ self.now.watches.items) }
        ensures files { IfOk result (λ search. IsCopy self.now.files search.files) }
    {
        Ok(Search {
            found: self.found.as_slice().to_vec(alloc)?,
            numbers: self.numbers.as_slice().to_vec(alloc)?,
            watches: self.watches.as_slice().to_vec(alloc)?,
            files: self.files.copy(alloc)?,
            keeps_history: false,
            history: History::new(alloc),
        })
    }

    /// Returns the findings of a run of which the search has seen all events, given the state at
    /// the run's end.
    pub fn finish(self, setup: &Setup, events: &[Event], state: &State) -> Result<Found, AllocError>
        requires at { IsAt setup.now events.now (length events.now) state.now }
        requires seen { HasSearched setup.now events.now (length events.now) self.found.items
            self.numbers.items self.watches.items self.files.writes.items
            self.files.suspects.items self.files.retried.items }
        ensures { IfOk result
            (λ found. IsReportOf setup.now events.now found.findings.items) }
    {
        let Search {
            mut found,
            watches,
            files,
            keeps_history,
            mut history,
            ..
        } = self;
        let over = ends_over(setup, state)?;
        let end = events.len() as u32;
        judge(&mut found, setup, state, &files.writes)?;
        add_end(&mut found, over, &watches, setup, end, state)?;
        found.extend_from_slice(&files.retried)?;
        note_lost(
            keeps_history,
            &mut history.lost,
            &found,
            state,
            &files.writes,
        )?;
        Ok(Found {
            findings: in_order(found),
            history,
        })
    }
}

impl Observer for Search {
    type Note = Before;

    type Stop = AllocError;

    ghost has_seen = { λ o s es i. HasSearched s es i o.found.items o.numbers.items o.watches.items
        o.files.writes.items o.files.suspects.items o.files.retried.items };

    ghost notes = { λ s es i n. NotesFacts s es i n };

    ghost stops = { λ o s es i x. Unit {0} };

    fn before(&self, at: Observed<'_>) -> Result<Before, AllocError> {
        Ok(Before::new(at.setup, at.state, at.event))
    }

    fn after(&mut self, at: Observed<'_>, past: &Record, note: Before) -> Added {
        let moment = at.index as u32;
        let _clock = at.state.clock();
        let done = Transition {
            setup: at.setup,
            moment,
            event: at.event,
            before: note,
            state: at.state,
            past,
            keeps_history: self.keeps_history,
        };
        look(done, self)?;
        follow_files(done, &mut self.files, &mut self.history.retries)?;
        advance(at.setup, at.event, at.state, moment + 1, &mut self.watches);
        Ok(())
    }
}

/// Steps the events of a run from its start to its end, and returns their findings. Fails if an
/// event is refused or an allocation fails.
pub fn search_run(
    alloc: Global,
    state: &mut State,
    setup: &Setup,
    events: &[Event],
) -> Result<Found, Ended<AllocError>>
    requires starts { state.old ≡ start setup.now }
    requires most { length events.now ≤ 1048576 }
    ensures runs { OnOk result (Accepts (start setup.now) events.now) }
    ensures at { OnOk result (IsAt setup.now events.now (length events.now) state.new) }
    ensures ok { IfOk result (λ found. IsReportOf setup.now events.now found.findings.items) }
    ensures err { IfErr result (Halted setup.now events.now) }
{
    let Ok(mut search) = Search::new(alloc, setup, state) else {
        return Err(Ended::Memory);
    };
    drive(state, setup, events, &mut search)?;
    match search.finish(setup, events, state) {
        Ok(found) => Ok(found),
        Err(_) => Err(Ended::Memory),
    }
}
