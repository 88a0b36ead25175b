//! An observer that records the queue occupancy and the request lifetimes of a run.
ghost use Rattle.std.specs.Prelude.{◌≡◌, ◌≤◌, ℕ, None, List, length, IfOk};
ghost use Rattle.occupancy.specs.{Event, Setup, setup_refusal, start, moment, HasFollowed, IsFollowed};

use crate::occupancy::Occupancy;
use crate::thread_stages::ThreadStages;
use entries::Row;
use machine::{Setup, State};
use places::Record;
use runs::{Observed, Observer};
use std::alloc::{AllocError, Global};
use std::marker::{Brand, PhantomData};

/// The most requests of a run.
const MOST_ROWS: u32 = 65536;

/// The moment at which a follower reads the threads and the poller, for proofs.
pub trait StagesMoment {
    ghost at: { ℕ };
}

impl StagesMoment for Brand {
    ghost at = { 0 };
}

/// The result of a whole run.
#[derive(Drop)]
pub struct Followed {
    pub occupancy: Occupancy,
    /// The requests at the end.
    pub rows: Vec<Row>,
    /// The threads and the poller at the requested moment, or at the end if the run is shorter.
    pub thread_stages: ThreadStages,
}

/// An observer that records the occupancy at each moment of a run, the lifetimes of its requests,
/// and the threads and the poller at one moment.
#[derive(Drop)]
pub struct Follower<K> {
    alloc: Global,
    // The moment at which the threads and the poller are read.
    at: u32,
    occupancy: Occupancy,
    // The threads and the poller at moment 0, and from moment `at` on those at that moment.
    thread_stages: ThreadStages,
    proof: PhantomData<K>,
}

// Returns all requests of a state.
fn rows_of(alloc: Global, state: &State) -> Result<Vec<Row>, AllocError>
    ensures { IfOk result (λ rows. rows.items ≡ state.now.table) }
{
    let mut rows = Vec::new(alloc);
    let _first = state.row(0);
    for number in 0..MOST_ROWS {
        match state.row(number) {
            Some(row) => rows.push(row)?,
            None => return Ok(rows),
        }
    }
    Ok(rows)
}

impl<K: StagesMoment> Follower<K> {
    /// Returns an observer of a run that has seen no event, given the state at the run's start. It
    /// reads the threads and the poller at moment `at`.
    pub fn new(
        alloc: Global,
        setup: &Setup,
        state: &State,
        at: u32,
    ) -> Result<Follower<K>, AllocError>
        requires setup { setup_refusal setup.now ≡ None }
        requires starts { state.now ≡ start setup.now }
        requires at { at ≡ K.at }
        ensures at { IfOk result (λ f. f.at ≡ K.at) }
        ensures seen { IfOk result (λ f. (es : List Event) → length es ≤ 1048576
            → HasFollowed setup.now es 0 K.at f.occupancy f.thread_stages) }
    {
        Ok(Follower {
            alloc,
            at,
            occupancy: Occupancy::new(alloc, state)?,
            thread_stages: ThreadStages::new(alloc, state)?,
            proof: PhantomData,
        })
    }

    /// Returns what was recorded of a run whose events have all been seen, given the state at its
    /// end.
    pub fn finish(self, state: &State) -> Result<Followed, AllocError>
        ensures { IfOk result (λ f. (s : Setup) → (es : List Event)
            → HasFollowed s es (length es) K.at self.occupancy self.thread_stages
            → state.now ≡ moment s es (length es) → IsFollowed s es K.at f) }
    {
        let rows = rows_of(self.alloc, state)?;
        let Follower {
            occupancy,
            thread_stages,
            ..
        } = self;
        Ok(Followed {
            occupancy,
            rows,
            thread_stages,
        })
    }
}

impl<K: StagesMoment> Observer for Follower<K> {
    type Note = ();

    type Stop = AllocError;

    ghost has_seen = { λ o s es i. (o.at ≡ K.at)
        × HasFollowed s es i K.at o.occupancy o.thread_stages };

    ghost notes = { λ s es i n. Unit {0} };

    ghost stops = { λ o s es i x. Unit {0} };

    fn before(&self, _at: Observed<'_>) -> Result<(), AllocError> {
        Ok(())
    }

    fn after(&mut self, at: Observed<'_>, past: &Record, _note: ()) -> Result<(), AllocError> {
        let moment = at.index + 1;
        self.occupancy.note(past, at.state, moment as u32)?;
        if moment == at.events.len().min(self.at as usize) {
            self.thread_stages = ThreadStages::new(self.alloc, at.state)?;
        }
        Ok(())
    }
}
