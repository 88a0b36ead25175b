//! A search by several threads, in rounds.
ghost use Rattle.std.specs.Prelude.{◌≡◌, ℕ, ◌+◌, ◌*◌, ◌<◌, ◌≤◌, ◌^◌, None, All, OnOk, IfOk, length, slice_index_or};
ghost use Rattle.search_rounds.specs.declared.lanes.Lane.{Lane};
ghost use Rattle.search_rounds.specs.Counting.{IsSum};
ghost use Rattle.search_rounds.specs.Rounds.{part_start, HasRun};
ghost use Rattle.search_rounds.specs.Trials.{IsOutcome, Reports, IsLeast};

use crate::experiment::Experiment;
use crate::lanes::{Lane, run_lane};
use crate::outcome::Totals;
use std::alloc::AllocError;
use std::thread;
use std::thread::Threads;

/// How many numbers a worker gets in a round.
const PART: u64 = 64;

/// What a search found.
#[derive(Drop)]
pub struct Report {
    /// The first run that shows what is searched for.
    pub found: Option<u32>,
    /// Totals over the runs up to it, or over all runs.
    pub totals: Totals,
}

/// Makes `count` runs from `first` on, up to the first that shows what is searched for. Each lane has
/// a thread, and the report doesn't depend on their number. Calls `progress` after each round with
/// the number of runs so far.
pub fn explore<E: Experiment, R: Threads + Sync, F: FnMut(u64)>(
    rt: &R,
    experiment: &E,
    lanes: &mut [Lane<E::Worker>],
    first: u32,
    count: u32,
    mut progress: F,
) -> Result<Report, AllocError>
    requires ready { All (λ lane. E.is_ready experiment.now lane.worker) lanes.old }
    requires some { 0 < length lanes.old }
    requires few { length lanes.old ≤ 64 }
    requires range { first + count ≤ 2 ^ 32 }
    requires callable { F.IsAlwaysCallable progress }
    ensures least { IfOk result (λ report. IsLeast (E.shows experiment.now) first (first + count)
        report.found) }
    ensures totals { IfOk result (λ report. Reports
        (IsOutcome (E.shows experiment.now) (E.gives experiment.now)) first (first + count)
        report.found report.totals) }
{
    let until = u64::from(first) + u64::from(count);
    let mut totals = Totals::new();
    let mut next = u64::from(first);
    while next < until {
        let end = (next + PART * lanes.len() as u64).min(until);
        let report = explore_round(rt, experiment, lanes, next, end)?;
        totals.add(&report.totals);
        match report.found {
            Some(number) => {
                return Ok(Report {
                    found: Some(number),
                    totals,
                });
            }
            None => {}
        }
        next = end;
        progress(next - u64::from(first));
    }
    Ok(Report {
        found: None,
        totals,
    })
}

/// Makes the runs of a round, with a thread for each worker.
pub fn explore_round<E: Experiment, R: Threads + Sync>(
    rt: &R,
    experiment: &E,
    lanes: &mut [Lane<E::Worker>],
    from: u64,
    until: u64,
) -> Result<Report, AllocError>
    requires ready { All (λ lane. E.is_ready experiment.now lane.worker) lanes.old }
    requires some { 0 < length lanes.old }
    requires few { length lanes.old ≤ 64 }
    requires order { from ≤ until }
    requires room { until ≤ from + 64 * length lanes.old }
    requires range { until ≤ 2 ^ 32 }
    ensures ready { IfOk result (λ report. report.found ≡ None
        → All (λ lane. E.is_ready experiment.now lane.worker) lanes.new) }
    ensures reports { IfOk result (λ report. Reports
        (IsOutcome (E.shows experiment.now) (E.gives experiment.now)) from until report.found
        report.totals) }
{
    run_lanes(rt, experiment, lanes, from, until);
    let mut totals = Totals::new();
    for lane in lanes.iter() {
        let found = add_lane(lane, &mut totals)?;
        match found {
            Some(number) => {
                return Ok(Report {
                    found: Some(number),
                    totals,
                });
            }
            None => {}
        }
    }
    Ok(Report {
        found: None,
        totals,
    })
}

// Adds the totals of a lane, and returns what it found.
fn add_lane<W>(lane: &Lane<W>, totals: &mut Totals) -> Result<Option<u32>, AllocError>
    requires { OnOk lane.now.found (totals.old.runs + lane.now.totals.runs ≤ 2 ^ 32) }
    ensures found { result ≡ lane.now.found }
    ensures totals { OnOk result (IsSum totals.old lane.now.totals totals.new) }
{
    match lane.found {
        Ok(found) => {
            totals.add(&lane.totals);
            Ok(found)
        }
        Err(AllocError) => Err(AllocError),
    }
}

fn run_lanes<E: Experiment, R: Threads + Sync>(
    rt: &R,
    experiment: &E,
    lanes: &mut [Lane<E::Worker>],
    from: u64,
    until: u64,
)
    requires ready { All (λ lane. E.is_ready experiment.now lane.worker) lanes.old }
    requires some { 0 < length lanes.old }
    requires few { length lanes.old ≤ 64 }
    requires order { from ≤ until }
    requires range { until ≤ 2 ^ 32 }
    ensures { (i : ℕ) (d : Lane E.Worker) → i < length lanes.old
        → HasRun (E.is_ready experiment.now)
        (IsOutcome (E.shows experiment.now) (E.gives experiment.now))
        (part_start from until i) (part_start from until (i + 1)) (slice_index_or lanes.new i d) }
{
    let threads = lanes.len();
    thread::for_each_mut(
        rt,
        lanes,
        threads,
        &|i: usize, lane: &mut Lane<E::Worker>|
            requires { E.is_ready experiment.now lane.now.worker × (i < 64) × (from ≤ until)
                × (until ≤ 2 ^ 32) }
            ensures { HasRun (E.is_ready experiment.entry.now)
                (IsOutcome (E.shows experiment.entry.now) (E.gives experiment.entry.now))
                (part_start from until i) (part_start from until (i + 1)) lane.exit.now }
        { run_part(experiment, lane, from, until, i) },
    );
}

// Makes the runs of a worker's part.
fn run_part<E: Experiment>(
    experiment: &E,
    lane: &mut Lane<E::Worker>,
    from: u64,
    until: u64,
    i: usize,
)
    requires ready { E.is_ready experiment.now lane.old.worker }
    requires few { i < 64 }
    requires order { from ≤ until }
    requires range { until ≤ 2 ^ 32 }
    ensures { HasRun (E.is_ready experiment.now)
        (IsOutcome (E.shows experiment.now) (E.gives experiment.now))
        (part_start from until i) (part_start from until (i + 1)) lane.new }
{
    let start = (from + PART * i as u64).min(until);
    let end = (from + PART * (i as u64 + 1)).min(until);
    run_lane(experiment, lane, start, end);
}
