//! The runs of one worker in a round.
ghost use Rattle.std.specs.Prelude.{◌≡◌, ◌≤◌, ◌^◌, [], OnOk, IfOk};
ghost use Rattle.search_rounds.specs.Counting.{Counts};
ghost use Rattle.search_rounds.specs.Trials.{IsOutcome, Reports};

use crate::experiment::Experiment;
use crate::outcome::Totals;
use std::alloc::AllocError;

/// A worker, and what its runs of the last round showed.
#[derive(Drop)]
pub struct Lane<W> {
    pub worker: W,
    pub found: Result<Option<u32>, AllocError>,
    pub totals: Totals,
}

impl<W> Lane<W> {
    /// Returns the lane of a worker that has made no runs.
    pub fn new(worker: W) -> Lane<W>
        ensures { result.worker ≡ worker }
    {
        Lane {
            worker,
            found: Ok(None),
            totals: Totals::new(),
        }
    }
}

/// Makes the runs `from` to `until - 1` in order, up to the first that shows what is searched for.
pub(crate) fn run_lane<E: Experiment>(
    experiment: &E,
    lane: &mut Lane<E::Worker>,
    from: u64,
    until: u64,
)
    requires ready { E.is_ready experiment.now lane.old.worker }
    requires order { from ≤ until }
    requires range { until ≤ 2 ^ 32 }
    ensures ready { OnOk lane.new.found (E.is_ready experiment.now lane.new.worker) }
    ensures reports { IfOk lane.new.found (λ found. Reports
        (IsOutcome (E.shows experiment.now) (E.gives experiment.now)) from until found
        lane.new.totals) }
{
    lane.totals = Totals::new();
    lane.found = first_shown(experiment, &mut lane.worker, &mut lane.totals, from, until);
}

fn first_shown<E: Experiment>(
    experiment: &E,
    worker: &mut E::Worker,
    totals: &mut Totals,
    from: u64,
    until: u64,
) -> Result<Option<u32>, AllocError>
    requires ready { E.is_ready experiment.now worker.old }
    requires order { from ≤ until }
    requires range { until ≤ 2 ^ 32 }
    requires none { Counts totals.old [] }
    ensures ready { OnOk result (E.is_ready experiment.now worker.new) }
    ensures reports { IfOk result (λ found. Reports
        (IsOutcome (E.shows experiment.now) (E.gives experiment.now)) from until found
        totals.new) }
{
    for number in from..until {
        let outcome = experiment.run(worker, number as u32)?;
        totals.record(outcome);
        if outcome.shows {
            return Ok(Some(number as u32));
        }
    }
    Ok(None)
}
