//! Steps a run once, and collects all that a picture shows of it.
ghost use Rattle.std.specs.Prelude.{◌≡◌, ◌≤◌, None, List, [], length, IfOk, IfErr};
ghost use Rattle.timeline.specs.{Common.Accepts, Common.Event, Common.HasFollowed, Common.HasOpened, Common.HasSearched, Common.IsAt, Common.findings_in, Common.setup_refusal, Common.start, Pictures.IsSeen, Pictures.Stops, Pictures.fault_of, Steps.AreSteps};

use crate::parts::StepPart;
use crate::steps::Steps;
use explanations::{Report, reports_of};
use findings::{Found, Search};
use machine::{Event, Setup, State};
use occupancy::{Followed, Follower, StagesMoment};
use run_log::EventRange;
use runs::{Ended, Pair, ReportFault, drive};
use sentences::Run;
use std::alloc::{AllocError, Global};
use std::marker::Brand;
use timeline_values::{Opening, Ranged, Values};

/// All that a picture shows of a run.
#[derive(Drop)]
pub(crate) struct Seen {
    pub followed: Followed,
    /// The values at the first moment of the part that is drawn.
    pub values: Values,
    /// The events of the part that is drawn.
    pub steps: Vec<StepPart>,
    pub findings: Vec<Report>,
}

/// The observers of a run that is drawn.
type Observers<K> = Pair<Pair<Follower<K>, Search>, Pair<Opening<K>, Steps<K>>>;

// Returns the fault of a run that ends early. The observers stop only where an allocation fails.
fn fault_of<E: Drop>(ended: Ended<E>) -> ReportFault
    ensures { result ≡ fault_of ended }
{
    match ended {
        Ended::Refused(index, refusal) => ReportFault::Schedule(index, refusal),
        Ended::Memory | Ended::Stopped(_) => ReportFault::Memory,
    }
}

// Returns observers that have seen no event of a run.
fn observers_of<K: StagesMoment + Ranged>(
    alloc: Global,
    setup: &Setup,
    state: &State,
    range: EventRange,
) -> Result<Observers<K>, AllocError>
    requires setup { setup_refusal setup.now ≡ None }
    requires starts { state.now ≡ start setup.now }
    requires at { range.from ≡ K.at }
    requires range { range ≡ K.range }
    ensures at { IfOk result (λ o. o.first.first.at ≡ K.at) }
    ensures follows { IfOk result (λ o. (es : List Event) → length es ≤ 1048576
        → HasFollowed setup.now es 0 K.at o.first.first.occupancy o.first.first.thread_stages) }
    ensures searches { IfOk result (λ o. (es : List Event) → length es ≤ 1048576
        → HasSearched setup.now es 0 o.first.second.found.items o.first.second.numbers.items
        o.first.second.watches.items o.first.second.files.writes.items
        o.first.second.files.suspects.items o.first.second.files.retried.items) }
    ensures opening { IfOk result (λ o. o.second.first.range ≡ K.range) }
    ensures opened { IfOk result (λ o. (es : List Event)
        → HasOpened setup.now es 0 K.range.from o.second.first.values) }
    ensures range { IfOk result (λ o. o.second.second.range ≡ K.range) }
    ensures none { IfOk result (λ o. o.second.second.steps.items ≡ []) }
{
    let follower = Follower::new(alloc, setup, state, range.from)?;
    let search = Search::new(alloc, setup, state)?;
    let opening = Opening::new(alloc, setup, state, range)?;
    Ok(Pair {
        first: Pair {
            first: follower,
            second: search,
        },
        second: Pair {
            first: opening,
            second: Steps::new(alloc, range),
        },
    })
}

// Returns the findings with their sentences.
fn reports_of_found(
    alloc: Global,
    setup: &Setup,
    events: &[Event],
    state: &State,
    found: &Found,
) -> Result<Vec<Report>, AllocError>
    ensures { IfOk result (λ reports. findings_in reports.items ≡ found.now.findings.items) }
{
    let run = Run {
        setup,
        state,
        events,
        history: &found.history,
        found: &found.findings,
    };
    reports_of(alloc, &run)
}

// Returns what the observers have collected over a whole run.
fn seen_of<K: StagesMoment + Ranged>(
    alloc: Global,
    setup: &Setup,
    events: &[Event],
    range: EventRange,
    state: &State,
    observers: Observers<K>,
) -> Result<Seen, AllocError>
    requires at { IsAt setup.now events.now (length events.now) state.now }
    requires accepted { Accepts (start setup.now) events.now }
    requires moment { range.from ≡ K.at }
    requires range { range ≡ K.range }
    requires follows { HasFollowed setup.now events.now (length events.now) K.at
        observers.first.first.occupancy observers.first.first.thread_stages }
    requires searches { HasSearched setup.now events.now (length events.now)
        observers.first.second.found.items observers.first.second.numbers.items
        observers.first.second.watches.items observers.first.second.files.writes.items
        observers.first.second.files.suspects.items observers.first.second.files.retried.items }
    requires steps { AreSteps setup.now events.now K.range (length events.now)
        observers.second.second.steps.items }
    requires opened { HasOpened setup.now events.now (length events.now) K.range.from
        observers.second.first.values }
    ensures { IfOk result (IsSeen setup.now events.now range) }
{
    let Pair { first, second } = observers;
    let Pair {
        first: follower,
        second: search,
    } = first;
    let Pair {
        first: opening,
        second: steps,
    } = second;
    let followed = follower.finish(state)?;
    let found = search.finish(setup, events, state)?;
    let findings = reports_of_found(alloc, setup, events, state, &found)?;
    Ok(Seen {
        followed,
        values: opening.values,
        steps: steps.steps,
        findings,
    })
}

fn observe_as<K: StagesMoment + Ranged>(
    alloc: Global,
    setup: &Setup,
    events: &[Event],
    range: EventRange,
) -> Result<Seen, ReportFault>
    requires setup { setup_refusal setup.now ≡ None }
    requires most { length events.now ≤ 1048576 }
    requires at { range.from ≡ K.at }
    requires range { range ≡ K.range }
    ensures ok { IfOk result (IsSeen setup.now events.now range) }
    ensures err { IfErr result (Stops setup.now events.now) }
{
    let Ok(mut state) = State::new(alloc, setup) else {
        return Err(ReportFault::Memory);
    };
    let mut observers: Observers<K> = observers_of(alloc, setup, &state, range)?;
    if let Err(ended) = drive(&mut state, setup, events, &mut observers) {
        return Err(fault_of(ended));
    }
    Ok(seen_of(alloc, setup, events, range, &state, observers)?)
}

/// Steps each event of a run once, and returns what a picture shows of it, with the events of a
/// range. Fails if an event is refused or an allocation fails.
pub(crate) fn observe(
    alloc: Global,
    setup: &Setup,
    events: &[Event],
    range: EventRange,
) -> Result<Seen, ReportFault>
    requires setup { setup_refusal setup.now ≡ None }
    requires most { length events.now ≤ 1048576 }
    ensures ok { IfOk result (IsSeen setup.now events.now range) }
    ensures err { IfErr result (Stops setup.now events.now) }
{
    observe_as::<Brand>(alloc, setup, events, range)
}
