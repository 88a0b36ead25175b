//! The random runs of a program, of which some may show a symptom.
ghost use Rattle.std.specs.Prelude.{◌≡◌, ◌≢◌, ◌<◌, ◌≤◌, [], ℕ, None, length, vec_len, All, OnOk, IfOk, if◌then◌else◌};
ghost use Rattle.std.specs.Int.{bit_at};
ghost use Rattle.machine.specs.Runs.{start};
ghost use Rattle.runs.specs.Moments.{IsAt};
ghost use Rattle.sampling.specs.Samples.{StaysSeen};
ghost use Rattle.exploring.specs.RandomRuns.{SaysKinds, has_kind};

use finding_kinds::{Finding, Kind};
use findings::Search;
use machine::State;
use runs::Observer;
use sampling::{Program, Sample, SampleOptions, begin, rewind, sample, undo};
use scenario::Setup;
use search_rounds::{Experiment, Lane, Outcome};
use std::alloc::{AllocError, Global};
use symptoms::{Examined, Symptom, examine, examined_by};

/// The random runs of a program, and the symptom that they are searched for.
#[derive(Clone, Copy)]
pub struct RandomRuns<'a> {
    pub alloc: Global,
    pub setup: &'a Setup,
    /// The same setup, prepared.
    pub program: &'a Program<'a>,
    pub options: SampleOptions,
    pub seed: u64,
    pub symptom: Symptom<'a>,
    /// The kinds that are counted, at most 64.
    pub kinds: &'a [Kind],
}

/// What a thread makes its runs with.
pub struct Worker {
    /// The state after the last run.
    pub state: State,
    /// The last run.
    pub sample: Sample,
    // The number of the events with which each run begins.
    opening: usize,
    // The first request of the last submission after them.
    opening_row: u32,
    // A search that has seen these events, once there is one.
    search: Option<Search>,
}

// Written by hand, so that dropping a worker is one step of a proof.
impl Drop for Worker {
    fn drop(self) {
        let Worker {
            state: _,
            sample: _,
            opening: _,
            opening_row: _,
            search: _,
        } = self;
    }
}

impl Worker {
    /// Returns a worker that has made no run.
    pub fn new(alloc: Global, setup: &Setup) -> Result<Worker, AllocError>
        ensures start { IfOk result (λ worker. worker.state ≡ start setup.now) }
        ensures events { IfOk result (λ worker. worker.sample.events.items ≡ []) }
        ensures records { IfOk result (λ worker. worker.sample.records.items ≡ []) }
        ensures opening { IfOk result (λ worker. worker.opening ≡ 0) }
        ensures opening_row { IfOk result (λ worker. worker.opening_row ≡ 0) }
        ensures search { IfOk result (λ worker. worker.search ≡ None) }
    {
        match State::new(alloc, setup) {
            Ok(state) => Ok(Worker {
                state,
                sample: Sample::new(alloc),
                opening: 0,
                opening_row: 0,
                search: None,
            }),
            Err(_) => Err(AllocError),
        }
    }
}

impl RandomRuns<'_> {
    ghost use Rattle.exploring.specs.RandomRuns.{CanRun, HasEvents, IsRun, IsReady, IsOpened, HasSeen};

    /// Returns `count` lanes whose workers have made no run.
    pub fn lanes(&self, count: usize) -> Result<Vec<Lane<Worker>>, AllocError>
        requires { CanRun self.now }
        ensures len { IfOk result (λ lanes. vec_len lanes ≡ count) }
        ensures ready { IfOk result
            (λ lanes. All (λ lane. IsReady self.now lane.worker) lanes.items) }
    {
        let mut lanes = Vec::new(self.alloc);
        for _index in 0..count {
            lanes.push(Lane::new(Worker::new(self.alloc, self.setup)?))?;
        }
        Ok(lanes)
    }

    /// Makes run `number`, and searches it for the symptom as it goes. Leaves the events in the
    /// worker.
    pub fn examine_run(&self, worker: &mut Worker, number: u32) -> Result<Examined, AllocError>
        requires { IsReady self.now worker.old }
        ensures ready { OnOk result (IsReady self.now worker.new) }
        ensures run { IfOk result (λ examined. IsRun self.now number worker.new.sample.events.items
            examined.sighting examined.findings.items) }
    {
        match &self.symptom {
            Symptom::Finding(wanted) => {
                let mut search = self.opened(worker)?;
                self.make(worker, number, &mut search)?;
                let events = &worker.sample.events;
                examined_by(search, self.setup, events, &worker.state, wanted)
            }
            Symptom::Reaches(_) => self.look(worker, number),
        }
    }

    // Makes run `number`, and then steps it again and looks for the symptom.
    fn look(&self, worker: &mut Worker, number: u32) -> Result<Examined, AllocError>
        requires { IsReady self.now worker.old }
        ensures ready { OnOk result (IsReady self.now worker.new) }
        ensures run { IfOk result (λ examined. IsRun self.now number worker.new.sample.events.items
            examined.sighting examined.findings.items) }
    {
        self.restart(worker);
        self.make(worker, number, &mut ())?;
        undo(&mut worker.state, &worker.sample);
        match examine(
            self.alloc,
            &mut worker.state,
            self.setup,
            &worker.sample.events,
            &self.symptom,
        ) {
            Ok(examined) => Ok(examined),
            Err(_) => Err(AllocError),
        }
    }

    // Returns to the start of the program.
    fn restart(&self, worker: &mut Worker)
        requires { IsReady self.now worker.old }
        ensures opened { IsOpened self.now worker.new }
        ensures none { worker.new.sample.events.items ≡ [] }
        ensures start { worker.new.state ≡ start self.now.setup.now }
    {
        rewind(&mut worker.state, &mut worker.sample, 0, 0);
        worker.opening = 0;
        worker.opening_row = 0;
        worker.search = None;
    }

    // Returns to the end of the opening, and returns a search that has seen the opening.
    fn opened(&self, worker: &mut Worker) -> Result<Search, AllocError>
        requires { IsReady self.now worker.old }
        ensures opening { OnOk result (IsOpened self.now worker.new) }
        ensures seen { IfOk result (HasSeen self.now worker.new) }
    {
        match &worker.search {
            Some(search) => {
                let row = worker.opening_row;
                rewind(&mut worker.state, &mut worker.sample, worker.opening, row);
                let copy = search.copy(self.alloc)?;
                Ok(copy)
            }
            None => self.open(worker),
        }
    }

    // Makes the opening, and returns a search that has seen it.
    fn open(&self, worker: &mut Worker) -> Result<Search, AllocError>
        requires { IsReady self.now worker.old }
        ensures opening { OnOk result (IsOpened self.now worker.new) }
        ensures seen { IfOk result (HasSeen self.now worker.new) }
    {
        self.restart(worker);
        let mut search = Search::without_history(self.alloc, self.setup, &worker.state)?;
        begin(
            &mut worker.state,
            self.program,
            self.options,
            &mut worker.sample,
            &mut search,
        )?;
        worker.opening = worker.sample.events.len();
        worker.opening_row = worker.sample.next_row;
        worker.search = Some(search.copy(self.alloc)?);
        Ok(search)
    }

    // Continues the opening, so that it is run `number`.
    fn make<O: Observer>(
        &self,
        worker: &mut Worker,
        number: u32,
        observer: &mut O,
    ) -> Result<(), AllocError>
        requires opened { IsOpened self.now worker.old }
        requires stays { StaysSeen O.has_seen self.now.setup.now }
        requires seen { O.has_seen observer.old self.now.setup.now worker.old.sample.events.items
            (length worker.old.sample.events.items) }
        ensures ready { OnOk result (IsReady self.now worker.new) }
        ensures events { OnOk result (HasEvents self.now number worker.new.sample.events.items) }
        ensures at { OnOk result (IsAt self.now.setup.now worker.new.sample.events.items
            (length worker.new.sample.events.items) worker.new.state) }
        ensures seen { OnOk result (O.has_seen observer.new self.now.setup.now
            worker.new.sample.events.items (length worker.new.sample.events.items)) }
    {
        sample(
            &mut worker.state,
            self.program,
            self.options,
            self.seed,
            number,
            &mut worker.sample,
            observer,
        )?;
        Ok(())
    }
}

impl Experiment for RandomRuns<'_> {
    type Worker = Worker;

    ghost use Rattle.exploring.specs.RandomRuns.{RunShows, RunGives, IsReady};

    ghost shows = { RunShows };

    ghost gives = { RunGives };

    ghost is_ready = { IsReady };

    fn run(&self, worker: &mut Worker, number: u32) -> Result<Outcome, AllocError> {
        let examined = self.examine_run(worker, number)?;
        Ok(Outcome {
            shows: examined.sighting.is_some(),
            events: worker.sample.events.len() as u32,
            kinds: kinds_of(self.kinds, &examined.findings),
        })
    }
}

// Returns the kinds of the findings, one bit each.
fn kinds_of(kinds: &[Kind], findings: &[Finding]) -> u64
    requires { length kinds.now ≤ 64 }
    ensures { SaysKinds kinds.now findings.now result }
{
    let mut bits = 0;
    for k in 0..kinds.len() {
        bits = with_bit(bits, k, has_kind(findings, kinds[k]));
    }
    bits
}

fn has_kind(findings: &[Finding], kind: Kind) -> bool
    ensures { result ≡ has_kind findings.now kind }
{
    findings
        .iter()
        .any(|finding| kind.has_name_of(finding.kind))
}

// Returns the bits with bit `k` set if it is on.
fn with_bit(bits: u64, k: usize, on: bool) -> u64
    requires { k < 64 }
    ensures bit { bit_at bits k ≡ 0 → bit_at result k ≡ (if on then 1 else 0) }
    ensures others { (i : ℕ) → i ≢ k → bit_at result i ≡ bit_at bits i }
{
    if on { bits | (1 << k) } else { bits }
}
