//! Live runs with one thread per actor.
ghost use Rattle.std.specs.Prelude.{◌≡◌, ◌≢◌, ◌≤◌, ℕ, Some, None, length, All, [], IfOk, IfSome, vec_len, vec_capacity};
ghost use Rattle.scenario.specs.Setups.{setup_refusal};
ghost use Rattle.scenario.specs.declared.setup.Setup.{Setup};
ghost use Rattle.scenario.specs.declared.setup.SetupRefusal.{SetupRefusal};
ghost use Rattle.live_rules.specs.Actors.{actors};
ghost use Rattle.live_states.specs.History.{InOrder, Whole, closed_of};
ghost use Rattle.live_states.specs.Received.{LeastTorn};
ghost use Rattle.live_runner.specs.History.{WorkInOrder, all_receipts};
ghost use Rattle.live_runner.specs.Turns.{HasPassed, HasWorked, AllPassed};
ghost use Rattle.live_runner.specs.Running.{HandlesInOrder, AllOfTurns};

use crate::finishing::finish;
use crate::worker::{Gate, Rested, Worker};
use live_rules::{LiveFault, actors};
use live_states::{Closed, Live, Seat};
use scenario::{Setup, SetupRefusal};
use std::alloc::Global;
use std::marker::Brand;
use std::snapshot::Snapshot;
use std::sync::ledger::{Blank, Ledger};
use std::sync::{Mutex, Wait};
use std::thread;
use std::thread::{Promise, PromisedHandle, Scope, Threads};
use std::time::Clock;

/// Runs a program with one thread per actor, each of which takes `turns` turns, and closes the run.
/// `kernel` is the number of kernel workers.
pub fn run_live<G: Gate, R: Threads + Wait + Clock + Sync>(
    rt: &R,
    alloc: Global,
    setup: &Setup,
    kernel: u32,
    turns: u32,
    gate: &G,
) -> Result<Closed, LiveFault>
    requires { kernel ≤ 8 }
    ensures whole { IfOk result Whole }
    ensures same { IfOk result (λ c. (c.setup ≡ setup.now) × (c.actors ≡ actors setup.now kernel)) }
    ensures passed { IfOk result (AllPassed G.opens gate.now turns) }
    ensures refused { (n : SetupRefusal) → setup_refusal setup.now ≡ Some n
        → result ≡ Err (LiveFault.Setup n) }
    ensures only_memory { (n : SetupRefusal) → result ≡ Err (LiveFault.Setup n)
        → setup_refusal setup.now ≡ None → n ≡ SetupRefusal.Memory }
    ensures strange { (s : Setup) (k : ℕ) → result ≡ Err (LiveFault.Strange s k) → s ≡ setup.now
        → k ≢ actors setup.now kernel }
{
    let blank = Blank::new(actors(setup, kernel) as u64);
    run_over::<Brand, G, R>(rt, alloc, blank, setup, kernel, turns, gate)
}

// Does the work of `run_live` with the blank of a ledger.
fn run_over<L: Ledger + Send + Sync, G: Gate, R: Threads + Wait + Clock + Sync>(
    rt: &R,
    alloc: Global,
    blank: Blank,
    setup: &Setup,
    kernel: u32,
    turns: u32,
    gate: &G,
) -> Result<Closed, LiveFault>
    requires kernel { kernel ≤ 8 }
    requires name { blank.name ≡ L.name }
    requires parts { blank.parts ≡ L.parts }
    requires all { blank.parts ≡ actors setup.now kernel }
    ensures whole { IfOk result Whole }
    ensures same { IfOk result (λ c. (c.setup ≡ setup.now) × (c.actors ≡ actors setup.now kernel)) }
    ensures passed { IfOk result (AllPassed G.opens gate.now turns) }
    ensures refused { (n : SetupRefusal) → setup_refusal setup.now ≡ Some n
        → result ≡ Err (LiveFault.Setup n) }
    ensures only_memory { (n : SetupRefusal) → result ≡ Err (LiveFault.Setup n)
        → setup_refusal setup.now ≡ None → n ≡ SetupRefusal.Memory }
    ensures strange { (s : Setup) (k : ℕ) → result ≡ Err (LiveFault.Strange s k) → s ≡ setup.now
        → k ≢ actors setup.now kernel }
{
    let (live, seats) = match Live::<L>::open(alloc, blank, setup, kernel) {
        Ok(opened) => opened,
        Err(refusal) => return Err(LiveFault::Setup(refusal)),
    };
    let lock = Mutex::new(live);
    match take_turns(rt, alloc, &lock, seats, turns, gate) {
        Some(workers) => close(lock.into_inner(), setup, actors(setup, kernel), workers),
        None => Err(LiveFault::Setup(SetupRefusal::Memory)),
    }
}

/// Closes the run that the lock returned, if it has this setup and this number of actors.
pub fn close<'g, L: Ledger, G: Gate>(
    live: Live<L>,
    setup: &Setup,
    count: u32,
    workers: Vec<Worker<'g, L, G>>,
) -> Result<Closed, LiveFault>
    requires actors { length workers.items ≡ count }
    requires order { WorkInOrder workers.items }
    ensures closed { IfOk result (λ c. c ≡ closed_of live (all_receipts workers.entry.items)) }
    ensures whole { IfOk result Whole }
    ensures same { IfOk result (λ c. (c.setup ≡ setup.now) × (c.actors ≡ count)) }
    ensures started { (n : SetupRefusal) → result ≢ Err (LiveFault.Setup n) }
    ensures torn { (a : ℕ) → result ≡ Err (LiveFault.Torn a)
        → (live.setup ≡ setup.now) × (live.actors ≡ count)
        × LeastTorn live.owners live.events (all_receipts workers.entry.items) a }
    ensures strange { (s : Setup) (k : ℕ) → result ≡ Err (LiveFault.Strange s k)
        → (s ≡ live.setup) × (k ≡ live.actors) × (s ≡ setup.now → k ≢ count) }
{
    if !live.setup().equals(setup) || live.actors() != count {
        let (setup, count) = live.into_setup();
        return Err(LiveFault::Strange(setup, count));
    }
    match finish(live, workers) {
        Ok(closed) => Ok(closed),
        Err(torn) => Err(LiveFault::Torn(torn.0)),
    }
}

/// The promise of a thread: the actor whose worker it returns, the number of turns, and the gate at
/// which the worker arrived before each of them.
#[derive(Drop)]
pub struct ForActor<G> {
    actor: u32,
    turns: u32,
    gate: Snapshot<G>,
}

impl<L: Ledger, G: Gate> Promise<Rested<L>> for ForActor<G> {
    ghost use Rattle.live_runner.specs.Turns.{HasPassed};

    ghost kept_by = { λ p w. (w.seat.actor ≡ p.actor)
        × HasPassed G.opens G.shuts p.gate.value p.actor p.turns w.turns
        (length w.seat.receipts) w.is_stuck };
}

/// A running thread, which returns its worker when it is joined.
pub type Running<L, G> = PromisedHandle<Rested<L>, ForActor<G>>;

// Takes the turns of a worker, each with its own hold of the lock.
fn work<L: Ledger, G: Gate, R: Wait + Clock>(
    rt: &R,
    lock: &Mutex<Live<L>>,
    seat: Seat<L>,
    turns: u32,
    gate: &G,
) -> Rested<L>
    requires { seat.receipts ≡ [] }
    ensures actor { result.seat.actor ≡ seat.actor }
    ensures passed { HasPassed G.opens G.shuts gate.now seat.actor turns result.turns
        (length result.seat.receipts) result.is_stuck }
{
    let mut worker = Worker::new(seat, gate);
    for _turn in 0..turns {
        worker.turn(rt, lock);
    }
    worker.leave()
}

/// Starts one thread per seat, in order, each of which takes `turns` turns. Stops at the first
/// thread that can't be started.
pub fn start_all<'s, E, L: Ledger + Send + Sync + 's, G: Gate + 's, R: Wait + Clock + Sync + 's>(
    scope: &Scope<'s, E>,
    rt: &'s R,
    lock: &'s Mutex<Live<L>>,
    seats: Vec<Seat<L>>,
    turns: u32,
    gate: &'s G,
    mut handles: Vec<Running<L, G>>,
) -> Vec<Running<L, G>>
    requires order { InOrder seats.items }
    requires no_receipts { All (λ s. s.receipts ≡ []) seats.items }
    requires none { vec_len handles ≡ 0 }
    requires room { vec_len seats ≤ vec_capacity handles }
    ensures order { HandlesInOrder result.items }
    ensures turns { AllOfTurns gate.now turns result.items }
{
    for seat in seats {
        let promise = ForActor {
            actor: seat.actor(),
            turns,
            gate: Snapshot::of(gate),
        };
        match scope.spawn_with(
            promise,
            move ||
                requires { seat.receipts ≡ [] }
            { work(rt, lock, seat, turns, gate) },
        ) {
            Ok(handle) => handles.push_reserved(handle),
            Err(_) => break,
        }
    }
    handles
}

/// Joins the threads in order, and gives each returned worker a gate. Returns `None` if their
/// number isn't `count`, or if an allocation fails.
pub fn join_all<'g, L: Ledger, G: Gate, R: Threads>(
    rt: &R,
    handles: Vec<Running<L, G>>,
    gate: &'g G,
    mut workers: Vec<Worker<'g, L, G>>,
    count: usize,
) -> Option<Vec<Worker<'g, L, G>>>
    requires order { HandlesInOrder handles.items }
    requires none { vec_len workers ≡ 0 }
    ensures count { IfSome result (λ workers. length workers.items ≡ count) }
    ensures order { IfSome result (λ workers. WorkInOrder workers.items) }
    ensures worked { (n : ℕ) → AllOfTurns gate.now n handles.items
        → IfSome result (λ workers. All (HasWorked G.opens G.shuts gate.now n) workers.items) }
{
    for handle in handles {
        let Ok(()) = workers.push(handle.join(rt).back(gate)) else {
            return None;
        };
    }
    if workers.len() == count {
        Some(workers)
    } else {
        None
    }
}

// Runs one thread per seat, and joins them all. Returns `None` if an allocation fails or a thread
// can't be started.
fn take_turns<'g, L: Ledger + Send + Sync, G: Gate, R: Threads + Wait + Clock + Sync>(
    rt: &R,
    alloc: Global,
    lock: &Mutex<Live<L>>,
    seats: Vec<Seat<L>>,
    turns: u32,
    gate: &'g G,
) -> Option<Vec<Worker<'g, L, G>>>
    requires order { InOrder seats.items }
    requires no_receipts { All (λ s. s.receipts ≡ []) seats.items }
    ensures count { IfSome result (λ workers. length workers.items ≡ length seats.items) }
    ensures order { IfSome result (λ workers. WorkInOrder workers.items) }
    ensures worked { IfSome result
        (λ workers. All (HasWorked G.opens G.shuts gate.now turns) workers.items) }
{
    let count = seats.len();
    let workers = Vec::with_capacity(alloc, count).ok()?;
    let handles = Vec::with_capacity(alloc, count).ok()?;
    let handles = thread::scope(
        thread::scope_env(),
        rt,
        |scope| -> Vec<Running<L, G>>
            requires { InOrder seats.items × All (λ s. s.receipts ≡ []) seats.items
                × (vec_len handles ≡ 0) × (vec_len seats ≤ vec_capacity handles) }
            ensures { HandlesInOrder result.items × AllOfTurns gate.entry.now turns result.items }
        { start_all(scope, rt, lock, seats, turns, gate, handles) },
    );
    join_all(rt, handles, gate, workers, count)
}
