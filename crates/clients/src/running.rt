//! A live run in threads, and clients that inspect it meanwhile.
ghost use Rattle.std.specs.Prelude.{◌≡◌, ◌≤◌, ◌∷◌, [], All, length, IfOk, IfErr, vec_len, vec_capacity};
ghost use Rattle.live_runner.specs.Actors.{actors};
ghost use Rattle.live_runner.specs.History.{InOrder, WorkInOrder, Whole};
ghost use Rattle.live_runner.specs.Running.{HandlesInOrder, AllOfTurns};
ghost use Rattle.debug_server.specs.Kinds.{IsOf, OfMemory, OfListening};
ghost use Rattle.clients.specs.Serving.{IsOfServing};

use crate::serving::serve_clients;
use debug_server::{Fault, RunFault};
use live_runner::{
    AlwaysOpen, Closed, Live, Running, Seat, Worker, actors, close, join_all, start_all,
};
use scenario::Setup;
use script::Script;
use std::alloc::Global;
use std::marker::Brand;
use std::net::TcpListener;
use std::sync::ledger::{Blank, Ledger};
use std::sync::{Mutex, Wait};
use std::thread;
use std::thread::{Scope, Threads};
use std::time::Clock;

/// Runs a script's setup with one thread per actor, each of which takes `turns` turns, and serves
/// clients at the same time. After `sessions` sessions it closes the run; with `None` it serves
/// forever. If a thread can't be started, no client is served. When it returns a fault, all threads
/// and sessions have ended.
pub fn serve_live<R: Threads + Wait + Clock + Sync>(
    rt: &R,
    alloc: Global,
    script: &Script,
    listener: &TcpListener,
    turns: u32,
    kernel: u32,
    sessions: Option<u32>,
) -> Result<Closed, Fault>
    requires { kernel ≤ 8 }
    ensures whole { IfOk result Whole }
    ensures same { IfOk result (λ c. (c.setup ≡ script.now.setup)
        × (c.actors ≡ actors script.now.setup kernel)) }
    ensures other { IfErr result
        (IsOfServing script.now.setup (actors script.now.setup kernel)) }
{
    let setup = script.setup();
    let blank = Blank::new(actors(setup, kernel) as u64);
    serve_over::<Brand, R>(
        rt, alloc, blank, setup, script, listener, turns, kernel, sessions,
    )
}

// Does the work of `serve_live` with the blank of a ledger.
fn serve_over<L: Ledger + Send + Sync, R: Threads + Wait + Clock + Sync>(
    rt: &R,
    alloc: Global,
    blank: Blank,
    setup: &Setup,
    script: &Script,
    listener: &TcpListener,
    turns: u32,
    kernel: u32,
    sessions: Option<u32>,
) -> Result<Closed, Fault>
    requires kernel { kernel ≤ 8 }
    requires name { blank.name ≡ L.name }
    requires parts { blank.parts ≡ L.parts }
    requires all { blank.parts ≡ actors setup.now kernel }
    ensures whole { IfOk result Whole }
    ensures same { IfOk result (λ c. (c.setup ≡ setup.now) × (c.actors ≡ actors setup.now kernel)) }
    ensures other { IfErr result (IsOfServing setup.now (actors setup.now kernel)) }
{
    let Ok((live, seats)) = Live::<L>::open(alloc, blank, setup, kernel) else {
        return Err(Fault::Run(RunFault::Memory));
    };
    let lock = Mutex::new(live);
    match run_with_clients(rt, alloc, script, listener, &lock, seats, turns, sessions) {
        Ok(workers) => close_run(lock.into_inner(), setup, actors(setup, kernel), workers),
        Err(fault) => Err(Fault::Run(fault)),
    }
}

// Closes the run that the lock returned.
fn close_run<'g, L: Ledger>(
    live: Live<L>,
    setup: &Setup,
    count: u32,
    workers: Vec<Worker<'g, L, AlwaysOpen>>,
) -> Result<Closed, Fault>
    requires actors { length workers.items ≡ count }
    requires order { WorkInOrder workers.items }
    ensures whole { IfOk result Whole }
    ensures same { IfOk result (λ c. (c.setup ≡ setup.now) × (c.actors ≡ count)) }
    ensures other { IfErr result (IsOfServing setup.now count) }
{
    match close(live, setup, count, workers) {
        Ok(closed) => Ok(closed),
        Err(fault) => Err(Fault::Live(fault)),
    }
}

// Runs one thread per seat and serves clients meanwhile. Returns when all threads have ended.
fn run_with_clients<L: Ledger + Send + Sync, R: Threads + Wait + Clock + Sync>(
    rt: &R,
    alloc: Global,
    script: &Script,
    listener: &TcpListener,
    lock: &Mutex<Live<L>>,
    seats: Vec<Seat<L>>,
    turns: u32,
    sessions: Option<u32>,
) -> Result<Vec<Worker<'static, L, AlwaysOpen>>, RunFault>
    requires order { InOrder seats.items }
    requires no_receipts { All (λ s. s.receipts ≡ []) seats.items }
    ensures count { IfOk result (λ workers. length workers.items ≡ length seats.items) }
    ensures order { IfOk result (λ workers. WorkInOrder workers.items) }
    ensures other { IfErr result (IsOf (OfMemory ∷ OfListening ∷ [])) }
{
    let count = seats.len();
    let Ok(workers) = Vec::with_capacity(alloc, count) else {
        return Err(RunFault::Memory);
    };
    let Ok(handles) = Vec::with_capacity(alloc, count) else {
        return Err(RunFault::Memory);
    };
    let (handles, served) = thread::scope(
        thread::scope_env(),
        rt,
        |scope| -> (Vec<Running<L, AlwaysOpen>>, Result<u32, RunFault>)
            requires { InOrder seats.items × All (λ s. s.receipts ≡ []) seats.items
                × (vec_len handles ≡ 0) × (vec_len seats ≤ vec_capacity handles) }
            ensures { HandlesInOrder result.0.items × AllOfTurns (record {}) turns result.0.items
                × IfErr result.1 (IsOf (OfMemory ∷ OfListening ∷ [])) }
        {
            start_with_clients(
                scope, rt, alloc, script, listener, lock, seats, turns, sessions, handles,
            )
        },
    );
    let workers = join_all(rt, handles, &AlwaysOpen, workers, count);
    match served {
        Ok(_) => match workers {
            Some(workers) => Ok(workers),
            None => Err(RunFault::Memory),
        },
        Err(fault) => Err(fault),
    }
}

// Starts one thread per seat, and serves clients if all threads were started.
fn start_with_clients<'s, E, L: Ledger + Send + Sync + 's, R: Threads + Wait + Clock + Sync + 's>(
    scope: &Scope<'s, E>,
    rt: &'s R,
    alloc: Global,
    script: &Script,
    listener: &TcpListener,
    lock: &'s Mutex<Live<L>>,
    seats: Vec<Seat<L>>,
    turns: u32,
    sessions: Option<u32>,
    handles: Vec<Running<L, AlwaysOpen>>,
) -> (Vec<Running<L, AlwaysOpen>>, Result<u32, RunFault>)
    requires order { InOrder seats.items }
    requires no_receipts { All (λ s. s.receipts ≡ []) seats.items }
    requires none { vec_len handles ≡ 0 }
    requires room { vec_len seats ≤ vec_capacity handles }
    ensures order { HandlesInOrder result.0.items }
    ensures turns { AllOfTurns (record {}) turns result.0.items }
    ensures other { IfErr result.1 (IsOf (OfMemory ∷ OfListening ∷ [])) }
{
    let count = seats.len();
    let handles = start_all(scope, rt, lock, seats, turns, &AlwaysOpen, handles);
    if handles.len() < count {
        return (handles, Err(RunFault::Memory));
    }
    let served = serve_clients(rt, alloc, script, listener, lock, sessions);
    (handles, served)
}
