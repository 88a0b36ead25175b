//! Workers at a gate that stops them.
ghost use Rattle.std.specs.Prelude.{◌≡◌, ◌≢◌};
ghost use Rattle.live_runner.specs.Actors.{actors};

use crate::tests::{ONE_NOP, check};
use live_runner::{Gate, Live, Receipt, Seat, Turn, Worker, actors};
use machine::{Event, Setup};
use script::read_script;
use std::alloc::Global;
use std::marker::Brand;
use std::sync::atomic::{AtomicU64, Ordering};
use std::sync::ledger::{Blank, Ledger};
use std::sync::{Mutex, Wait};
use std::time::Clock;

// A gate that stops every worker at its second turn. It records each arrival as two digits, actor
// and turn, and counts how often the lock was free.
#[derive(Drop)]
struct ShutAtTwo<'s, L: Ledger> {
    lock: &'s Mutex<Live<L>>,
    arrivals: AtomicU64,
    free: AtomicU64,
}

impl<'s, L: Ledger + Send + Sync> Gate for ShutAtTwo<'s, L> {
    ghost opens = { λ _ _ turn. turn ≢ 2 };

    ghost shuts = { λ _ _ turn. turn ≡ 2 };

    fn arrive<R: Wait + Clock>(&self, _rt: &R, actor: u32, turn: u32) -> bool {
        let before = self.arrivals.load(Ordering::SeqCst);
        let arrival = u64::from(actor)
            .wrapping_mul(10)
            .wrapping_add(u64::from(turn));
        let after = before.wrapping_mul(100).wrapping_add(arrival);
        self.arrivals.store(after, Ordering::SeqCst);
        if self.lock.try_lock().is_some() {
            self.free.fetch_add(1, Ordering::SeqCst);
        }
        turn != 2
    }
}

// Returns whether a turn made the thread's first event.
fn is_first(turn: Turn) -> bool {
    match turn {
        Turn::Did(receipt) => {
            receipt
                == Receipt {
                    actor: 0,
                    moment: 0,
                    event: Event::Step(0),
                }
        }
        _ => false,
    }
}

// The thread makes its first event, and is stuck from its second turn on. The kernel worker, whose
// turns are counted separately, has nothing to do.
fn make_turns<L: Ledger + Send + Sync, R: Wait + Clock>(
    rt: &R,
    lock: &Mutex<Live<L>>,
    gate: &ShutAtTwo<'_, L>,
    thread: Seat<L>,
    kernel: Seat<L>,
) -> bool {
    let mut thread = Worker::new(thread, gate);
    let mut kernel = Worker::new(kernel, gate);
    is_first(thread.turn(rt, lock))
        && matches!(thread.turn(rt, lock), Turn::Stuck)
        && matches!(thread.turn(rt, lock), Turn::Stuck)
        && matches!(kernel.turn(rt, lock), Turn::Idle)
}

// Checks that each of the three turns arrived at the gate while the lock was free. The turn of a
// stuck worker doesn't arrive.
fn ask_gate<L: Ledger + Send + Sync, R: Wait + Clock>(
    rt: &R,
    lock: &Mutex<Live<L>>,
    mut seats: Vec<Seat<L>>,
) -> bool {
    let gate = ShutAtTwo {
        lock,
        arrivals: AtomicU64::new(0),
        free: AtomicU64::new(0),
    };
    let (kernel, thread) = (seats.pop(), seats.pop());
    let (Some(thread), Some(kernel)) = (thread, kernel) else {
        return false;
    };
    make_turns(rt, lock, &gate, thread, kernel)
        && gate.arrivals.load(Ordering::SeqCst) == 10211
        && gate.free.load(Ordering::SeqCst) == 3
}

// Does the same in a new run of a setup.
fn open_and_ask<L: Ledger + Send + Sync, R: Wait + Clock>(
    rt: &R,
    alloc: Global,
    blank: Blank,
    setup: &Setup,
) -> bool
    requires name { blank.name ≡ L.name }
    requires parts { blank.parts ≡ L.parts }
    requires all { blank.parts ≡ actors setup.now 1 }
{
    match Live::<L>::open(alloc, blank, setup, 1) {
        Ok((live, seats)) => ask_gate(rt, &Mutex::new(live), seats),
        Err(_) => false,
    }
}

// Does the same with a new ledger.
fn asks<R: Wait + Clock>(rt: &R, alloc: Global, setup: &Setup) -> bool {
    let blank = Blank::new(actors(setup, 1) as u64);
    open_and_ask::<Brand, R>(rt, alloc, blank, setup)
}

#[test]
fn a_gate_is_asked_before_each_turn(rt: HostRuntime) {
    let asked = match read_script(rt.alloc(), ONE_NOP.as_bytes()) {
        Ok(script) => asks(&rt, rt.alloc(), script.setup()),
        Err(_) => false,
    };
    check(&rt, asked);
}
