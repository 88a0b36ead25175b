//! Workers, which take turns at the lock.
ghost use Rattle.std.specs.Prelude.{◌≡◌, ◌≢◌, ◌↔◌, ◌≤◌, ◌+◌, ℕ, true, false, length, map, vec_len, vec_capacity};
ghost use Rattle.live_states.specs.History.{InOrder};
ghost use Rattle.live_runner.specs.History.{WorkInOrder, fresh};
ghost use Rattle.live_runner.specs.Turns.{seat_after};

use live_states::{Live, LiveRefusal, Receipt, Seat};
use std::marker::Model;
use std::sync::ledger::Ledger;
use std::sync::{Mutex, Wait};
use std::time::Clock;

/// A gate, at which a worker arrives before each turn. It can delay the turn or stop the worker.
pub trait Gate: Sync {
    /// What holds of a turn of an actor for which the gate opens.
    ghost opens: { Self → ℕ → ℕ → Type 0 };

    /// What holds of a turn of an actor for which the gate stays shut.
    ghost shuts: { Self → ℕ → ℕ → Type 0 };

    /// Returns whether the worker continues. Turns are numbered from 1.
    fn arrive<R: Wait + Clock>(&self, rt: &R, actor: u32, turn: u32) -> bool
        ensures opens { result ≡ true → opens self.now actor turn }
        ensures shuts { result ≡ false → shuts self.now actor turn };
}

/// A gate that lets every worker continue at once.
#[derive(Clone, Copy)]
pub struct AlwaysOpen;

impl Gate for AlwaysOpen {
    ghost opens = { λ _ _ _. Unit {0} };

    ghost shuts = { λ _ _ _. ⊥ };

    fn arrive<R: Wait + Clock>(&self, _rt: &R, _actor: u32, _turn: u32) -> bool {
        true
    }
}

/// The outcome of a turn.
#[derive(Clone, Copy)]
pub enum Turn {
    /// The actor made this event.
    Did(Receipt),
    /// The actor had nothing to do.
    Idle,
    /// The offered event was refused.
    Refused(LiveRefusal),
    /// The gate stopped the worker, or it has taken 2^32 - 1 turns.
    Stuck,
}

/// An actor's seat, and the gate at which it arrives before each turn.
#[derive(Drop)]
pub struct Worker<'g, L: Ledger, G: Gate> {
    pub(crate) seat: Seat<L>,
    gate: &'g G,
    turns: u32,
    is_stuck: bool,
}

impl<'g, L: Ledger, G: Gate> Model for Worker<'g, L, G> {
    ghost use Rattle.live_runner.specs.History.{WorkerState};

    ghost Value = { WorkerState G };

    ghost view = { λ w. record {
      seat = w.seat;
      gate = w.gate.now;
      turns = w.turns;
      is_stuck =
          w.is_stuck;
    } };
}

impl<'g, L: Ledger, G: Gate> Worker<'g, L, G> {
    /// Creates a worker that has taken no turn. Allocates no memory.
    pub fn new(seat: Seat<L>, gate: &'g G) -> Worker<'g, L, G>
        ensures { result ≡ fresh gate.now seat }
    {
        Worker {
            seat,
            gate,
            turns: 0,
            is_stuck: false,
        }
    }

    /// Arrives at the gate, and then makes at most one event under the lock. A stuck worker no
    /// longer arrives at its gate.
    pub fn turn<R: Wait + Clock>(&mut self, rt: &R, live: &Mutex<Live<L>>) -> Turn
        ensures seat { self.new.seat ≡ seat_after self.old.seat result }
        ensures gate { self.new.gate ≡ self.old.gate }
        ensures stuck { (result ≡ Turn.Stuck) ↔ (self.new.is_stuck ≡ true) }
        ensures opens { result ≢ Turn.Stuck
            → G.opens self.old.gate self.old.seat.actor self.new.turns
            × (self.new.turns ≡ self.old.turns + 1) }
        ensures shuts { result ≡ Turn.Stuck → self.old.is_stuck ≡ false
            → self.old.turns ≢ 4294967295
            → G.shuts self.old.gate self.old.seat.actor self.new.turns
            × (self.new.turns ≡ self.old.turns + 1) }
        ensures stays { self.old.is_stuck ≡ true → self.new ≡ self.old }
        ensures last { self.old.turns ≡ 4294967295
            → (result ≡ Turn.Stuck) × (self.new.turns ≡ self.old.turns) }
    {
        if self.is_stuck || self.turns == u32::MAX {
            self.is_stuck = true;
            return Turn::Stuck;
        }
        self.turns += 1;
        if !self.gate.arrive(rt, self.seat.actor(), self.turns) {
            self.is_stuck = true;
            return Turn::Stuck;
        }
        hold(rt, live, &mut self.seat)
    }

    /// Returns the worker's seat.
    pub fn into_seat(self) -> Seat<L>
        ensures { result ≡ self.entry.seat }
    {
        let Worker {
            seat,
            gate: _,
            turns: _,
            is_stuck: _,
        } = self;
        seat
    }

    // Detaches the worker from its gate.
    pub(crate) fn leave(self) -> Rested<L>
        ensures seat { result.seat ≡ self.entry.seat }
        ensures turns { result.turns ≡ self.entry.turns }
        ensures stuck { result.is_stuck ≡ self.entry.is_stuck }
    {
        let Worker {
            seat,
            gate: _,
            turns,
            is_stuck,
        } = self;
        Rested {
            seat,
            turns,
            is_stuck,
        }
    }
}

/// A worker without a gate, as its thread returns it.
#[derive(Drop)]
pub struct Rested<L: Ledger> {
    seat: Seat<L>,
    turns: u32,
    is_stuck: bool,
}

impl<L: Ledger> Rested<L> {
    // Gives the worker a gate.
    pub(crate) fn back<'g, G: Gate>(self, gate: &'g G) -> Worker<'g, L, G>
        ensures seat { result.seat ≡ self.seat }
        ensures gate { result.gate ≡ gate.now }
        ensures turns { result.turns ≡ self.turns }
        ensures stuck { result.is_stuck ≡ self.is_stuck }
    {
        let Rested {
            seat,
            turns,
            is_stuck,
        } = self;
        Worker {
            seat,
            gate,
            turns,
            is_stuck,
        }
    }
}

/// Creates one worker per seat. Uses the capacity of `workers`, and allocates no memory.
pub fn workers_of<'g, L: Ledger, G: Gate>(
    seats: Vec<Seat<L>>,
    gate: &'g G,
    mut workers: Vec<Worker<'g, L, G>>,
) -> Vec<Worker<'g, L, G>>
    requires order { InOrder seats.items }
    requires none { vec_len workers ≡ 0 }
    requires room { vec_len seats ≤ vec_capacity workers }
    ensures fresh { result.items ≡ map (fresh gate.now) seats.items }
    ensures count { length result.items ≡ length seats.items }
    ensures order { WorkInOrder result.items }
{
    for seat in seats {
        workers.push_reserved(Worker::new(seat, gate));
    }
    workers
}

// Makes at most one event, under one hold of the lock.
fn hold<L: Ledger, R: Wait>(rt: &R, live: &Mutex<Live<L>>, seat: &mut Seat<L>) -> Turn
    ensures seat { seat.new ≡ seat_after seat.old result }
    ensures moves { result ≢ Turn.Stuck }
{
    match live.lock(rt).take_offer(seat) {
        None => Turn::Idle,
        Some(Ok(receipt)) => Turn::Did(receipt),
        Some(Err(refusal)) => Turn::Refused(refusal),
    }
}
