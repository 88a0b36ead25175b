//! The lock that an application holds around its submission ring.
ghost use Rattle.std.specs.Prelude.{◌≡◌, ◌≤◌, ℕ, nat_lt, false, Some, None, IfOk, IfSome, slice_get, map, drop};
ghost use Rattle.std.specs.List.{list_any};
ghost use Rattle.std.specs.Option.{option_map, option_map_or};
ghost use Rattle.machine.specs.Threads.{program_of};
ghost use Rattle.sampling.specs.Locks.{sections, writes_after, is_end, is_waiting, holds, locks, is_locked};
ghost use Rattle.sampling.specs.Spots.{spot_of};

use crate::program::Program;
use machine::{Event, Instruction, State};
use places::{Items, Place, Stage, Value};
use std::alloc::{AllocError, Global};

/// Where a thread is in its program.
#[derive(Clone, Copy)]
pub(crate) struct Spot {
    pub(crate) counter: u64,
    /// Whether it waits in an Enter.
    pub(crate) is_waiting: bool,
}

/// Returns, for each instruction, whether a thread that executes it next holds the lock.
pub(crate) fn sections_of(alloc: Global, program: &[Instruction]) -> Result<Items<bool>, AllocError>
    ensures { IfOk result (λ s. s ≡ sections program.now) }
{
    let end = end_of(program);
    let mut inside = Vec::new(alloc);
    let mut written = false;
    for (counter, instruction) in program.iter().enumerate() {
        inside.push(written && counter < end)?;
        written = writes_after(written, instruction);
    }
    Ok(Items::from_vec(inside))
}

// Returns the index after the last Enter or Push.
fn end_of(program: &[Instruction]) -> usize
    ensures { (k : ℕ) → list_any is_end (drop k program.now) ≡ nat_lt k result }
{
    let mut end = program.len();
    while end > 0 {
        if is_end(&program[end - 1]) {
            return end;
        }
        end -= 1;
    }
    0
}

fn is_end(instruction: &Instruction) -> bool
    ensures { result ≡ is_end instruction.now }
{
    match instruction {
        Instruction::Push(_) | Instruction::Enter { .. } => true,
        _ => false,
    }
}

fn writes_after(written: bool, instruction: &Instruction) -> bool
    ensures { result ≡ writes_after written instruction.now }
{
    match instruction {
        Instruction::Put(_, _) | Instruction::Push(_) => true,
        Instruction::Enter { .. } => false,
        _ => written,
    }
}

/// Returns where a thread is.
#[tactic(auto, using(crate::proofs::Locking::counter_small))]
pub(crate) fn spot_of(state: &State, thread: u32) -> Option<Spot>
    ensures value { result ≡ option_map spot_of (slice_get state.now.threads thread) }
    ensures small { IfSome result (λ s. s.counter ≤ 4096) }
{
    let counter = match state.value(Place::ProgramCounter(thread)) {
        Some(Value::Number(counter)) => counter,
        _ => return None,
    };
    let is_waiting = match state.value(Place::ThreadStage(thread)) {
        Some(Value::Staged(Stage::Waiting(_, _))) => true,
        _ => false,
    };
    Some(Spot {
        counter,
        is_waiting,
    })
}

/// Returns whether a thread that is there holds the lock.
pub(crate) fn holds(state: &State, program: &Program<'_>, thread: u32, spot: Option<Spot>) -> bool
    requires programs { map program_of state.now.threads ≡ program.now.threads }
    requires spot { spot ≡ option_map spot_of (slice_get state.now.threads thread) }
    ensures { result ≡ option_map_or holds (slice_get state.now.threads thread) false }
{
    match spot {
        Some(spot) => !spot.is_waiting && program.is_inside(thread, spot.counter),
        None => false,
    }
}

/// Returns whether a thread that can do a step holds the lock.
pub(crate) fn is_locked(state: &State, program: &Program<'_>) -> bool
    requires programs { map program_of state.now.threads ≡ program.now.threads }
    ensures { result ≡ is_locked state.now }
{
    for thread in 0..program.thread_count() {
        if locks(state, program, thread) {
            return true;
        }
    }
    false
}

fn locks(state: &State, program: &Program<'_>, thread: u32) -> bool
    requires programs { map program_of state.now.threads ≡ program.now.threads }
    ensures { result ≡ locks state.now thread }
{
    let spot = spot_of(state, thread);
    holds(state, program, thread, spot) && state.refuses(Event::Step(thread)).is_none()
}
