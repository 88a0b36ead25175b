//! Whether each thread waits, and whether the poller is awake.
ghost use Rattle.std.specs.Prelude.{◌≡◌, ◌≤◌, map, option_map, length, slice_get, IfOk};
ghost use Rattle.occupancy.specs.{is_awake, AreThreadStages};

use machine::State;
use places::{Place, Stage, Value};
use std::alloc::{AllocError, Global};

/// The most threads of a setup.
const MOST_THREADS: u32 = 16;

/// The stage of each thread, and whether the poller is awake; None without IORING_SETUP_SQPOLL.
#[derive(Drop)]
pub struct ThreadStages {
    pub stages: Vec<Stage>,
    pub awake: Option<bool>,
}

// Returns the stage of a thread, or None if there is no such thread.
fn stage_at(state: &State, thread: u32) -> Option<Stage>
    ensures { result ≡ option_map (λ x. x.stage) (slice_get state.now.threads thread) }
{
    match state.value(Place::ThreadStage(thread)) {
        Some(Value::Staged(stage)) => Some(stage),
        _ => None,
    }
}

// Returns the stages of all threads.
fn stages_of(alloc: Global, state: &State) -> Result<Vec<Stage>, AllocError>
    requires few { length state.now.threads ≤ 16 }
    ensures { IfOk result (λ stages. stages.items ≡ map (λ x. x.stage) state.now.threads) }
{
    let mut stages = Vec::new(alloc);
    for thread in 0..MOST_THREADS {
        if let Some(stage) = stage_at(state, thread) {
            stages.push(stage)?;
        }
    }
    Ok(stages)
}

// Returns whether the poller is awake, or None if there is no poller.
fn poller_awake(state: &State) -> Option<bool>
    ensures { result ≡ option_map is_awake state.now.poller }
{
    match state.value(Place::PollerStage) {
        Some(Value::Awake(awake)) => Some(awake),
        _ => None,
    }
}

impl ThreadStages {
    /// Reads the stages of the threads and the poller.
    pub(crate) fn new(alloc: Global, state: &State) -> Result<ThreadStages, AllocError>
        requires few { length state.now.threads ≤ 16 }
        ensures { IfOk result (AreThreadStages state.now) }
    {
        Ok(ThreadStages {
            stages: stages_of(alloc, state)?,
            awake: poller_awake(state),
        })
    }
}
