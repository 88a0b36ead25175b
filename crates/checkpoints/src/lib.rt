//! Checkpoints of a run: copies of its state at regular distances, from which a jump to a moment
//! starts. Moment m is the state after the first m events.
#![tactic(auto)]

pub mod kept;

pub use kept::Kept;
