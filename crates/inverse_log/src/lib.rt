//! The undo log: a run with a record of each event, and a walker that goes to any moment of the
//! run. Moment m is the state after the first m events.
#![tactic(auto)]

pub mod refusal;
mod trail;
pub mod walker;

pub use refusal::{ExtendRefusal, WalkRefusal};
pub use walker::Walker;
