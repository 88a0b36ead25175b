//! Whether a machine is over: no thread can do a step, no request can change, and no deadline is
//! ahead, so that only idle events are accepted.
#![tactic(auto)]

pub mod laws;
mod over;

pub use over::{going, is_over};
