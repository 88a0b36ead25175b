//! Eager runs: a schedule's due events, and after each all that kernel workers can do at once.
#![tactic(auto)]

mod eager;
pub mod laws;

pub use eager::{EagerFault, eager_run};
