//! The search for the findings of a run: bugs, losses and notable outcomes. It is proved to report
//! exactly what the definition of each kind says.
#![tactic(auto)]

mod changes;
mod completed;
mod failures;
mod following;
pub mod laws;
mod leftover;
mod lost;
mod marking;
mod noting;
mod ordering;
mod record;
mod searching;
mod suspects;
mod verdicts;
mod watching;

pub use searching::{Found, Search, search_run};
