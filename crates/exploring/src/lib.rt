//! The search of `explore`: several threads make numbered random runs of a program, and the first
//! one that shows a symptom is found.
#![tactic(auto)]

mod random_runs;

pub use random_runs::{RandomRuns, Worker};
