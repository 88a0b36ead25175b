//! Live runs of a script's setup, with one thread per actor; sessions over them, and their traces.
#![tactic(auto)]

mod living;

pub use living::{answer_closed, live_script, trace_closed};
