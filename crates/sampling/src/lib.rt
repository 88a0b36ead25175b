//! Random runs of a program by partial order sampling. A seed and a run number determine a run.
#![tactic(auto)]

mod choosing;
mod draws;
pub mod laws;
mod locked_runs;
mod locks;
mod offers;
mod opening;
mod program;
mod rows;
mod running;
mod samples;

pub use draws::SampleOptions;
pub use locked_runs::keep_lock;
pub use opening::begin;
pub use program::Program;
pub use running::{rewind, sample, undo};
pub use samples::Sample;
