//! Several threads make the numbered runs of an experiment, round by round, up to the first run
//! that shows what is searched for.
#![tactic(auto)]

mod experiment;
mod lanes;
mod outcome;
mod search;

pub use experiment::Experiment;
pub use lanes::Lane;
pub use outcome::{Outcome, Totals};
pub use search::{Report, explore, explore_round};
