//! Concludes a search of random runs: shrinks the run that was found, explains it, and puts its
//! schedule into the script.
#![tactic(auto)]

mod concluding;
mod fault;
mod shown;
mod sought;

pub use concluding::{Conclusion, Reporting, conclude};
pub use fault::{ConclusionFault, UntilFault};
pub use sought::{goals_of, symptom_of};
