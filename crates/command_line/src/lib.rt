//! The command line: reads its words, and returns the job that they describe.
#![tactic(auto)]

mod program;
mod table;
mod task;
mod version;
mod words;

pub use table::KINDS;
pub use task::{Exploration, Form, Job, ReportForm};
pub use words::job;
