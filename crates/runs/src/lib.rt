//! Reads a run from a script or a trace, and steps each of its events once, with an observer that
//! collects what a report needs.
#![tactic(auto)]

mod driving;
mod fault;
mod idle;
mod observer;
mod pair;
mod reading;

pub use driving::{Ended, drive};
pub use fault::ReportFault;
pub use observer::{Observed, Observer};
pub use pair::{Either, Pair};
pub use reading::{Run, RunFault, is_trace, read_run};
