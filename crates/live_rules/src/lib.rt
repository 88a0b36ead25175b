//! The rules of live runs: the actors, what each of them does next, and why a run was not closed.
#![tactic(auto)]

mod faults;
mod kinds;
pub mod laws;
mod offering;

pub use faults::LiveFault;
pub use kinds::{actors, is_poller, is_submitter, is_worker};
pub use offering::{eager_offer, first_open, offer};
