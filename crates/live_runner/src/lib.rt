//! Live runs: several threads execute one program together, and a lock protects each event.
#![tactic(auto)]

mod finishing;
mod running;
mod worker;

pub use finishing::finish;
pub use live_rules::{LiveFault, actors, eager_offer};
pub use live_states::{Closed, Live, LiveRefusal, Receipt, Seat, Torn, laws};
pub use running::{ForActor, Running, close, join_all, run_live, start_all};
pub use worker::{AlwaysOpen, Gate, Rested, Turn, Worker, workers_of};
