//! The log of a run: a text that lists the changes of each event.
#![tactic(auto)]

mod changed;
mod joining;
pub mod laws;
mod line;
mod logging;
mod range;

pub use changed::{Changed, changes_of};
pub use joining::first_row;
pub use line::{change_lines, row_place, value_shown};
pub use logging::{log_events, log_run};
pub use range::EventRange;
