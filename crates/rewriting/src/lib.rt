//! Replaces the schedule in the text of a script, and keeps every other byte. The result is read
//! again, so it never has another setup or other events.
#![tactic(auto)]

mod fault;
mod layout;
mod place;
mod schedule;
mod trace;

pub use fault::{RewriteFault, ScheduleFault};
pub use schedule::with_schedule;
pub use trace::with_events_of;
