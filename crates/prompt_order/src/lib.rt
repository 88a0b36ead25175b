//! Prompt order: a kernel issues the requests of a submission before the submission ends.
#![tactic(auto)]

mod due;
mod late;
pub mod laws;

pub use due::{Due, begun_by, next_due};
pub use late::{Late, first_late, is_prompt};
