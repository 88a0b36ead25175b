//! The data that the search for findings and the sentences of the report share: findings, their
//! kinds and order, and the history of a run.
#![tactic(auto)]

mod chains;
mod descriptors;
mod facts;
mod finding;
mod history;
mod kind;
mod limits;
mod naming;
mod programs;
mod values;

pub use chains::distance_to_next;
pub use descriptors::{FIRST_DESCRIPTOR, descriptor_number};
pub use finding::Finding;
pub use history::{Closed, Failure, History, Lost, Met, Reaped, Retry, Times};
pub use kind::{
    CancelKind, ConflictKind, EndedKind, Kind, LastingKind, LeftKind, QueuedKind, StepKind, Verdict,
};
pub use limits::{LOOKED_BACK, MOST_ROWS};
pub use programs::instruction_at;
pub use values::{differs_at, number_at};
