//! The table of all requests, and how submitted entries become requests: chains, drains, and errors
//! at submission.
#![tactic(auto)]

mod failing;
mod finder;
mod holding;
mod index;
pub mod laws;
pub mod links;
mod rest;
pub mod submission;
pub mod table;

pub use links::{is_guard, is_issued, is_soft_linked, is_unfinished};
pub use submission::Batch;
pub use table::sharing::SharedTable;
pub use table::{Table, new_row};
