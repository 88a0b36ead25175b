//! Pages of the variables of a container, of changes and of findings, and where steps lead.
#![tactic(auto)]

mod changes;
mod listing;
mod pages;
mod reports;
mod steps;

pub use listing::variables;
pub use pages::Page;
pub use steps::{moment_ahead, moment_back};
