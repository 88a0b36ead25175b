//! Watchpoints and breakpoints of a session. `rcont` and `cont` move a walker to an event that
//! changes a watched place, or to a moment at which a place takes a given value.
#![tactic(auto)]

pub mod searching;
pub mod stopping;
mod watched;

pub use searching::{earlier, later};
pub use stopping::{Stop, cont, position_of, rcont};
pub use watched::{Break, LIMIT, Watches};
