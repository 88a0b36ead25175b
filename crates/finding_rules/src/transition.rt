//! An event that was done, with the facts before it and the state after it.

use crate::conditions::Before;
use machine::{Event, Setup, State};
use places::Record;

/// An event that was done.
#[derive(Clone, Copy)]
pub struct Transition<'a> {
    pub setup: &'a Setup,
    /// The moment before it.
    pub moment: u32,
    pub event: Event,
    /// Facts about the state before it.
    pub before: Before,
    /// The state after it.
    pub state: &'a State,
    /// Its undo record.
    pub past: &'a Record,
    /// The search records the history that sentences need.
    pub keeps_history: bool,
}
