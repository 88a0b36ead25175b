//! The machine: io_uring's rings, the requests, the threads, and how each event changes them.
#![tactic(auto)]

mod cancelling;
mod closing;
mod ending;
mod entering;
mod expiring;
mod finishing;
pub mod laws;
mod performing;
mod planning;
mod refusing;
mod restoring;
pub mod sharing;
mod starting;
pub mod state;
mod stepping;
mod submitting;
pub mod threads;
pub mod whole;

pub use cancelling::takes_all;
pub use scenario::{
    Event, Instruction, PlaceFault, Refusal, Setup, SetupRefusal, place_of, read_number, ring_size,
    setup_refusal,
};
pub use state::{Snapshot, State};
