//! Setups, from which runs start; events, of which runs consist; and the names of places.
#![tactic(auto)]

pub mod event;
mod holdings;
pub mod laws;
pub mod limits;
pub mod names;
mod numbered;
mod owned;
mod place_text;
mod same;
pub mod setup;

pub use event::{Event, Refusal};
pub use holdings::{is_descriptor, is_name};
pub use limits::{completion_entries, ring_size, setup_refusal};
pub use names::{PlaceFault, place_of, read_number};
pub use place_text::{number_of, put_number, put_place};
pub use setup::{Instruction, Setup, SetupRefusal};
