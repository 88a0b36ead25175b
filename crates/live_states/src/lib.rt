//! A live run's events and receipts under its lock, and how the run is closed.
#![tactic(auto)]

mod closed;
mod closing;
mod kinds;
pub mod laws;
mod lives;
mod receipt;
mod seat;

pub use closed::Closed;
pub use closing::{Closing, Torn};
pub use lives::{Live, LiveRefusal};
pub use receipt::Receipt;
pub use seat::Seat;
