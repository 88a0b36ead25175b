//! The submission ring and the completion ring, with their free-running head and tail, as lists of
//! pending elements (io_uring(7)).
#![tactic(auto)]

pub mod com_ring;
pub mod flag;
mod noting;
pub mod refusal;
pub mod sharing;
mod size;
pub mod sub_ring;
pub mod taken;

pub use com_ring::ComRing;
pub use flag::RingFlag;
pub use refusal::RingRefusal;
pub use sharing::{SharedComRing, SharedSubRing};
pub use sub_ring::SubRing;
pub use taken::Taken;
