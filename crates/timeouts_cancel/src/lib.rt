//! Which requests complete as a consequence of others, which timers have expired, and which
//! requests a cancellation matches.
#![tactic(auto)]

mod cascading;
mod guards;
pub mod laws;
mod matching;
mod merging;
mod timers;

pub use cascading::{fall, falls_alone};
pub use matching::{Found, Key, all_by, count_by, find, find_by};
pub use timers::{count, due};
