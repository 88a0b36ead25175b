//! Queue occupancy and request lifetimes over a run: how full the rings and the backlog are at each
//! moment, and when each request was submitted, issued and completed.
#![tactic(auto)]

mod filling;
mod following;
mod occupancy;
mod stamps;
mod thread_stages;

pub use filling::Filling;
pub use following::{Followed, Follower, StagesMoment};
pub use occupancy::Occupancy;
pub use stamps::Stamps;
pub use thread_stages::ThreadStages;
