//! Where a debugger's steps and runs stop: at the stop points of a thread, at breakpoints, and at
//! what the watches say, forwards and backwards.
#![tactic(auto)]

mod landing;
mod moments;
mod sites;
mod steps;

pub use landing::{Cause, Landing, Marks, backward, forward};
pub use moments::Moments;
pub use sites::{Site, breakpoints, moments_before, record_of};
pub use steps::{EditorThread, is_event_of, next_stop, previous_stop};
