//! Makes a schedule that shows a symptom short. Each candidate is run and examined before it is
//! kept, so what is returned shows the symptom, however candidates are chosen.
#![tactic(auto)]

mod attempts;
mod candidates;
mod costs;
mod goal;
mod origins;
mod passes;
mod shrinking;

pub use shrinking::{Shrunk, shrink};
