//! Bit sets of small numbers, and a search for the least number whose threshold a total reaches.
//! The request table uses both as indexes over its rows.
#![tactic(auto)]

mod pieces;
pub mod sets;
pub mod thresholds;

pub use sets::BitSet;
pub use thresholds::Thresholds;
