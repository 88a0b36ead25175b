//! A debug adapter: what an editor requests of a run in the Debug Adapter Protocol.
#![tactic(auto)]

mod adapter;
mod addresses;
mod base;
mod breakpoints;
mod capabilities;
mod completing;
mod conditions;
mod debuggee;
mod event_names;
mod lines;
mod loading;
mod looking;
mod members;
mod moving;
mod replying;
mod searched;
mod serving;
mod setting;
mod sourcing;
mod verdicts;
mod wanted;

pub use serving::{SessionFault, serve};
