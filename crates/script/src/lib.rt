//! Reads scripts: JSON texts with a setup and a schedule of events. It re-exports the functions for
//! traces, and defines the texts of events.
#![tactic(auto)]

mod descriptor;
mod entry;
mod event;
mod event_text;
mod fault;
mod instruction;
pub mod items;
mod keys;
pub mod laws;
mod memory;
mod names;
mod number;
mod object;
mod parts;
mod reading;
mod threads;

pub use event_text::EventText;
pub use fault::{Key, Path, ScriptFault};
pub use parts::Script;
pub use reading::read_script;
pub use traces::{TraceFault, migrate, read_trace, read_trace2, write_trace, write_trace2};
