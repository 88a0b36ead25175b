//! The sentences of the findings of a run, the sentence that says why a request hasn't completed,
//! and the names of rows, results and opcodes.
#![tactic(auto)]

mod about;
mod by_kind;
mod bytes;
mod cancels;
mod chains;
mod conflicts;
mod counted;
mod cut_off;
mod durable;
mod errors;
mod left;
mod listing;
mod matches;
mod names;
mod objects;
mod opcode_names;
mod rings;
mod rules;
mod run;
mod submitting;
mod uses;
mod waiting;

pub use by_kind::sentence;
pub use counted::Counted;
pub use left::why_unfinished;
pub use names::{ResultName, RowName};
pub use opcode_names::{Unmodelled, is_modelled, opcode_name, opcode_of_name};
pub use run::{Run, ThreadStep};
