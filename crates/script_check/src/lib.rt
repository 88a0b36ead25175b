//! Checks whether a script can be read and run, and reports its faults in sentences, with line and
//! column.
#![tactic(auto)]

mod checking;
mod document;
mod entry_names;
mod failing;
mod fault_sentences;
mod file_lines;
mod further;
mod locating;
mod not_json;
mod ranges;
mod refusals;
mod refused;
mod report;
mod verdict;

pub use checking::check_script;
pub use failing::{SureFailure, sure_failures};
pub use file_lines::{long_line, unread_line};
pub use refused::refusal_sentence;
pub use verdict::Verdict;
