//! What an editor sees of a moment of a run: threads, frames, scopes, variables, and the values of
//! expressions.
#![tactic(auto)]

mod bodies;
mod editor_threads;
mod evaluation;
mod frame_bodies;
mod frames;
mod json;
pub mod laws;
mod scope;

pub use bodies::{evaluate_body, scopes_body, threads_body, variable_value, variables_body};
pub use dap_lists::{Page, moment_ahead, moment_back, variables};
pub use dap_variables::{Container, RequestField, Variable, container_of, reference_of};
pub use editor_threads::{thread_id, thread_name, thread_of, threads};
pub use evaluation::{evaluate, place_named};
pub use frame_bodies::{frame_value, stack_body};
pub use frames::{Frame, SourceRange, frame_at, frame_of};
pub use scope::scopes;
