//! The result of a search of random runs, as text and as JSON.
#![tactic(auto)]

mod exploration;
mod json;
mod schedule;
mod shell;
mod text;

pub use exploration::{Discovery, Exploration, SeenKind};
pub use json::json_of;
pub use text::text_of;
