//! For each opcode: the checks at submission, the possible results, and the effect of completing.
#![tactic(auto)]

pub mod checks;
pub mod effect;
pub mod ending;
pub mod op;
pub mod results;
pub mod running;
mod streams;

pub use checks::{Context, check, check_timed, time_of};
pub use effect::{Effect, Transfer, carry_out};
pub use ending::Outcome;
pub use entries::Choice;
pub use op::{Op, fits_end, is_cancel, is_timer, uses_descriptor};
pub use results::{outcome, outcome_and_effect};
pub use running::is_running;
