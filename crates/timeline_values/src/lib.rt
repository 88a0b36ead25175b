//! What a page contains of places: their values at its first moment, and the changes of each event.
#![tactic(auto)]

mod changes;
mod opening;
mod parts;
mod values;

pub use changes::change_parts;
pub use opening::{Opening, Ranged};
pub use parts::{ChangePart, ValuePart};
pub use values::Values;
