//! Symptoms, for which a run is searched: wanted findings, or places that take values.
#![tactic(auto)]

mod conclusive;
mod examining;
mod reaching;
mod symptom;

pub use conclusive::is_of_end;
pub use examining::{Examined, examine, examined_by};
pub use symptom::{Goal, Sighting, Symptom, Wanted};
