//! Finds the offsets at which values of a JSON text begin and end, without reading the values.
//! Each function expects a valid text, and returns some offset or none if it is invalid.
#![tactic(auto)]

mod members;
mod walk;

pub use members::{Member, document_at, end_of, item_at, last_member, members_of};
pub use walk::string_length;
