//! Conditions of data breakpoints.

use commands::{Command, parse_line};
use inverse_log::Walker;
use places::{Place, Value};
use std::alloc::{AllocError, Global};

/// Returns the value of a condition such as `= 5` about a place.
pub(crate) fn value_of(
    alloc: Global,
    walker: &Walker,
    words: &str,
    condition: &str,
) -> Result<Option<(Place, Value)>, AllocError> {
    let line = format!(in alloc; "break {words} {condition}")?;
    match parse_line(alloc, walker.setup(), line.as_bytes())? {
        Ok(Command::Break(place, value)) => Ok(Some((place, value))),
        _ => Ok(None),
    }
}
