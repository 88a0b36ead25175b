//! The set of incomplete READs and WRITEs, updated event by event.
ghost use Rattle.std.specs.Prelude.{◌≡◌, not, ◌==◌, filter, OnOk};
ghost use Rattle.findings.specs.{is_candidate_in, followed};

use crate::record::{Added, row_in};
use finding_rules::conflicts::is_candidate;
use places::Value;

/// Returns whether the value is an incomplete READ or WRITE.
pub(crate) fn is_candidate_in(value: Option<Value>) -> bool
    ensures { result ≡ is_candidate_in value }
{
    matches!(row_in(value), Some(row) if is_candidate(&row))
}

// Removes a number.
fn leave(numbers: &mut Vec<u32>, number: u32)
    ensures { numbers.new.items ≡ filter (λ k. not (k == number)) numbers.old.items }
{
    numbers.retain(|k| *k != number);
}

/// Updates the numbers of incomplete READs and WRITEs for one request: whether it was one before
/// the event, and is one after it.
pub(crate) fn follow(numbers: &mut Vec<u32>, number: u32, was: bool, is: bool) -> Added
    ensures { OnOk result (numbers.new.items ≡ followed numbers.old.items number was is) }
{
    match (was, is) {
        (false, true) => {
            numbers.push(number)?;
            Ok(())
        }
        (true, false) => {
            leave(numbers, number);
            Ok(())
        }
        _ => Ok(()),
    }
}
