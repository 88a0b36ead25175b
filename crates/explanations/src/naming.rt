//! Reports of several runs, each with the name of its run.

use serde::Serialize;
use std::alloc::{AllocError, Global};

/// A run without a report, as `explain --json` prints it.
#[derive(Drop, Serialize)]
struct FaultObject<'a> {
    run: &'a str,
    fault: &'a str,
    /// Why an event was refused. Empty for any other fault.
    text: &'a str,
}

/// Returns a value as JSON.
pub(crate) fn json_of<T: Serialize>(alloc: Global, value: &T) -> Result<String, AllocError> {
    match serde_json::to_string(alloc, value) {
        Ok(json) => Ok(json),
        Err(_) => Err(AllocError),
    }
}

/// Returns a report after the name of its run: a line `RUN:` before text, or an object with the keys
/// `run` and `findings` around JSON.
pub fn named_report(
    alloc: Global,
    run: &str,
    report: &str,
    json: bool,
) -> Result<String, AllocError> {
    if json {
        let name = json_of(alloc, &run)?;
        let findings = report.trim_end();
        return format!(in alloc; "{{\"run\":{name},\"findings\":{findings}}}");
    }
    format!(in alloc; "{run}:\n{report}")
}

/// Returns the fault of a run that has no report, with the name of the run in the same way. `reason`
/// is the sentence about a refused event, and otherwise empty.
pub fn named_fault(
    alloc: Global,
    run: &str,
    fault: &str,
    reason: &str,
    json: bool,
) -> Result<String, AllocError> {
    if json {
        let object = FaultObject {
            run,
            fault,
            text: reason,
        };
        return json_of(alloc, &object);
    }
    if reason.is_empty() {
        return format!(in alloc; "{run}:\n{fault}\n");
    }
    format!(in alloc; "{run}:\n{fault}\n{reason}\n")
}
