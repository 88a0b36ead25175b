//! What the adapter can do, as the response to `initialize` says it.

use crate::members::Members;
use serde_json::Value;
use std::alloc::{AllocError, Global};

/// What the adapter can do, in the protocol's words.
const CAPABILITIES: [&str; 16] = [
    "supportsConfigurationDoneRequest",
    "supportsFunctionBreakpoints",
    "supportsConditionalBreakpoints",
    "supportsEvaluateForHovers",
    "supportsStepBack",
    "supportsGotoTargetsRequest",
    "supportsStepInTargetsRequest",
    "supportsCompletionsRequest",
    "supportsRestartRequest",
    "supportsExceptionInfoRequest",
    "supportsLoadedSourcesRequest",
    "supportsDataBreakpoints",
    "supportsReadMemoryRequest",
    "supportsDisassembleRequest",
    "supportsBreakpointLocationsRequest",
    "supportsInstructionBreakpoints",
];

// Returns a filter of findings.
fn filter(alloc: Global, word: &str, label: &str) -> Result<Value, AllocError> {
    let mut members = Members::new(alloc);
    members.text("filter", word)?;
    members.text("label", label)?;
    Ok(members.finish())
}

fn filters(alloc: Global) -> Result<Vec<Value>, AllocError> {
    let mut list = Vec::new(alloc);
    list.push(filter(alloc, "faults", "Faults")?)?;
    list.push(filter(alloc, "notes", "Notes")?)?;
    Ok(list)
}

/// Returns the body of the response to `initialize`.
pub(crate) fn capabilities(alloc: Global) -> Result<Value, AllocError> {
    let mut members = Members::new(alloc);
    for name in CAPABILITIES {
        members.flag(name, true)?;
    }
    members.flag("supportsSteppingGranularity", true)?;
    members.add("exceptionBreakpointFilters", Value::Array(filters(alloc)?))?;
    Ok(members.finish())
}
