//! Findings as JSON objects.

use crate::naming::json_of;
use finding_kinds::Finding;
use sentences::{Run, sentence};
use serde::Serialize;
use std::alloc::{AllocError, Global};

/// A put as `explain --json` prints it: the thread, and the index of its instruction.
#[derive(Clone, Copy, Serialize)]
struct PutObject {
    thread: u32,
    instruction: u32,
}

/// A finding as `explain --json` prints it.
#[derive(Drop, Serialize)]
struct FindingObject<'a> {
    moment: u32,
    kind: &'static str,
    fault: bool,
    /// The request in question, if it is about one.
    rows: &'a [u32],
    /// For each of them the put that wrote its entry, or null if no thread put it.
    put: &'a [Option<PutObject>],
    /// The thread in question, if it is about one.
    threads: &'a [u32],
    text: String,
}

// Returns the put that wrote the entry of a request.
fn put_of(run: &Run<'_>, number: u32) -> Option<PutObject> {
    let put = run.put_of(number)?;
    Some(PutObject {
        thread: put.thread,
        instruction: put.instruction,
    })
}

/// Appends a finding as a JSON object on its own line, after a comma unless it is the first.
pub(crate) fn add_object(
    alloc: Global,
    out: &mut String,
    run: &Run<'_>,
    index: usize,
    finding: Finding,
) -> Result<(), AllocError> {
    let kind = finding.kind;
    let subject = [finding.subject];
    let put = [put_of(run, finding.subject)];
    let object = FindingObject {
        moment: finding.moment,
        kind: kind.word(),
        fault: kind.is_fault(),
        rows: if kind.is_of_row() { &subject } else { &[] },
        put: if kind.is_of_row() { &put } else { &[] },
        threads: if kind.is_of_thread() { &subject } else { &[] },
        text: sentence(alloc, run, index)?,
    };
    let comma = if out.len() == 2 { "" } else { ",\n" };
    out.push_str(comma)?;
    out.push_str(json_of(alloc, &object)?.as_str())
}
