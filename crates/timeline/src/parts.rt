//! The data of a page, as JSON. Numbers that may exceed 2^53 are strings, since a browser reads
//! numbers as floats.

use occupancy::Filling;
use serde::Serialize;
use std::alloc::{AllocError, Global};
use timeline_values::{ChangePart, ValuePart};

/// An event in the words of a schedule, what it does, and what it changed.
#[derive(Drop, Serialize)]
pub struct StepPart {
    pub event: String,
    /// The instruction of a thread, or what happens to a request.
    pub does: String,
    /// The index of the instruction in its thread's program.
    pub instruction: Option<u32>,
    /// The request that is issued, finished or expired.
    pub row: Option<u32>,
    pub changes: Vec<ChangePart>,
    /// The changes as the log prints them, cut if they are long, for trace events.
    #[serde(skip)]
    pub lines: Vec<String>,
}

/// An object of the setup.
#[derive(Drop, Serialize)]
pub struct ObjectPart {
    pub name: String,
    pub kind: &'static str,
    /// The bytes that a pipe can hold.
    pub capacity: Option<u32>,
}

/// A row: its request, when it was queued, issued and completed, and its result.
#[derive(Drop, Serialize)]
pub struct RowPart {
    pub row: u32,
    pub name: &'static str,
    pub op: u8,
    pub flags: u8,
    pub fd: i32,
    pub off: String,
    pub addr: String,
    pub len: u32,
    /// The flags of its operation, such as timeout_flags.
    pub opflags: u32,
    pub user: String,
    /// The first row of its chain.
    pub unit: u32,
    /// Whether a row of its chain has IOSQE_IO_DRAIN.
    pub drains: bool,
    /// If it is a linked timeout, the row that it limits.
    pub target: Option<u32>,
    /// When a timeout is due, in nanoseconds.
    pub deadline: Option<String>,
    /// How many requests had completed when a timeout was issued.
    pub base: u32,
    pub queued: u32,
    pub issued: Option<u32>,
    pub ended: Option<u32>,
    pub result: Option<i32>,
}

/// The entries in the submission ring, the completions in the completion ring and in the backlog,
/// and the clock in nanoseconds.
#[derive(Drop, Serialize)]
pub struct FillingPart(pub u32, pub u32, pub u32, pub String);

/// A finding, as a page shows it.
#[derive(Drop, Serialize)]
pub struct FindingPart {
    pub moment: u32,
    pub kind: &'static str,
    /// Whether it is a fault rather than a note.
    pub fault: bool,
    /// Whether it is a condition that has held since the moment, whose event has nothing to do with
    /// it.
    pub since: bool,
    pub text: String,
}

/// The data of a page.
#[derive(Drop, Serialize)]
pub struct PagePart<'a> {
    pub run: &'a str,
    /// The first event that is shown.
    pub from: u32,
    /// One more than the last event that is shown.
    pub to: u32,
    pub events: u32,
    /// The sizes of the rings.
    pub entries: u32,
    pub completions: u32,
    pub objects: Vec<ObjectPart>,
    /// The descriptors, from 3 on, by the names of a script.
    pub descriptors: Vec<String>,
    /// Each thread's instructions.
    pub programs: Vec<Vec<String>>,
    /// The values at the first moment.
    pub values: &'a [ValuePart],
    /// The bytes at the first moment, without zeros at the end.
    pub regions: &'a [ValuePart],
    pub steps: &'a [StepPart],
    /// One per moment, from before the first event to after the last.
    pub fillings: Vec<FillingPart>,
    pub rows: Vec<RowPart>,
    pub findings: Vec<FindingPart>,
}

pub(crate) fn filling_part(alloc: Global, filling: Filling) -> Result<FillingPart, AllocError> {
    let clock = filling.clock;
    Ok(FillingPart(
        filling.submissions,
        filling.completions,
        filling.kept,
        format!(in alloc; "{clock}")?,
    ))
}
