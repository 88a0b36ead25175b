//! Writes the trace event format, which Perfetto and chrome://tracing open. One moment is drawn as
//! one microsecond.

use crate::parts::{FindingPart, RowPart, StepPart};
use occupancy::Filling;
use serde::Serialize;
use std::alloc::{AllocError, Global};

/// The track of the poller. Thread T has track T + 1.
const POLLER: u32 = 17;

/// The track of the kernel's events: issue, finish, expire.
const KERNEL: u32 = 18;

/// The track of the clock.
const CLOCK: u32 = 19;

/// The track of the findings.
const FINDINGS: u32 = 20;

/// A slice, by its track and its moment.
#[derive(Clone, Copy)]
pub(crate) struct Slice {
    pub track: u32,
    pub moment: u32,
}

type Added = Result<(), AllocError>;

// Returns a value as JSON.
fn json<T: Serialize>(alloc: Global, value: &T) -> Result<String, AllocError> {
    match serde_json::to_string(alloc, value) {
        Ok(text) => Ok(text),
        Err(_) => Err(AllocError),
    }
}

// Appends an event of the format with these members.
fn add(out: &mut Vec<u8>, members: &str) -> Added {
    out.extend_from_slice(b",\n{\"pid\":1,")?;
    out.extend_from_slice(members.as_bytes())?;
    out.extend_from_slice(b"}")
}

// Adds the name of a track.
fn add_track(out: &mut Vec<u8>, track: u32, name: &str) -> Added {
    let members = format!(in *out.allocator();
        "\"ph\":\"M\",\"name\":\"thread_name\",\"tid\":{track},\"args\":{{\"name\":\"{name}\"}}"
    )?;
    add(out, members.as_str())
}

fn add_thread(out: &mut Vec<u8>, thread: u32) -> Added {
    let name = format!(in *out.allocator(); "thread {thread}")?;
    add_track(out, thread.saturating_add(1), name.as_str())
}

/// Begins a file with the names of the run and of its tracks: those of its threads, and of the
/// poller if it has one.
pub(crate) fn begin(out: &mut Vec<u8>, run: &str, threads: usize, has_poller: bool) -> Added {
    let run = json(*out.allocator(), &run)?;
    out.extend_from_slice(b"{\"displayTimeUnit\":\"ns\",\"traceEvents\":[\n")?;
    out.extend_from_slice(
        b"{\"pid\":1,\"ph\":\"M\",\"name\":\"process_name\",\"args\":{\"name\":",
    )?;
    out.extend_from_slice(run.as_bytes())?;
    out.extend_from_slice(b"}}")?;
    for thread in 0..threads.min(16) as u32 {
        add_thread(out, thread)?;
    }
    if has_poller {
        add_track(out, POLLER, "poller")?;
    }
    add_track(out, KERNEL, "kernel")?;
    add_track(out, CLOCK, "clock")?;
    add_track(out, FINDINGS, "findings")
}

/// Ends a file.
pub(crate) fn end(out: &mut Vec<u8>) -> Added {
    out.extend_from_slice(b"\n]}\n")
}

// Returns the track of a thread, by its number in an event.
fn track_of_thread(number: &str) -> u32 {
    match number.parse::<u32>() {
        Ok(thread) => thread.min(15) + 1,
        Err(_) => KERNEL,
    }
}

// Returns the track of an event, by its words.
fn track_of(words: &str) -> u32 {
    let Some((word, number)) = words.split_once(' ') else {
        return POLLER;
    };
    match word {
        "step" => track_of_thread(number),
        "take" => POLLER,
        "tick" => CLOCK,
        _ => KERNEL,
    }
}

/// The arguments of a slice.
#[derive(Clone, Copy, Serialize)]
struct SliceArguments<'a> {
    event: u32,
    schedule: &'a str,
    clock: u64,
    instruction: Option<u32>,
    row: Option<u32>,
    /// The kinds of the findings at the event.
    finding: &'a [&'static str],
    changes: &'a [String],
}

/// Adds an event of the run as a slice from its moment to the next, named by what it does, and
/// returns its track.
pub(crate) fn add_slice(
    out: &mut Vec<u8>,
    index: u32,
    step: &StepPart,
    found: &[&'static str],
    clock: u64,
) -> Result<u32, AllocError> {
    let alloc = *out.allocator();
    let track = track_of(step.event.as_str());
    let name = json(alloc, &step.does)?;
    let arguments = SliceArguments {
        event: index,
        schedule: step.event.as_str(),
        clock,
        instruction: step.instruction,
        row: step.row,
        finding: found,
        changes: &step.lines,
    };
    let arguments = json(alloc, &arguments)?;
    let members = format!(in alloc;
        "\"ph\":\"X\",\"name\":{name},\"cat\":\"event\",\"tid\":{track},\"ts\":{index},\"dur\":1,\"args\":{arguments}"
    )?;
    add(out, members.as_str())?;
    Ok(track)
}

/// Adds a finding, as an instant at its moment.
pub(crate) fn add_finding(out: &mut Vec<u8>, part: &FindingPart) -> Added {
    let alloc = *out.allocator();
    let FindingPart {
        moment,
        kind,
        fault,
        ..
    } = part;
    let text = json(alloc, &part.text)?;
    let members = format!(in alloc;
        "\"ph\":\"i\",\"s\":\"t\",\"cat\":\"finding\",\"name\":\"{kind}\",\"tid\":{FINDINGS},\"ts\":{moment},\"args\":{{\"fault\":{fault},\"text\":{text}}}"
    )?;
    add(out, members.as_str())
}

// Adds the length of a queue at a moment, as a counter.
fn add_counter(out: &mut Vec<u8>, name: &str, moment: u32, waiting: u32) -> Added {
    let members = format!(in *out.allocator();
        "\"ph\":\"C\",\"name\":\"{name}\",\"ts\":{moment},\"args\":{{\"waiting\":{waiting}}}"
    )?;
    add(out, members.as_str())
}

/// Adds the occupancy of the rings and the backlog at a moment.
pub(crate) fn add_filling(out: &mut Vec<u8>, moment: u32, filling: Filling) -> Added {
    add_counter(out, "submission ring", moment, filling.submissions)?;
    add_counter(out, "completion ring", moment, filling.completions)?;
    add_counter(out, "backlog", moment, filling.kept)
}

// Adds the beginning or the end of an asynchronous slice of a row, with its arguments.
fn add_end(
    out: &mut Vec<u8>,
    kind: &str,
    name: &str,
    row: u32,
    moment: u32,
    arguments: &str,
) -> Added {
    let members = format!(in *out.allocator();
        "\"ph\":\"{kind}\",\"cat\":\"row\",\"id\":{row},\"tid\":18,\"ts\":{moment},\"name\":\"{name}\",\"args\":{{{arguments}}}"
    )?;
    add(out, members.as_str())
}

// Adds a phase of a row as a slice, which ends at `to` if that is given.
fn add_phase(out: &mut Vec<u8>, phase: &str, row: u32, from: u32, to: Option<u32>) -> Added {
    add_end(out, "b", phase, row, from, "")?;
    match to {
        Some(to) => add_end(out, "e", phase, row, to, ""),
        None => Ok(()),
    }
}

// Returns the request of a row, as JSON members.
fn request_text(alloc: Global, part: &RowPart) -> Result<String, AllocError> {
    let user = part.user.as_str();
    let chain = part.unit;
    let fd = part.fd;
    let off = part.off.as_str();
    let addr = part.addr.as_str();
    let len = part.len;
    let flags = part.flags;
    format!(in alloc;
        "\"user_data\":\"{user}\",\"chain\":{chain},\"fd\":{fd},\"off\":\"{off}\",\"addr\":\"{addr}\",\"len\":{len},\"flags\":{flags}"
    )
}

// Returns a moment, if it isn't after the last one.
fn up_to(last: u32, moment: Option<u32>) -> Option<u32> {
    match moment {
        Some(moment) if moment <= last => Some(moment),
        _ => None,
    }
}

// Adds the end of a row's slice, with its result.
fn add_row_end(out: &mut Vec<u8>, part: &RowPart, name: &str, moment: u32) -> Added {
    let result = part.result.unwrap_or(0);
    let arguments = format!(in *out.allocator(); "\"result\":{result}")?;
    add_end(out, "e", name, part.row, moment, arguments.as_str())
}

/// Adds a row as an asynchronous slice, with a slice inside it for each of its phases, queued and
/// issued. Leaves out what is after the last moment.
pub(crate) fn add_row(out: &mut Vec<u8>, part: &RowPart, last: u32) -> Added {
    let alloc = *out.allocator();
    let row = part.row;
    let operation = part.name;
    let name = format!(in alloc; "row {row} {operation}")?;
    let arguments = request_text(alloc, part)?;
    let issued = up_to(last, part.issued);
    let ended = up_to(last, part.ended);
    add_end(
        out,
        "b",
        name.as_str(),
        row,
        part.queued,
        arguments.as_str(),
    )?;
    add_phase(out, "queued", row, part.queued, issued.or(ended))?;
    if let Some(issued) = issued {
        add_phase(out, "issued", row, issued, ended)?;
    }
    match ended {
        Some(ended) => add_row_end(out, part, name.as_str(), ended),
        None => Ok(()),
    }
}

/// Adds a flow from the event that completed a row to the next event of the row linked to it.
pub(crate) fn add_link(out: &mut Vec<u8>, row: u32, ended: Slice, went_on: Slice) -> Added {
    let alloc = *out.allocator();
    let Slice { track, moment } = ended;
    let from = format!(in alloc;
        "\"ph\":\"s\",\"cat\":\"link\",\"name\":\"link\",\"id\":{row},\"tid\":{track},\"ts\":{moment}"
    )?;
    add(out, from.as_str())?;
    let Slice { track, moment } = went_on;
    let to = format!(in alloc;
        "\"ph\":\"f\",\"bp\":\"e\",\"cat\":\"link\",\"name\":\"link\",\"id\":{row},\"tid\":{track},\"ts\":{moment}"
    )?;
    add(out, to.as_str())
}
