//! Builds the data of a page, and the bytes of a trace event file, from a run that was stepped.

use crate::drawn::Drawn;
use crate::marks::{finding_parts, kinds_at};
use crate::parts::{
    FillingPart, FindingPart, ObjectPart, PagePart, RowPart, StepPart, filling_part,
};
use crate::row_parts::{drains, program_part, row_part};
use crate::trace_events::{
    Slice, add_filling, add_finding, add_link, add_row, add_slice, begin, end,
};
use entries::Row;
use machine::{Setup, ring_size};
use occupancy::{Filling, Occupancy};
use places::{Contents, Descriptor, End, Object};
use run_log::EventRange;
use scenario::completion_entries;
use std::alloc::{AllocError, Global};

// Returns how many events a run has.
fn event_count(occupancy: &Occupancy) -> u32 {
    occupancy
        .fillings
        .len()
        .saturating_sub(1)
        .min(u32::MAX as usize) as u32
}

// Returns the end of a range over `count` events.
fn end_of(range: EventRange, count: u32) -> u32 {
    range.to.unwrap_or(count)
}

// Returns whether a row is present between two moments.
fn is_within(part: &RowPart, from: u32, to: u32) -> bool {
    part.queued <= to
        && match part.ended {
            Some(ended) => from <= ended,
            None => true,
        }
}

// Returns the rows that are present between two moments.
fn row_parts(
    alloc: Global,
    rows: &[Row],
    occupancy: &Occupancy,
    from: u32,
    to: u32,
) -> Result<Vec<RowPart>, AllocError> {
    let mut parts = Vec::new(alloc);
    for (number, (row, stamps)) in rows.iter().zip(occupancy.stamps.iter()).enumerate() {
        let number = number.min(65535) as u32;
        let part = row_part(alloc, number, row, drains(rows, row.unit), *stamps)?;
        if is_within(&part, from, to) {
            parts.push(part)?;
        }
    }
    Ok(parts)
}

// Returns the occupancy at the moments of a range.
fn fillings_in(occupancy: &Occupancy, from: u32, to: u32) -> &[Filling] {
    let fillings = occupancy.fillings.as_slice();
    let end = fillings.len().min(to as usize + 1);
    let begin = end.min(from as usize);
    &fillings[begin..end]
}

fn filling_parts(alloc: Global, fillings: &[Filling]) -> Result<Vec<FillingPart>, AllocError> {
    let mut parts = Vec::new(alloc);
    for filling in fillings {
        parts.push(filling_part(alloc, *filling)?)?;
    }
    Ok(parts)
}

fn programs(alloc: Global, setup: &Setup) -> Result<Vec<Vec<String>>, AllocError> {
    let mut texts = Vec::new(alloc);
    for program in setup.threads.as_slice() {
        texts.push(program_part(alloc, program.as_slice())?)?;
    }
    Ok(texts)
}

fn object_part(alloc: Global, object: &Object) -> Result<ObjectPart, AllocError> {
    let (kind, capacity) = match object.contents {
        Contents::File(_) => ("file", None),
        Contents::Pipe(capacity) => ("pipe", Some(capacity)),
        Contents::EventFd(_) => ("eventfd", None),
    };
    Ok(ObjectPart {
        name: String::from_utf8_lossy(alloc, object.name.as_slice())?,
        kind,
        capacity,
    })
}

fn object_parts(alloc: Global, setup: &Setup) -> Result<Vec<ObjectPart>, AllocError> {
    let mut parts = Vec::new(alloc);
    for object in setup.objects.as_slice() {
        parts.push(object_part(alloc, object)?)?;
    }
    Ok(parts)
}

// Returns a descriptor by its name in a script.
fn descriptor_text(
    alloc: Global,
    setup: &Setup,
    descriptor: Descriptor,
) -> Result<String, AllocError> {
    let name = match setup.objects.as_slice().get(descriptor.object as usize) {
        Some(object) => String::from_utf8_lossy(alloc, object.name.as_slice())?,
        None => String::new(alloc),
    };
    match descriptor.end {
        End::Whole => Ok(name),
        End::Read => format!(in alloc; "{name}:r"),
        End::Write => format!(in alloc; "{name}:w"),
    }
}

fn descriptors(alloc: Global, setup: &Setup) -> Result<Vec<String>, AllocError> {
    let mut texts = Vec::new(alloc);
    for descriptor in setup.fds.as_slice() {
        texts.push(descriptor_text(alloc, setup, *descriptor)?)?;
    }
    Ok(texts)
}

/// Returns the data of the page of a run.
pub(crate) fn page_part<'a>(alloc: Global, drawn: Drawn<'a>) -> Result<PagePart<'a>, AllocError> {
    let setup = drawn.setup;
    let followed = &drawn.seen.followed;
    let occupancy = &followed.occupancy;
    let count = event_count(occupancy);
    let from = drawn.range.from;
    let to = end_of(drawn.range, count);
    let seen = drawn.seen;
    Ok(PagePart {
        run: drawn.name,
        from,
        to,
        events: count,
        entries: ring_size(setup.entries),
        completions: ring_size(completion_entries(setup.entries, setup.cq)),
        objects: object_parts(alloc, setup)?,
        descriptors: descriptors(alloc, setup)?,
        programs: programs(alloc, setup)?,
        values: &seen.values.values,
        regions: &seen.values.regions,
        steps: &seen.steps,
        fillings: filling_parts(alloc, fillings_in(occupancy, from, to))?,
        rows: row_parts(alloc, &followed.rows, occupancy, from, to)?,
        findings: finding_parts(alloc, &seen.findings, from, to, count)?,
    })
}

// Returns the slice of the event before a moment, if `tracks` has that event.
fn slice_before(tracks: &[u32], from: u32, moment: Option<u32>) -> Option<Slice> {
    let event = moment?.checked_sub(1)?;
    let index = event.checked_sub(from)? as usize;
    match tracks.get(index) {
        Some(track) => Some(Slice {
            track: *track,
            moment: event,
        }),
        None => None,
    }
}

// Returns the index of the row before this one in its chain. A linked timeout is no link of a
// chain.
fn linked_before(parts: &[RowPart], index: usize) -> Option<usize> {
    let part = parts.get(index)?;
    let before = index.checked_sub(1)?;
    let other = parts.get(before)?;
    if part.target.is_some() || other.unit != part.unit {
        return None;
    }
    match other.target {
        Some(_) => before.checked_sub(1),
        None => Some(before),
    }
}

// Adds the flow from a row to the one that is linked to it.
fn add_link_to(
    out: &mut Vec<u8>,
    before: &RowPart,
    part: &RowPart,
    tracks: &[u32],
    from: u32,
) -> Result<(), AllocError> {
    let ended = slice_before(tracks, from, before.ended);
    let went_on = slice_before(tracks, from, part.issued.or(part.ended));
    match (ended, went_on) {
        (Some(ended), Some(went_on)) => add_link(out, before.row, ended, went_on),
        _ => Ok(()),
    }
}

// Adds the flows between linked rows.
fn add_links(
    out: &mut Vec<u8>,
    parts: &[RowPart],
    tracks: &[u32],
    from: u32,
) -> Result<(), AllocError> {
    for (index, part) in parts.iter().enumerate() {
        if let Some(before) = linked_before(parts, index) {
            if let Some(other) = parts.get(before) {
                add_link_to(out, other, part, tracks, from)?;
            }
        }
    }
    Ok(())
}

// Returns the clock at a moment of a range, in nanoseconds.
fn clock_at(fillings: &[Filling], index: usize) -> u64 {
    fillings.get(index).map_or(0, |filling| filling.clock)
}

// Adds the events of a run as slices, and returns their tracks.
fn add_slices(
    out: &mut Vec<u8>,
    steps: &[StepPart],
    fillings: &[Filling],
    findings: &[FindingPart],
    from: u32,
) -> Result<Vec<u32>, AllocError> {
    let alloc = *out.allocator();
    let mut tracks = Vec::new(alloc);
    let mut moment = from;
    for (index, step) in steps.iter().enumerate() {
        let found = kinds_at(alloc, findings, moment)?;
        let track = add_slice(out, moment, step, &found, clock_at(fillings, index))?;
        tracks.push(track)?;
        moment = moment.saturating_add(1);
    }
    Ok(tracks)
}

// Adds the occupancy at the moments of a range, as counters.
fn add_fillings(out: &mut Vec<u8>, fillings: &[Filling], from: u32) -> Result<(), AllocError> {
    let mut moment = from;
    for filling in fillings {
        add_filling(out, moment, *filling)?;
        moment = moment.saturating_add(1);
    }
    Ok(())
}

// Adds the findings.
fn add_findings(out: &mut Vec<u8>, parts: &[FindingPart]) -> Result<(), AllocError> {
    for part in parts {
        add_finding(out, part)?;
    }
    Ok(())
}

// Adds the rows, without what is after a moment.
fn add_rows(out: &mut Vec<u8>, parts: &[RowPart], last: u32) -> Result<(), AllocError> {
    for part in parts {
        add_row(out, part, last)?;
    }
    Ok(())
}

/// Returns the bytes of a trace event file of a run.
pub(crate) fn trace_file(alloc: Global, drawn: Drawn<'_>) -> Result<Vec<u8>, AllocError> {
    let followed = &drawn.seen.followed;
    let occupancy = &followed.occupancy;
    let count = event_count(occupancy);
    let from = drawn.range.from;
    let to = end_of(drawn.range, count);
    let fillings = fillings_in(occupancy, from, to);
    let parts = row_parts(alloc, &followed.rows, occupancy, from, to)?;
    let findings = finding_parts(alloc, &drawn.seen.findings, from, to, count)?;
    let mut out = Vec::new(alloc);
    let has_poller = followed.thread_stages.awake.is_some();
    let threads = drawn.setup.threads.len();
    begin(&mut out, drawn.name, threads, has_poller)?;
    let tracks = add_slices(&mut out, &drawn.seen.steps, fillings, &findings, from)?;
    add_fillings(&mut out, fillings, from)?;
    add_rows(&mut out, &parts, to)?;
    add_links(&mut out, &parts, &tracks, from)?;
    add_findings(&mut out, &findings)?;
    end(&mut out)?;
    Ok(out)
}
