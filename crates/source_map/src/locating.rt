//! Certifies the ranges of a script's items, and adds their lines and columns.
ghost use Rattle.std.specs.Prelude.{◌≡◌, ◌≤◌, IfOk, IfSome, length};
ghost use Rattle.script.specs.Events.{event_at};
ghost use Rattle.script.specs.Instructions.{instruction_at};
ghost use Rattle.source_map.specs.Maps.{AreItems, AreThreads, Maps};
ghost use Rattle.source_map.specs.Positions.{IsCursor, most_bytes, position_at};

use crate::certifying::{is_event, is_instruction};
use crate::cursor::{Cursor, MOST_BYTES, advance, text_start};
use crate::map::{Item, SourceMap};
use crate::scanning::{Spans, spans_of};
use crate::span::Span;
use places::Items;
use scenario::{Event, Instruction, ring_size};
use script::Script;
use std::alloc::{AllocError, Global};

/// The most threads of a script, and the most instructions of one.
const MOST_THREADS: usize = 16;

const MOST_INSTRUCTIONS: usize = 4096;

/// What is found in a text up to a cursor.
type Found<T> = Option<(T, Cursor)>;

// Returns a range with its positions, and the cursor after it. A range before the cursor has none.
fn locate(text: &[u8], cursor: Cursor, span: Span) -> Found<Item>
    requires cursor { IsCursor text.now cursor }
    requires most { length text.now ≤ most_bytes }
    ensures after { IfSome result (λ r. cursor.offset ≤ span.start) }
    ensures span { IfSome result (λ r. r.0.span ≡ span) }
    ensures start { IfSome result (λ r. r.0.start ≡ position_at text.now span.start) }
    ensures end { IfSome result (λ r. r.0.end ≡ position_at text.now span.end) }
    ensures cursor { IfSome result (λ r. IsCursor text.now r.1) }
    ensures offset { IfSome result (λ r. r.1.offset ≡ span.end) }
{
    if span.start < cursor.offset || span.end < span.start || text.len() < span.end {
        return None;
    }
    let start = advance(text, cursor, span.start);
    let end = advance(text, start, span.end);
    let item = Item {
        span,
        start: start.position,
        end: end.position,
    };
    Some((item, end))
}

fn locate_events(
    alloc: Global,
    text: &[u8],
    cursor: Cursor,
    spans: &[Span],
    events: &[Event],
) -> Result<Found<Items<Item>>, AllocError>
    requires cursor { IsCursor text.now cursor }
    requires most { length text.now ≤ most_bytes }
    requires events { length events.now ≤ 65536 }
    ensures items { IfOk result (λ found. IfSome found (λ r.
        AreItems event_at text.now 0 0 r.0 events.now)) }
    ensures cursor { IfOk result (λ found. IfSome found (λ r. IsCursor text.now r.1)) }
{
    if spans.len() != events.len() {
        return Ok(None);
    }
    let mut items = Vec::with_capacity(alloc, events.len())?;
    let mut cursor = cursor;
    for (i, event) in events.iter().enumerate() {
        let span = spans[i];
        if !is_event(alloc, text, span, i as u32, event)? {
            return Ok(None);
        }
        let Some((item, after)) = locate(text, cursor, span) else {
            return Ok(None);
        };
        items.push(item)?;
        cursor = after;
    }
    Ok(Some((Items::from_vec(items), cursor)))
}

fn locate_program(
    alloc: Global,
    text: &[u8],
    cursor: Cursor,
    size: u32,
    thread: u32,
    spans: &[Span],
    program: &[Instruction],
) -> Result<Found<Items<Item>>, AllocError>
    requires cursor { IsCursor text.now cursor }
    requires most { length text.now ≤ most_bytes }
    ensures items { IfOk result (λ found. IfSome found (λ r.
        AreItems (instruction_at size thread) text.now 0 0 r.0 program.now)) }
    ensures cursor { IfOk result (λ found. IfSome found (λ r. IsCursor text.now r.1)) }
{
    if spans.len() != program.len() || program.len() > MOST_INSTRUCTIONS {
        return Ok(None);
    }
    let mut items = Vec::with_capacity(alloc, program.len())?;
    let mut cursor = cursor;
    for (i, instruction) in program.iter().enumerate() {
        let span = spans[i];
        if !is_instruction(alloc, text, span, size, thread, i as u32, instruction)? {
            return Ok(None);
        }
        let Some((item, after)) = locate(text, cursor, span) else {
            return Ok(None);
        };
        items.push(item)?;
        cursor = after;
    }
    Ok(Some((Items::from_vec(items), cursor)))
}

fn locate_threads(
    alloc: Global,
    text: &[u8],
    cursor: Cursor,
    size: u32,
    spans: &[Items<Span>],
    threads: &[Items<Instruction>],
) -> Result<Found<Items<Items<Item>>>, AllocError>
    requires cursor { IsCursor text.now cursor }
    requires most { length text.now ≤ most_bytes }
    ensures items { IfOk result (λ found. IfSome found (λ r.
        AreThreads size text.now 0 r.0 threads.now)) }
    ensures cursor { IfOk result (λ found. IfSome found (λ r. IsCursor text.now r.1)) }
{
    if spans.len() != threads.len() || threads.len() > MOST_THREADS {
        return Ok(None);
    }
    let mut located = Vec::with_capacity(alloc, threads.len())?;
    let mut cursor = cursor;
    for (i, program) in threads.iter().enumerate() {
        let spans = spans[i].as_slice();
        let program = program.as_slice();
        let Some((items, after)) = locate_program(
            alloc, text, cursor, size, i as u32, spans, program,
        )?
        else {
            return Ok(None);
        };
        located.push(items)?;
        cursor = after;
    }
    Ok(Some((Items::from_vec(located), cursor)))
}

// Returns whether the first of some ranges is before the first of others.
fn is_before(ranges: &[Span], others: &[Span]) -> bool {
    match (ranges.first(), others.first()) {
        (Some(range), Some(other)) => range.start < other.start,
        _ => false,
    }
}

// Locates the schedule, and the threads after it.
fn locate_schedule_first(
    alloc: Global,
    text: &[u8],
    spans: &Spans,
    script: &Script,
) -> Result<Option<SourceMap>, AllocError>
    requires { length text.now ≤ most_bytes }
    ensures { IfOk result (λ found. IfSome found (λ map. Maps text.now script.now map)) }
{
    let start = text_start(text);
    let Some((schedule, after)) = locate_events(
        alloc,
        text,
        start,
        &spans.schedule,
        script.schedule(),
    )?
    else {
        return Ok(None);
    };
    let setup = script.setup();
    let size = ring_size(setup.entries);
    match locate_threads(
        alloc,
        text,
        after,
        size,
        &spans.threads,
        setup.threads.as_slice(),
    )? {
        Some((threads, _)) => Ok(Some(SourceMap { threads, schedule })),
        None => Ok(None),
    }
}

// Locates the threads, and the schedule after them.
fn locate_threads_first(
    alloc: Global,
    text: &[u8],
    spans: &Spans,
    script: &Script,
) -> Result<Option<SourceMap>, AllocError>
    requires { length text.now ≤ most_bytes }
    ensures { IfOk result (λ found. IfSome found (λ map. Maps text.now script.now map)) }
{
    let setup = script.setup();
    let size = ring_size(setup.entries);
    let start = text_start(text);
    let Some((threads, after)) = locate_threads(
        alloc,
        text,
        start,
        size,
        &spans.threads,
        setup.threads.as_slice(),
    )?
    else {
        return Ok(None);
    };
    match locate_events(alloc, text, after, &spans.schedule, script.schedule())? {
        Some((schedule, _)) => Ok(Some(SourceMap { threads, schedule })),
        None => Ok(None),
    }
}

/// Returns where the items of a script are in its text, or `None` if a range doesn't read as its
/// item. That happens only if the text isn't the script's.
pub fn source_map(
    alloc: Global,
    text: &[u8],
    script: &Script,
) -> Result<Option<SourceMap>, AllocError>
    ensures { IfOk result (λ found. IfSome found (λ map. Maps text.now script.now map)) }
{
    if text.len() > MOST_BYTES {
        return Ok(None);
    }
    let spans = spans_of(alloc, text)?;
    if is_before(&spans.schedule, &spans.programs) {
        locate_schedule_first(alloc, text, &spans, script)
    } else {
        locate_threads_first(alloc, text, &spans, script)
    }
}
