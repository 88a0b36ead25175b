//! Frames: what a thread does next.
ghost use Rattle.std.specs.Prelude.{◌≡◌, ◌-◌, ◌<◌, ◌≤◌, ◌^◌, IfOk, IfSome, length, option_map};
ghost use Rattle.std.specs.List.{position};
ghost use Rattle.std.specs.Option.{option_copied};
ghost use Rattle.places.specs.declared.place.Place.TheVariants.{ProgramCounter};
ghost use Rattle.machine.specs.Whole.{view};
ghost use Rattle.stops.specs.StopPoints.{is_event_of};
ghost use Rattle.dap_views.specs.Frames.{event_name, event_range, frame_at, frame_of, instruction_at, instruction_name, instruction_range, instruction_text, item_range, line_range, next_event, no_event, number_in};

use dap_variables::bytes_of;
use inverse_log::Walker;
use machine::{Event, Instruction, Setup, State};
use places::{Items, Place, Value};
use script::EventText;
use source_map::{Item, Position, SourceMap};
use std::alloc::{AllocError, Global};
use stops::{EditorThread, is_event_of};

/// How many events after the position a frame considers. The limit bounds its cost.
const AHEAD: usize = 16384;

/// The lines and columns of what a thread does next, both from 1. A trace has no columns.
#[derive(Clone, Copy)]
pub struct SourceRange {
    pub start: Position,
    /// The position after it.
    pub end: Option<Position>,
}

/// What a thread does next.
#[derive(Drop)]
pub struct Frame {
    pub thread: EditorThread,
    /// The instruction or the event.
    pub name: Items<u8>,
    /// The position in the run.
    pub moment: usize,
    pub range: Option<SourceRange>,
}

fn instruction_text(alloc: Global, instruction: &Instruction) -> Result<Items<u8>, AllocError>
    ensures { IfOk result (λ text. text ≡ instruction_text instruction.now) }
{
    let text = match instruction {
        Instruction::Put(slot, entry) => {
            let opcode = entry.opcode;
            format!(in alloc; "put {slot} op {opcode}")?
        }
        Instruction::Push(index) => format!(in alloc; "push {index}")?,
        Instruction::Store(address, _) => format!(in alloc; "store {address}")?,
        Instruction::Enter {
            to_submit,
            min_complete,
            flags,
        } => format!(in alloc; "enter {to_submit} {min_complete} {flags}")?,
        Instruction::Reap => format!(in alloc; "reap")?,
        Instruction::Close(fd) => format!(in alloc; "close {fd}")?,
    };
    Ok(Items::from_vec(text.into_bytes()))
}

// Returns the index of a thread's next instruction.
fn counter_of(state: &State, thread: u32) -> Option<usize>
    ensures { result ≡ number_in (view state.now (ProgramCounter thread)) }
{
    match state.value(Place::ProgramCounter(thread)) {
        Some(Value::Number(counter)) => Some(counter as usize),
        _ => None,
    }
}

fn instruction_at(setup: &Setup, thread: u32, index: usize) -> Option<&Instruction>
    ensures { option_copied result ≡ instruction_at setup.now thread index }
{
    match setup.threads.as_slice().get(thread as usize) {
        Some(program) => program.as_slice().get(index),
        None => None,
    }
}

// Returns the name of a thread's next instruction.
fn instruction_name(
    alloc: Global,
    setup: &Setup,
    thread: u32,
    counter: Option<usize>,
) -> Result<Items<u8>, AllocError>
    ensures { IfOk result (λ text. text ≡ instruction_name setup.now thread counter) }
{
    let Some(index) = counter else {
        return Ok(Items::new(alloc));
    };
    match instruction_at(setup, thread, index) {
        Some(instruction) => instruction_text(alloc, instruction),
        None => bytes_of(alloc, "end"),
    }
}

// Returns the index of the first event of a thread.
fn first_event(events: &[Event], thread: EditorThread) -> Option<usize>
    ensures value { result ≡ position (is_event_of thread) events.now }
    ensures within { IfSome result (λ i. i < length events.now) }
{
    events.iter().position(|event| is_event_of(thread, *event))
}

// Returns the index of the next event of a thread.
fn next_event(events: &[Event], thread: EditorThread, at: usize) -> Option<usize>
    requires { at ≤ length events.now }
    ensures value { result ≡ next_event events.now thread at }
    ensures within { IfSome result (λ i. i < length events.now) }
{
    let after = &events[at..];
    match first_event(&after[..AHEAD.min(after.len())], thread) {
        Some(index) => Some(at + index),
        None => None,
    }
}

// Returns the name of a frame without an event. There may be one after those that it considers.
fn no_event(alloc: Global, events: &[Event], at: usize) -> Result<Items<u8>, AllocError>
    ensures { IfOk result (λ text. text ≡ no_event events.now at) }
{
    if events.len().saturating_sub(at) <= AHEAD {
        bytes_of(alloc, "no event")
    } else {
        bytes_of(alloc, "no event in the next 16384")
    }
}

fn event_name(
    alloc: Global,
    events: &[Event],
    at: usize,
    index: Option<usize>,
) -> Result<Items<u8>, AllocError>
    ensures { IfOk result (λ text. text ≡ event_name events.now at index) }
{
    let event = match index {
        Some(index) => events.get(index).copied(),
        None => None,
    };
    match event {
        Some(event) => {
            let text = format!(in alloc; "{}", EventText(event))?;
            Ok(Items::from_vec(text.into_bytes()))
        }
        None => no_event(alloc, events, at),
    }
}

fn item_range(item: Item) -> SourceRange
    ensures { result ≡ item_range item }
{
    SourceRange {
        start: item.start,
        end: Some(item.end),
    }
}

// Returns the line of an event in the log: event 0 is on line 1.
fn line_range(index: usize) -> SourceRange
    requires { index < 2 ^ 64 - 1 }
    ensures { result ≡ line_range index }
{
    SourceRange {
        start: Position {
            line: index + 1,
            column: 1,
        },
        end: None,
    }
}

// Returns where an event is: in the script, or without one on its line of the log.
fn event_range(map: Option<&SourceMap>, index: Option<usize>) -> Option<SourceRange>
    requires { IfSome index (λ i. i < 2 ^ 64 - 1) }
    ensures { result ≡ event_range (option_map (λ m. m.now) map.entry) index }
{
    let index = index?;
    match map {
        Some(map) => map.event(index).map(item_range),
        None => Some(line_range(index)),
    }
}

// Returns where the next instruction of a thread is, or without a script its next event.
fn instruction_range(
    map: Option<&SourceMap>,
    thread: u32,
    counter: Option<usize>,
    event: Option<usize>,
) -> Option<SourceRange>
    requires { IfSome event (λ i. i < 2 ^ 64 - 1) }
    ensures { result
        ≡ instruction_range (option_map (λ m. m.now) map.entry) thread counter event }
{
    match map {
        Some(map) => map.instruction(thread as usize, counter?).map(item_range),
        None => Some(line_range(event?)),
    }
}

/// Returns the frame of an instruction of a thread. Without a map it has no source.
#[tactic(auto, unfolding(crate::specs::Frames::frame_at))]
pub fn frame_at(
    alloc: Global,
    walker: &Walker,
    thread: u32,
    index: usize,
    map: Option<&SourceMap>,
) -> Result<Frame, AllocError>
    ensures { IfOk result (λ frame. frame
        ≡ frame_at walker.now thread index (option_map (λ m. m.now) map.entry)) }
{
    Ok(Frame {
        thread: EditorThread::Thread(thread),
        name: instruction_name(alloc, walker.setup(), thread, Some(index))?,
        moment: walker.at(),
        range: instruction_range(map, thread, Some(index), None),
    })
}

/// Returns the frame of a thread. Without a map, the source has a line for each event.
#[tactic(auto, unfolding(crate::specs::Frames::frame_of))]
pub fn frame_of(
    alloc: Global,
    walker: &Walker,
    thread: EditorThread,
    map: Option<&SourceMap>,
) -> Result<Frame, AllocError>
    ensures { IfOk result (λ frame. frame
        ≡ frame_of walker.now thread (option_map (λ m. m.now) map.entry)) }
{
    let (at, setup) = (walker.at(), walker.setup());
    let _len = walker.len();
    let next = next_event(walker.events(), thread, at);
    let EditorThread::Thread(number) = thread else {
        return Ok(Frame {
            thread,
            name: event_name(alloc, walker.events(), at, next)?,
            moment: at,
            range: event_range(map, next),
        });
    };
    let counter = counter_of(walker.state(), number);
    Ok(Frame {
        thread,
        name: instruction_name(alloc, setup, number, counter)?,
        moment: at,
        range: instruction_range(map, number, counter, next),
    })
}
