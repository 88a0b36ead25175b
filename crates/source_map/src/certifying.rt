//! Reads ranges of a text, and compares them with the items that they should be.
ghost use Rattle.std.specs.Prelude.{◌≡◌, IfOk, IfSome, IsTrue, Some, ℕ};
ghost use Rattle.serde_json.specs.Read.{read};
ghost use Rattle.serde_json.specs.View.{view};
ghost use Rattle.script.specs.Events.{event_at};
ghost use Rattle.script.specs.Instructions.{instruction_at};
ghost use Rattle.source_map.specs.Maps.{IsRange, ReadsAt};

use crate::puts::spells_put;
use crate::span::Span;
use crate::spelling::range_of;
use crate::words::{spells_event, spells_instruction};
use scenario::{Event, Instruction};
use script::ScriptFault;
use script::items::{read_event, read_instruction};
use serde_json::Value;
use std::alloc::{AllocError, Global};

/// Returns the value that a text reads as.
pub(crate) fn value_of(alloc: Global, text: &[u8]) -> Result<Option<Value>, AllocError>
    ensures { IfOk result (λ found. IfSome found (λ v. read text.now ≡ Some (view v))) }
{
    match Value::from_slice(alloc, text) {
        Ok(value) => Ok(Some(value)),
        Err(error) => {
            if error.is_memory() {
                Err(AllocError)
            } else {
                Ok(None)
            }
        }
    }
}

// Returns the value that a range reads as.
fn value_at(alloc: Global, text: &[u8], span: Span) -> Result<Option<Value>, AllocError>
    ensures { IfOk result (λ found. IfSome found (λ v. ReadsAt text.now span (view v))) }
{
    match range_of(text, span) {
        Some(range) => value_of(alloc, range),
        None => Ok(None),
    }
}

// Returns whether a range is an instruction, written as most programs write it.
fn spells(text: &[u8], span: Span, size: u32, instruction: &Instruction) -> bool
    ensures { IsTrue result → (thread index : ℕ)
        → IsRange (instruction_at size thread) text.now span index instruction.now }
{
    match instruction {
        Instruction::Put(slot, entry) => spells_put(text, span, size, *slot, entry),
        _ => spells_instruction(text, span, instruction),
    }
}

fn are_same(one: &Event, other: &Event) -> bool
    ensures { IsTrue result → one.now ≡ other.now }
{
    one == other
}

/// Returns whether a range reads as an event.
pub(crate) fn is_event(
    alloc: Global,
    text: &[u8],
    span: Span,
    index: u32,
    event: &Event,
) -> Result<bool, AllocError>
    ensures { IfOk result (λ yes. IsTrue yes → IsRange event_at text.now span index event.now) }
{
    if spells_event(text, span, event) {
        return Ok(true);
    }
    let Some(value) = value_at(alloc, text, span)? else {
        return Ok(false);
    };
    match read_event(index, &value) {
        Ok(found) => Ok(are_same(&found, event)),
        Err(_) => Ok(false),
    }
}

/// Returns whether a range reads as an instruction of a thread. The submission ring has `size`
/// slots.
pub(crate) fn is_instruction(
    alloc: Global,
    text: &[u8],
    span: Span,
    size: u32,
    thread: u32,
    index: u32,
    instruction: &Instruction,
) -> Result<bool, AllocError>
    ensures { IfOk result (λ yes. IsTrue yes
        → IsRange (instruction_at size thread) text.now span index instruction.now) }
{
    if spells(text, span, size, instruction) {
        return Ok(true);
    }
    let Some(value) = value_at(alloc, text, span)? else {
        return Ok(false);
    };
    match read_instruction(alloc, size, thread, index, &value) {
        Ok(found) => Ok(found.equals(instruction)),
        Err(ScriptFault::Memory) => Err(AllocError),
        Err(_) => Ok(false),
    }
}
