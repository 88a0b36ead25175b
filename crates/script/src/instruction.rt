//! The instructions of a thread.
ghost use Rattle.std.specs.Prelude.{◌≡◌, map};
ghost use Rattle.serde_json.specs.View.{view};
ghost use Rattle.script.specs.Faults.{Gives, shaped};
ghost use Rattle.script.specs.Numbers.{below};
ghost use Rattle.script.specs.Instructions.{instruction_by, store_by, instruction_words, instruction_form, keeps_limits, instruction_in_range, instruction_at};

use crate::entry::{EntryForm, entry_form, entry_in_range};
use crate::fault::{Key, Path, ScriptFault};
use crate::keys::inner_path;
use crate::memory::{placed, read_bytes};
use crate::number::{Whole, signed_word, whole_of, word};
use places::Items;
use scenario::Instruction;
use serde_json::Value;
use std::alloc::Global;

/// An instruction, before its limits and ranges are checked.
#[derive(Drop)]
pub enum InstructionForm {
    Put(Whole, EntryForm),
    Push(Whole),
    Store(Whole, Items<u8>),
    Enter(Whole, Whole, Whole),
    Reap,
    Close(Whole),
}

// Returns the instruction by its word and the items after it.
fn instruction_by(word: &str, rest: &[Value]) -> Option<InstructionForm>
    ensures { result ≡ instruction_by word.now (map view rest.now) }
{
    match rest {
        [] => match word {
            "reap" => Some(InstructionForm::Reap),
            _ => None,
        },
        [n] => match word {
            "push" => Some(InstructionForm::Push(whole_of(n)?)),
            "close" => Some(InstructionForm::Close(whole_of(n)?)),
            _ => None,
        },
        [slot, entry] => match word {
            "put" => Some(InstructionForm::Put(whole_of(slot)?, entry_form(entry)?)),
            _ => None,
        },
        [to_submit, min_complete, flags] => match word {
            "enter" => Some(InstructionForm::Enter(
                whole_of(to_submit)?,
                whole_of(min_complete)?,
                whole_of(flags)?,
            )),
            _ => None,
        },
        _ => None,
    }
}

// Returns a store by the items after its word.
fn store_by(alloc: Global, path: Path, rest: &[Value]) -> Result<InstructionForm, ScriptFault>
    ensures { Gives (λ form. form) result (shaped path (store_by (map view rest.now))) }
{
    let [address, text] = rest else {
        return Err(ScriptFault::Shape(path));
    };
    let Some(address) = whole_of(address) else {
        return Err(ScriptFault::Shape(path));
    };
    let bytes = read_bytes(alloc, path, text)?;
    Ok(InstructionForm::Store(address, bytes))
}

fn instruction_words(
    alloc: Global,
    path: Path,
    items: &[Value],
) -> Result<InstructionForm, ScriptFault>
    ensures { Gives (λ form. form) result (shaped path (instruction_words (map view items.now))) }
{
    let [first, rest @ ..] = items else {
        return Err(ScriptFault::Shape(path));
    };
    let Some(word) = first.as_str() else {
        return Err(ScriptFault::Shape(path));
    };
    if word == "store" {
        return store_by(alloc, path, rest);
    }
    instruction_by(word, rest).ok_or(ScriptFault::Shape(path))
}

fn instruction_form(
    alloc: Global,
    path: Path,
    value: &Value,
) -> Result<InstructionForm, ScriptFault>
    ensures { Gives (λ form. form) result (shaped path (instruction_form (view value.now))) }
{
    match value.as_array() {
        Some(items) => instruction_words(alloc, path, items),
        None => Err(ScriptFault::Shape(path)),
    }
}

fn keeps_limits(form: &InstructionForm) -> bool
    ensures { result ≡ keeps_limits form.now }
{
    match form {
        InstructionForm::Store(_, bytes) => bytes.len() <= 4096,
        _ => true,
    }
}

// Returns the slot if a ring of this size has it.
fn slot_below(size: u32, slot: Whole) -> Option<u32>
    ensures { result ≡ below size slot }
{
    match slot {
        Whole::Natural(n) => if n < u64::from(size) {
            Some(n as u32)
        } else {
            None
        },
        Whole::Negative(_) => None,
    }
}

fn instruction_in_range(size: u32, form: InstructionForm) -> Option<Instruction>
    ensures { result ≡ instruction_in_range size form }
{
    match form {
        InstructionForm::Put(slot, entry) => Some(Instruction::Put(
            slot_below(size, slot)?,
            entry_in_range(&entry)?,
        )),
        InstructionForm::Push(index) => Some(Instruction::Push(word(index)?)),
        InstructionForm::Store(address, bytes) => {
            Some(Instruction::Store(placed(&bytes, address)?, bytes))
        }
        InstructionForm::Enter(to_submit, min_complete, flags) => Some(Instruction::Enter {
            to_submit: word(to_submit)?,
            min_complete: word(min_complete)?,
            flags: word(flags)?,
        }),
        InstructionForm::Reap => Some(Instruction::Reap),
        InstructionForm::Close(fd) => Some(Instruction::Close(signed_word(fd)?)),
    }
}

/// Reads an instruction of a thread. The submission ring has `size` slots.
pub fn read_instruction(
    alloc: Global,
    size: u32,
    thread: u32,
    index: u32,
    value: &Value,
) -> Result<Instruction, ScriptFault>
    ensures { Gives (λ instruction. instruction) result
        (instruction_at size thread index (view value.now)) }
{
    let path = inner_path(Key::Threads, thread, index);
    let form = instruction_form(alloc, path, value)?;
    if !keeps_limits(&form) {
        return Err(ScriptFault::Limit(path));
    }
    match instruction_in_range(size, form) {
        Some(instruction) => Ok(instruction),
        None => Err(ScriptFault::Range(path)),
    }
}
