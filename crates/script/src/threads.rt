//! The programs of the threads.
ghost use Rattle.std.specs.Prelude.{◌≤◌, map, length};
ghost use Rattle.serde_json.specs.View.{view};
ghost use Rattle.script.specs.Faults.{Gives};
ghost use Rattle.script.specs.Lists.{each};
ghost use Rattle.script.specs.Instructions.{instruction_at, thread_at};

use crate::fault::{Key, ScriptFault};
use crate::instruction::read_instruction;
use crate::keys::{item_path, items_of};
use places::Items;
use scenario::Instruction;
use serde_json::Value;
use std::alloc::Global;

fn read_instructions(
    alloc: Global,
    size: u32,
    thread: u32,
    items: &[Value],
) -> Result<Vec<Instruction>, ScriptFault>
    requires { length items.now ≤ 4096 }
    ensures { Gives (λ v. v.items) result
        (each (instruction_at size thread) 0 (map view items.now)) }
{
    let mut instructions = Vec::new(alloc);
    for (i, item) in items.iter().enumerate() {
        let instruction = read_instruction(alloc, size, thread, i as u32, item)?;
        if instructions.push(instruction).is_err() {
            return Err(ScriptFault::Memory);
        }
    }
    Ok(instructions)
}

fn read_thread(
    alloc: Global,
    size: u32,
    index: u32,
    value: &Value,
) -> Result<Items<Instruction>, ScriptFault>
    ensures { Gives (λ program. program) result (thread_at size index (view value.now)) }
{
    let path = item_path(Key::Threads, index);
    let items = items_of(value, path)?;
    if items.len() > 4096 {
        return Err(ScriptFault::Limit(path));
    }
    let instructions = read_instructions(alloc, size, index, items)?;
    Ok(Items::from_vec(instructions))
}

/// Reads the programs of a list, up to the first fault.
pub fn read_thread_list(
    alloc: Global,
    size: u32,
    items: &[Value],
) -> Result<Vec<Items<Instruction>>, ScriptFault>
    requires { length items.now ≤ 16 }
    ensures { Gives (λ v. v.items) result (each (thread_at size) 0 (map view items.now)) }
{
    let mut threads = Vec::new(alloc);
    for (i, item) in items.iter().enumerate() {
        let program = read_thread(alloc, size, i as u32, item)?;
        if threads.push(program).is_err() {
            return Err(ScriptFault::Memory);
        }
    }
    Ok(threads)
}
