//! Reads the programs of a setup's threads.
ghost use Rattle.std.specs.Prelude.{◌≡◌, ◌+◌, length, []};
ghost use Rattle.entries.specs.Layout.{entry_of_bytes};
ghost use Rattle.scenario.specs.declared.setup.Instruction.{Instruction};
ghost use Rattle.traces.specs.Cursors.{at_offset};
ghost use Rattle.traces.specs.Reading.{Gives, put_at, push_at, store_at, enter_at, close_at, instruction_of, instruction_at, program_at, items_at, list_at};

use crate::fault::TraceFault;
use crate::offsets::{bytes_at, count_at, rest_of, u8_within, u32_at, u32_below};
use entries::Sqe;
use places::Items;
use scenario::Instruction;
use std::alloc::Global;

fn entry_of(bytes: &[u8]) -> Sqe
    requires { length bytes.now ≡ 64 }
    ensures { result ≡ entry_of_bytes bytes.now }
{
    let mut entry = [0; 64];
    entry.copy_from_slice(bytes);
    Sqe::read(&entry)
}

#[tactic(auto, unfolding(crate::specs::Reading::put_at))]
fn read_put(bytes: &[u8], offset: usize, slots: u32) -> Result<(Instruction, usize), TraceFault>
    ensures { Gives (λ x. (x.0, at_offset bytes.now x.1)) result
        (put_at slots (at_offset bytes.now offset)) }
{
    let (slot, after) = u32_below(bytes, offset, slots)?;
    let (entry, after) = bytes_at(bytes, after, 64)?;
    Ok((Instruction::Put(slot, entry_of(entry)), after))
}

#[tactic(auto, unfolding(crate::specs::Reading::push_at))]
fn read_push(bytes: &[u8], offset: usize) -> Result<(Instruction, usize), TraceFault>
    ensures { Gives (λ x. (x.0, at_offset bytes.now x.1)) result
        (push_at (at_offset bytes.now offset)) }
{
    let (index, after) = u32_at(bytes, offset)?;
    Ok((Instruction::Push(index), after))
}

#[tactic(auto, unfolding(crate::specs::Reading::store_at))]
fn read_store(
    alloc: Global,
    bytes: &[u8],
    offset: usize,
) -> Result<(Instruction, usize), TraceFault>
    ensures { Gives (λ x. (x.0, at_offset bytes.now x.1)) result
        (store_at (at_offset bytes.now offset)) }
{
    let (address, after) = u32_at(bytes, offset)?;
    let (count, after) = count_at(bytes, after, 4096)?;
    if u64::from(address) + u64::from(count) > 65536 {
        return Err(TraceFault::Setup(offset));
    }
    let (items, after) = bytes_at(bytes, after, count as usize)?;
    let items = Vec::from_slice(alloc, items)?;
    Ok((Instruction::Store(address, Items::from_vec(items)), after))
}

#[tactic(auto, unfolding(crate::specs::Reading::enter_at))]
fn read_enter(bytes: &[u8], offset: usize) -> Result<(Instruction, usize), TraceFault>
    ensures { Gives (λ x. (x.0, at_offset bytes.now x.1)) result
        (enter_at (at_offset bytes.now offset)) }
{
    let (to_submit, after) = u32_at(bytes, offset)?;
    let (min_complete, after) = u32_at(bytes, after)?;
    let (flags, after) = u32_at(bytes, after)?;
    let enter = Instruction::Enter {
        to_submit,
        min_complete,
        flags,
    };
    Ok((enter, after))
}

#[tactic(auto, unfolding(crate::specs::Reading::close_at))]
fn read_close(bytes: &[u8], offset: usize) -> Result<(Instruction, usize), TraceFault>
    ensures { Gives (λ x. (x.0, at_offset bytes.now x.1)) result
        (close_at (at_offset bytes.now offset)) }
{
    let (fd, after) = u32_at(bytes, offset)?;
    Ok((Instruction::Close(fd.cast_signed()), after))
}

#[tactic(auto, unfolding(crate::specs::Reading::instruction_of))]
fn read_instruction_of(
    alloc: Global,
    kind: u8,
    slots: u32,
    bytes: &[u8],
    offset: usize,
) -> Result<(Instruction, usize), TraceFault>
    ensures { Gives (λ x. (x.0, at_offset bytes.now x.1)) result
        (instruction_of slots kind (at_offset bytes.now offset)) }
{
    match kind {
        1 => read_put(bytes, offset, slots),
        2 => read_push(bytes, offset),
        3 => read_store(alloc, bytes, offset),
        4 => read_enter(bytes, offset),
        5 => Ok((Instruction::Reap, offset)),
        _ => read_close(bytes, offset),
    }
}

#[tactic(auto, unfolding(crate::specs::Reading::instruction_at))]
fn read_instruction(
    alloc: Global,
    slots: u32,
    bytes: &[u8],
    offset: usize,
) -> Result<(Instruction, usize), TraceFault>
    ensures { Gives (λ x. (x.0, at_offset bytes.now x.1)) result
        (instruction_at slots (at_offset bytes.now offset)) }
{
    let (kind, after) = u8_within(bytes, offset, 1, 6)?;
    read_instruction_of(alloc, kind, slots, bytes, after)
}

fn read_instructions(
    alloc: Global,
    count: u32,
    slots: u32,
    bytes: &[u8],
    offset: usize,
) -> Result<(Vec<Instruction>, usize), TraceFault>
    ensures { Gives (λ x. (x.0.items, at_offset bytes.now x.1)) result
        (items_at (λ before. instruction_at slots) count [] (at_offset bytes.now offset)) }
{
    // An instruction has at least one byte.
    let room = rest_of(bytes, offset).len();
    let mut program = Vec::with_capacity(alloc, room.min(count as usize))?;
    let mut at = offset;
    for _ in 0..count {
        let (instruction, after) = read_instruction(alloc, slots, bytes, at)?;
        program.push(instruction)?;
        at = after;
    }
    Ok((program, at))
}

#[tactic(auto, unfolding(crate::specs::Reading::program_at, crate::specs::Reading::list_at))]
fn read_program(
    alloc: Global,
    slots: u32,
    bytes: &[u8],
    offset: usize,
) -> Result<(Items<Instruction>, usize), TraceFault>
    ensures { Gives (λ x. (x.0, at_offset bytes.now x.1)) result
        (program_at slots (at_offset bytes.now offset)) }
{
    let (count, after) = count_at(bytes, offset, 4096)?;
    let (program, after) = read_instructions(alloc, count, slots, bytes, after)?;
    Ok((Items::from_vec(program), after))
}

fn read_programs(
    alloc: Global,
    count: u32,
    slots: u32,
    bytes: &[u8],
    offset: usize,
) -> Result<(Vec<Items<Instruction>>, usize), TraceFault>
    ensures { Gives (λ x. (x.0.items, at_offset bytes.now x.1)) result
        (items_at (λ before. program_at slots) count [] (at_offset bytes.now offset)) }
{
    let mut programs = Vec::new(alloc);
    let mut at = offset;
    for _ in 0..count {
        let (program, after) = read_program(alloc, slots, bytes, at)?;
        programs.push(program)?;
        at = after;
    }
    Ok((programs, at))
}

/// Reads the threads' programs. The submission ring has `slots` slots.
#[tactic(auto, unfolding(crate::specs::Reading::list_at))]
pub(crate) fn read_threads(
    alloc: Global,
    slots: u32,
    bytes: &[u8],
    offset: usize,
) -> Result<(Items<Items<Instruction>>, usize), TraceFault>
    ensures { Gives (λ x. (x.0, at_offset bytes.now x.1)) result
        (list_at 16 (λ before. program_at slots) (at_offset bytes.now offset)) }
{
    let (count, after) = count_at(bytes, offset, 16)?;
    let (programs, after) = read_programs(alloc, count, slots, bytes, after)?;
    Ok((Items::from_vec(programs), after))
}
