//! The effect of an event that can conflict with other requests.
ghost use Rattle.std.specs.Prelude.{◌≡◌, option_copied};
ghost use Rattle.finding_rules.specs.{is_transfer, instruction_at, effect_of, finished_in, done_as};

use crate::conditions::Before;
use crate::requests::row_at;
use entries::Row;
use finding_kinds::instruction_at;
use machine::{Event, Instruction, Setup, State};
use opcodes::Op;

/// The effect of an event, as far as it can conflict with a READ or WRITE.
#[derive(Clone, Copy)]
pub enum Effect {
    Nothing,
    /// It stores bytes to memory: the first address, and how many.
    Stored(u64, u64),
    /// It completes a READ, WRITE or FSYNC: the request's number, and its row after the event.
    Finished(u32, Row),
}

fn effect_of(instruction: Option<&Instruction>) -> Effect
    ensures { result ≡ effect_of (option_copied instruction.entry) }
{
    match instruction {
        Some(Instruction::Store(address, bytes)) => {
            Effect::Stored(*address as u64, bytes.len() as u64)
        }
        _ => Effect::Nothing,
    }
}

/// Returns whether the request is a READ or WRITE.
pub(crate) fn is_transfer(row: &Row) -> bool
    ensures { result ≡ is_transfer row.now.entry.opcode }
{
    row.entry.opcode == Op::Read as u8 || row.entry.opcode == Op::Write as u8
}

/// Returns the effect of completing a request, by the state after it.
pub(crate) fn finished_in(state: &State, number: u32) -> Effect
    ensures { result ≡ finished_in state.now number }
{
    match row_at(state, number) {
        Some(row) if is_transfer(&row) || row.entry.opcode == Op::Fsync as u8 => {
            Effect::Finished(number, row)
        }
        _ => Effect::Nothing,
    }
}

/// Returns the effect of an event, by the state after it.
pub fn done_as(setup: &Setup, before: Before, event: Event, state: &State) -> Effect
    ensures { result ≡ done_as event (instruction_at setup.now event before.counter) state.now }
{
    match event {
        Event::Finish(number, _) => finished_in(state, number),
        _ => effect_of(instruction_at(setup, event, before.counter)),
    }
}
