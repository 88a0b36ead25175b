//! Builds the rows and the programs in the data of a page.

use crate::parts::RowPart;
use entries::{IOSQE_IO_DRAIN, Phase, Row, Sqe};
use machine::Instruction;
use occupancy::Stamps;
use sentences::{Counted, opcode_name};
use std::alloc::{AllocError, Global};

/// Returns the kernel's name of an opcode, modelled or not, or `unknown`.
pub(crate) fn name_of(opcode: u8) -> &'static str {
    opcode_name(opcode).unwrap_or("unknown")
}

/// Returns the result of a row that has completed.
pub(crate) fn result_of(phase: Phase) -> Option<i32> {
    match phase {
        Phase::Ended(result) => Some(result),
        Phase::Queued | Phase::Issued => None,
    }
}

fn text(alloc: Global, number: u64) -> Result<String, AllocError> {
    format!(in alloc; "{number}")
}

fn deadline_text(alloc: Global, deadline: Option<u128>) -> Result<Option<String>, AllocError> {
    match deadline {
        Some(deadline) => Ok(Some(format!(in alloc; "{deadline}")?)),
        None => Ok(None),
    }
}

/// Returns whether a chain drains, by the rows of a run: whether a row of it has IOSQE_IO_DRAIN, even
/// one that has completed.
pub(crate) fn drains(rows: &[Row], unit: u32) -> bool {
    let Some(rest) = rows.get(unit as usize..) else {
        return false;
    };
    for row in rest {
        if row.unit != unit {
            return false;
        }
        if row.entry.flags & IOSQE_IO_DRAIN != 0 {
            return true;
        }
    }
    false
}

/// Returns a row with its number and its moments, given whether its chain drains.
pub(crate) fn row_part(
    alloc: Global,
    number: u32,
    row: &Row,
    drains: bool,
    stamps: Stamps,
) -> Result<RowPart, AllocError> {
    Ok(RowPart {
        row: number,
        name: name_of(row.entry.opcode),
        op: row.entry.opcode,
        flags: row.entry.flags,
        fd: row.entry.fd,
        off: text(alloc, row.entry.off)?,
        addr: text(alloc, row.entry.addr)?,
        len: row.entry.len,
        opflags: row.entry.operation_flags,
        user: text(alloc, row.entry.user_data)?,
        unit: row.unit,
        drains,
        target: row.target,
        deadline: deadline_text(alloc, row.deadline)?,
        base: row.base,
        queued: stamps.queued,
        issued: stamps.issued,
        ended: stamps.ended,
        result: result_of(row.phase),
    })
}

fn put_text(alloc: Global, slot: u32, entry: &Sqe) -> Result<String, AllocError> {
    let name = name_of(entry.opcode);
    let user = entry.user_data;
    format!(in alloc; "put {slot} {name} ud {user}")
}

/// Returns an instruction in the words of a script, without the bytes of a store.
pub(crate) fn instruction_text(
    alloc: Global,
    instruction: &Instruction,
) -> Result<String, AllocError> {
    match instruction {
        Instruction::Put(slot, entry) => put_text(alloc, *slot, entry),
        Instruction::Push(slot) => format!(in alloc; "push {slot}"),
        Instruction::Store(address, bytes) => {
            let bytes = Counted::bytes(bytes.len() as u64);
            format!(in alloc; "store {address} ({bytes})")
        }
        Instruction::Enter {
            to_submit,
            min_complete,
            flags,
        } => format!(in alloc; "enter {to_submit} {min_complete} {flags}"),
        Instruction::Reap => format!(in alloc; "reap"),
        Instruction::Close(fd) => format!(in alloc; "close {fd}"),
    }
}

/// Returns the instructions of a thread's program as texts.
pub(crate) fn program_part(
    alloc: Global,
    program: &[Instruction],
) -> Result<Vec<String>, AllocError> {
    let mut texts = Vec::new(alloc);
    for instruction in program {
        texts.push(instruction_text(alloc, instruction)?)?;
    }
    Ok(texts)
}
