//! Requests that fail in every run, whatever its schedule.
ghost use Rattle.std.specs.Prelude.{◌≡◌, All, IfOk, IfSome, OnOk, Some, slice_get};
ghost use Rattle.script_check.specs.SureFailures.{IsOfPut};

use crate::further::MOST_FAULTS;
use machine::{Instruction, Setup, ring_size};
use opcodes::uses_descriptor;
use places::Descriptor;
use sentences::{Unmodelled, is_modelled};
use std::alloc::{AllocError, Global};
use std::fmt;

/// The number of the first descriptor of a setup.
const FIRST_DESCRIPTOR: i64 = 3;

/// Why a request fails in every run.
#[derive(Clone, Copy)]
enum Cause {
    /// Its opcode isn't modelled (EINVAL).
    Opcode(u8),
    /// The setup has no such descriptor (EBADF).
    Descriptor(i32),
}

/// An instruction that puts an entry whose request fails in every run.
#[derive(Clone, Copy)]
pub struct SureFailure {
    pub thread: u32,
    /// The index of the instruction in its thread's program.
    pub instruction: u32,
    cause: Cause,
}

impl fmt::Display for SureFailure {
    fn fmt<W: fmt::Write>(&self, f: &mut fmt::Formatter<W>) -> fmt::Result {
        let SureFailure {
            thread,
            instruction,
            cause,
        } = self;
        write!(
            f,
            "row of instruction {instruction} of thread {thread} fails: "
        )?;
        match cause {
            Cause::Opcode(opcode) => {
                let unmodelled = Unmodelled(*opcode);
                write!(f, "{unmodelled}")
            }
            Cause::Descriptor(fd) => write!(f, "descriptor {fd} isn't in the setup"),
        }
    }
}

// Returns whether the setup has a descriptor of this number, open or closed.
fn has_descriptor(fds: &[Descriptor], fd: i32) -> bool {
    let index = i64::from(fd) - FIRST_DESCRIPTOR;
    index >= 0 && index < fds.len() as i64
}

// Returns why the request of an entry fails in every run, if it does.
fn cause_of(fds: &[Descriptor], opcode: u8, fd: i32) -> Option<Cause> {
    if !is_modelled(opcode) {
        return Some(Cause::Opcode(opcode));
    }
    if uses_descriptor(opcode) && !has_descriptor(fds, fd) {
        return Some(Cause::Descriptor(fd));
    }
    None
}

// Marks the slots into which this thread and another one put entries. `writers` has the last thread
// that did for each slot.
fn mark_shared(
    program: &[Instruction],
    thread: u32,
    writers: &mut [Option<u32>],
    is_shared: &mut [bool],
) {
    for instruction in program {
        if let Instruction::Put(slot, _) = instruction {
            let slot = *slot as usize;
            if let (Some(writer), Some(mark)) = (writers.get_mut(slot), is_shared.get_mut(slot)) {
                *mark = *mark || writer.is_some() && *writer != Some(thread);
                *writer = Some(thread);
            }
        }
    }
}

// Returns, for each slot, whether several threads put entries into it.
fn shared_slots(alloc: Global, setup: &Setup) -> Result<Vec<bool>, AllocError> {
    let count = ring_size(setup.entries) as usize;
    let mut writers = Vec::from_elem(alloc, None, count)?;
    let mut is_shared = Vec::from_elem(alloc, false, count)?;
    for (thread, program) in setup.threads.as_slice().iter().enumerate() {
        let thread = u32::try_from(thread).unwrap_or(u32::MAX);
        mark_shared(program.as_slice(), thread, &mut writers, &mut is_shared);
    }
    Ok(is_shared)
}

// Returns whether a thread submits the entry of a slot, given its instructions after the put: it
// pushes the slot before it puts another entry there, and calls enter, or there is a poller.
fn is_submitted(rest: &[Instruction], slot: u32, is_polled: bool) -> bool {
    let mut is_pushed = false;
    for instruction in rest {
        match instruction {
            Instruction::Put(other, _) if *other == slot => return false,
            Instruction::Push(other) if *other == slot => is_pushed = true,
            Instruction::Enter { .. } if is_pushed => return true,
            _ => {}
        }
    }
    is_pushed && is_polled
}

// Returns an instruction whose request fails in every run, if that is one.
fn failure_at(
    setup: &Setup,
    is_shared: &[bool],
    thread: u32,
    program: &[Instruction],
    index: usize,
) -> Option<SureFailure>
    requires { slice_get setup.now.threads thread ≡ Some program.now }
    ensures { IfSome result (IsOfPut setup.now.threads) }
{
    let Instruction::Put(slot, entry) = program.get(index)? else {
        return None;
    };
    let cause = cause_of(setup.fds.as_slice(), entry.opcode, entry.fd)?;
    let is_own = is_shared.get(*slot as usize) == Some(&false);
    if !is_own || !is_submitted(&program[index + 1..], *slot, setup.sqpoll) {
        return None;
    }
    Some(SureFailure {
        thread,
        instruction: u32::try_from(index).ok()?,
        cause,
    })
}

// Appends the instructions of a thread whose requests fail in every run, as long as there are fewer
// than 20. A submission ends at an entry whose opcode isn't modelled, without a poller or
// IORING_SETUP_SUBMIT_ALL, so that what follows it may never be submitted.
fn add_thread(
    setup: &Setup,
    is_shared: &[bool],
    thread: u32,
    program: &[Instruction],
    found: &mut Vec<SureFailure>,
) -> Result<(), AllocError>
    requires { slice_get setup.now.threads thread ≡ Some program.now }
    ensures { OnOk result (All (IsOfPut setup.now.threads) found.old.items
        → All (IsOfPut setup.now.threads) found.new.items) }
{
    let ends = !setup.submit_all && !setup.sqpoll;
    let mut has_ended = false;
    for index in 0..program.len() {
        if found.len() >= MOST_FAULTS {
            return Ok(());
        }
        has_ended = has_ended && !matches!(program[index], Instruction::Enter { .. });
        if has_ended {
            continue;
        }
        if let Some(failure) = failure_at(setup, is_shared, thread, program, index) {
            has_ended = ends && matches!(failure.cause, Cause::Opcode(_));
            found.push(failure)?;
        }
    }
    Ok(())
}

/// Returns the instructions whose requests fail in every run that submits them, in the order of the
/// threads: at most 20. A slot into which several threads put entries isn't looked at.
pub fn sure_failures(alloc: Global, setup: &Setup) -> Result<Vec<SureFailure>, AllocError>
    ensures { IfOk result (λ found. All (IsOfPut setup.now.threads) found.items) }
{
    let is_shared = shared_slots(alloc, setup)?;
    let mut found = Vec::new(alloc);
    for (thread, program) in setup.threads.as_slice().iter().enumerate() {
        if let Ok(thread) = u32::try_from(thread) {
            add_thread(setup, &is_shared, thread, program.as_slice(), &mut found)?;
        }
    }
    Ok(found)
}
