//! The limits of a setup (io_uring_setup(2)).
ghost use Rattle.std.specs.Prelude.{◌≡◌};
ghost use Rattle.std.specs.List.{list_all};
ghost use Rattle.ring_words.specs.Rings.{rounded};
ghost use Rattle.scenario.specs.Setups.{completion_entries as entries_for, is_between, is_completion_size, has_ring_sizes, is_instruction, is_program, has_programs, has_memory, keeps_limits, setup_refusal};

use crate::holdings::{has_descriptors, has_objects};
use crate::setup::{Instruction, Setup, SetupRefusal};
use places::Items;

const SIZES: [u32; 14] = [
    1, 2, 4, 8, 16, 32, 64, 128, 256, 512, 1024, 2048, 4096, 8192,
];

/// Returns why a run can't start from a setup. Allocation failures are not considered.
pub fn setup_refusal(setup: &Setup) -> Option<SetupRefusal>
    ensures { result ≡ setup_refusal setup.now }
{
    if !has_ring_sizes(setup) {
        return Some(SetupRefusal::RingSize);
    }
    if keeps_limits(setup) {
        None
    } else {
        Some(SetupRefusal::Limit)
    }
}

/// Returns the size of a ring: the number of entries, rounded up to a power of two; 0 if it is
/// above 8,192.
pub fn ring_size(entries: u32) -> u32
    ensures { result ≡ rounded entries }
{
    for size in &SIZES {
        if *size >= entries {
            return *size;
        }
    }
    0
}

/// Returns the requested number of completion entries. The default is twice the size of the
/// submission ring.
pub fn completion_entries(entries: u32, cq: Option<u32>) -> u32
    ensures { result ≡ entries_for entries cq }
{
    match cq {
        Some(n) => n,
        None => 2 * ring_size(entries),
    }
}

fn is_between(low: u32, high: u32, n: u32) -> bool
    ensures { result ≡ is_between low high n }
{
    low <= n && n <= high
}

fn has_ring_sizes(setup: &Setup) -> bool
    ensures { result ≡ has_ring_sizes setup.now }
{
    is_between(1, 4096, setup.entries) && is_completion_size(setup.entries, setup.cq)
}

fn is_completion_size(entries: u32, cq: Option<u32>) -> bool
    ensures { result ≡ is_completion_size entries cq }
{
    match cq {
        None => true,
        Some(cq) => is_between(1, 8192, cq) && ring_size(entries) <= ring_size(cq),
    }
}

// Returns whether everything but the ring sizes is within its limits.
fn keeps_limits(setup: &Setup) -> bool
    ensures { result ≡ keeps_limits setup.now }
{
    has_memory(setup) && (has_objects(setup) && (has_descriptors(setup) && has_programs(setup)))
}

fn has_memory(setup: &Setup) -> bool
    ensures { result ≡ has_memory setup.now }
{
    setup.memory.len() <= 65536
}

fn has_programs(setup: &Setup) -> bool
    ensures { result ≡ has_programs setup.now }
{
    setup.threads.len() <= 16 && are_programs(ring_size(setup.entries), setup.threads.as_slice())
}

fn are_programs(size: u32, threads: &[Items<Instruction>]) -> bool
    ensures { result ≡ list_all (is_program size) threads.now }
{
    threads.iter().all(|program| is_program(size, program))
}

fn is_program(size: u32, program: &Items<Instruction>) -> bool
    ensures { result ≡ is_program size program.now }
{
    program.len() <= 4096 && are_instructions(size, program.as_slice())
}

fn are_instructions(size: u32, instructions: &[Instruction]) -> bool
    ensures { result ≡ list_all (is_instruction size) instructions.now }
{
    instructions
        .iter()
        .all(|instruction| is_instruction(size, instruction))
}

fn is_instruction(size: u32, instruction: &Instruction) -> bool
    ensures { result ≡ is_instruction size instruction.now }
{
    match instruction {
        Instruction::Put(slot, _) => *slot < size,
        Instruction::Store(address, bytes) => {
            bytes.len() <= 4096 && *address as usize + bytes.len() <= 65536
        }
        _ => true,
    }
}
