//! Reads setups.
ghost use Rattle.std.specs.Prelude.{◌≡◌, ◌-◌, ◌==◌, ◌||◌};
ghost use Rattle.traces.specs.Limits.{is_size, is_completion_size};
ghost use Rattle.traces.specs.Setups.{is_trimmed};
ghost use Rattle.traces.specs.Cursors.{at_offset};
ghost use Rattle.traces.specs.Reading.{Gives, number_in, memory_at, setup_at};

use crate::fault::TraceFault;
use crate::objects::{read_descriptors, read_long, read_objects};
use crate::offsets::{u8_below, u16_at, u32_at};
use crate::programs::read_threads;
use places::Items;
use scenario::{Setup, ring_size};
use std::alloc::Global;

fn is_size(most: u32, size: u32) -> bool
    ensures { result ≡ is_size most size }
{
    size <= most && ring_size(size) == size
}

#[tactic(auto, unfolding(crate::specs::Reading::number_in))]
fn read_entries(bytes: &[u8], offset: usize) -> Result<(u32, usize), TraceFault>
    ensures { Gives (λ x. (x.0, at_offset bytes.now x.1)) result
        (number_in 2 (is_size 4096) (at_offset bytes.now offset)) }
{
    let (size, after) = u16_at(bytes, offset)?;
    let size = u32::from(size);
    if !is_size(4096, size) {
        return Err(TraceFault::Setup(offset));
    }
    Ok((size, after))
}

#[tactic(auto, unfolding(crate::specs::Reading::number_in))]
fn read_completions(entries: u32, bytes: &[u8], offset: usize) -> Result<(u32, usize), TraceFault>
    ensures { Gives (λ x. (x.0, at_offset bytes.now x.1)) result
        (number_in 2 (is_completion_size entries) (at_offset bytes.now offset)) }
{
    let (size, after) = u16_at(bytes, offset)?;
    let size = u32::from(size);
    if !is_size(8192, size) || size < entries {
        return Err(TraceFault::Setup(offset));
    }
    Ok((size, after))
}

fn is_trimmed(bytes: &[u8]) -> bool
    ensures { result ≡ is_trimmed bytes.now }
{
    bytes.is_empty() || bytes[bytes.len() - 1] != 0
}

#[tactic(auto, unfolding(crate::specs::Reading::memory_at))]
fn read_memory(alloc: Global, bytes: &[u8], offset: usize) -> Result<(Items<u8>, usize), TraceFault>
    ensures { Gives (λ x. (x.0, at_offset bytes.now x.1)) result
        (memory_at (at_offset bytes.now offset)) }
{
    let (memory, after) = read_long(alloc, bytes, offset, 65536)?;
    if !is_trimmed(memory.as_slice()) {
        return Err(TraceFault::Setup(offset));
    }
    Ok((memory, after))
}

fn has_poller(options: u8) -> bool
    ensures { result ≡ ((options == 1) || (options == 3)) }
{
    options == 1 || options == 3
}

// Whether IORING_SETUP_SUBMIT_ALL is set.
fn submits_all(options: u8) -> bool
    ensures { result ≡ ((options == 2) || (options == 3)) }
{
    options == 2 || options == 3
}

/// Reads a setup.
#[tactic(auto, unfolding(crate::specs::Reading::setup_at))]
pub(crate) fn read_setup(
    alloc: Global,
    bytes: &[u8],
    offset: usize,
) -> Result<(Setup, usize), TraceFault>
    ensures { Gives (λ x. (x.0, at_offset bytes.now x.1)) result
        (setup_at (at_offset bytes.now offset)) }
{
    let (entries, after) = read_entries(bytes, offset)?;
    let (completions, after) = read_completions(entries, bytes, after)?;
    let (options, after) = u8_below(bytes, after, 4)?;
    let (base, after) = u32_at(bytes, after)?;
    let (memory, after) = read_memory(alloc, bytes, after)?;
    let (objects, after) = read_objects(alloc, bytes, after)?;
    let (fds, after) = read_descriptors(alloc, &objects, bytes, after)?;
    let (threads, after) = read_threads(alloc, entries, bytes, after)?;
    let setup = Setup {
        entries,
        cq: Some(completions),
        sqpoll: has_poller(options),
        submit_all: submits_all(options),
        base,
        memory,
        objects,
        fds,
        threads,
    };
    Ok((setup, after))
}
