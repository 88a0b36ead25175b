//! Copies in pieces. glibc copies more than 2,048 bytes or so, depending on the processor, with
//! `rep movsb`, which callgrind counts as an instruction per byte. Smaller pieces keep the counts
//! comparable, and take the same time.
ghost use Rattle.std.specs.Prelude.{◌≡◌, ◌+◌, ◌<◌, ◌≤◌, ◌++◌, IfOk, length, take, drop};

use std::alloc::{AllocError, Global};

/// The fewest elements that are copied at once: 1,920 bytes of a table's rows.
const FEWEST: usize = 12;

/// The most elements that are copied at once: 1,920 bytes of a memory.
const MOST: usize = 1920;

/// Copies the elements.
pub(crate) fn copied<T: Copy>(alloc: Global, elements: &[T]) -> Result<Vec<T>, AllocError>
    ensures { IfOk result (λ copy. copy.items ≡ elements.now) }
{
    let mut copy = Vec::with_capacity(alloc, elements.len())?;
    let piece = piece_of(elements.len());
    let mut left = elements;
    while !left.is_empty() {
        let (piece, remaining) = left.split_at(left.len().min(piece));
        copy.extend_from_slice(piece)?;
        left = remaining;
    }
    Ok(copy)
}

/// Replaces the elements by others.
pub(crate) fn copy_over<T: Copy>(elements: &mut [T], others: &[T])
    requires { length elements.old ≡ length others.now }
    ensures { elements.new ≡ others.now }
{
    let piece = piece_of(others.len());
    let mut at = 0;
    while at < others.len() {
        let len = (others.len() - at).min(piece);
        overwrite(elements, at, &others[at..at + len]);
        at += len;
    }
}

/// Replaces the elements from an index on.
pub(crate) fn overwrite<T: Copy>(elements: &mut [T], at: usize, others: &[T])
    requires { at + length others.now ≤ length elements.old }
    ensures { elements.new ≡ take at elements.old
        ++ (others.now ++ drop (at + length others.now) elements.old) }
{
    let end = at + others.len();
    elements[at..end].copy_from_slice(others);
}

// Returns how many elements of a page are copied at once.
fn piece_of(len: usize) -> usize
    ensures { 0 < result }
{
    (len / 6).max(FEWEST).min(MOST)
}
