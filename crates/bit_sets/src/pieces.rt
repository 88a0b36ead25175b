//! Copies in pieces.
ghost use Rattle.std.specs.Prelude.{◌≡◌, IfOk};

use std::alloc::{AllocError, Global};

/// Elements copied at once: at most 1,920 bytes. glibc copies more than 2,048 bytes or so,
/// depending on the processor, with `rep movsb`, which callgrind counts as an instruction per byte.
const PIECE: usize = 240;

/// Copies the elements.
pub(crate) fn copied<T: Copy>(alloc: Global, elements: &[T]) -> Result<Vec<T>, AllocError>
    ensures { IfOk result (λ copy. copy.items ≡ elements.now) }
{
    let mut copy = Vec::with_capacity(alloc, elements.len())?;
    let mut left = elements;
    while !left.is_empty() {
        let (piece, remaining) = left.split_at(left.len().min(PIECE));
        copy.extend_from_slice(piece)?;
        left = remaining;
    }
    Ok(copy)
}
