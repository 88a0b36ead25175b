//! Splits a line into words.
ghost use Rattle.std.specs.Prelude.{◌≡◌, ◌==◌, map, IfOk};
ghost use Rattle.commands.specs.Commands.{words_of};

use std::alloc::{AllocError, Global};

// Returns the words of a line, each separated by one space.
pub(crate) fn words(alloc: Global, line: &[u8]) -> Result<Vec<&[u8]>, AllocError>
    ensures { IfOk result (λ v. map (λ w. w.now) v.items ≡ words_of line.now) }
{
    line.split(|b| *b == b' ').collect(alloc)
}
