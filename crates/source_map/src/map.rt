//! The ranges of the items of a script, and their lines and columns.
ghost use Rattle.std.specs.Prelude.{◌≡◌, slice_get, option_and_then};

use crate::cursor::Position;
use crate::span::Span;
use places::Items;

/// The range of an item, and the positions at which it starts and after which it ends.
#[derive(Clone, Copy)]
pub struct Item {
    pub span: Span,
    pub start: Position,
    pub end: Position,
}

/// Where the items of a script are in its text.
#[derive(Drop)]
pub struct SourceMap {
    /// The instructions of each thread.
    pub threads: Items<Items<Item>>,
    pub schedule: Items<Item>,
}

impl SourceMap {
    /// Returns where an event is.
    pub fn event(&self, index: usize) -> Option<Item>
        ensures { result ≡ slice_get self.now.schedule index }
    {
        self.schedule.as_slice().get(index).copied()
    }

    /// Returns where an instruction of a thread is.
    pub fn instruction(&self, thread: usize, index: usize) -> Option<Item>
        ensures { result ≡ option_and_then (λ program. slice_get program index)
            (slice_get self.now.threads thread) }
    {
        match self.threads.as_slice().get(thread) {
            Some(program) => program.as_slice().get(index).copied(),
            None => None,
        }
    }
}
