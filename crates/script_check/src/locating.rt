//! Finds the line and the column at which a value of a script begins.

use json_offsets::document_at;
use script::items::key_path;
use script::{Key, Path};
use source_map::Spans;

/// A line and a column, both counted from 1. A column counts bytes, as in `serde_json`.
#[derive(Clone, Copy)]
pub(crate) struct Position {
    pub line: usize,
    pub column: usize,
}

impl Position {
    // Moves to the next position, given the byte at this one.
    fn pass(&mut self, byte: u8) {
        if byte == b'\n' {
            self.line = self.line.saturating_add(1);
            self.column = 0;
        }
        self.column = self.column.saturating_add(1);
    }
}

/// Returns the position of the byte at an offset.
pub(crate) fn position_of(text: &[u8], offset: usize) -> Position {
    let mut position = Position { line: 1, column: 1 };
    for byte in &text[..offset.min(text.len())] {
        position.pass(*byte);
    }
    position
}

/// Returns the offset of the byte at a line and a column, or the text's length if there is none.
pub(crate) fn offset_at(text: &[u8], line: usize, column: usize) -> usize {
    let mut before = Position { line: 1, column: 1 };
    for (offset, byte) in text.iter().enumerate() {
        if before.line == line && before.column == column {
            return offset;
        }
        before.pass(*byte);
    }
    text.len()
}

/// Returns a key as a script spells it.
pub(crate) fn key_word(key: Key) -> &'static str {
    match key {
        Key::Document => "document",
        Key::Entries => "entries",
        Key::Cq => "cq",
        Key::Sqpoll => "sqpoll",
        Key::SubmitAll => "submit_all",
        Key::Base => "base",
        Key::Memory => "memory",
        Key::Objects => "objects",
        Key::Fds => "fds",
        Key::Threads => "threads",
        Key::Schedule => "schedule",
    }
}

/// Returns the offset of the value at a path. If there is none, returns the offset of the object or
/// the list that should contain it.
pub(crate) fn offset_of(text: &[u8], spans: &Spans, path: Path) -> usize {
    let outer = Path {
        inner: None,
        ..path
    };
    for path in [path, outer, key_path(path.key)] {
        if let Some(span) = spans.at(path) {
            return span.start;
        }
    }
    document_at(text)
}
