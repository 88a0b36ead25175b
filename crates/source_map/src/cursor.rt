//! Lines and columns of a text.
ghost use Rattle.std.specs.Prelude.{◌≡◌, ◌+◌, ◌<◌, ◌≤◌, ◌^◌, length};
ghost use Rattle.source_map.specs.Positions.{IsCursor, most_bytes, pass, units};

/// The most bytes of a text that has positions, which is the most of a script.
pub(crate) const MOST_BYTES: usize = 8388608;

/// A line and a column, both from 1. A column counts the UTF-16 code units before it in its line.
#[derive(Clone, Copy)]
pub struct Position {
    pub line: usize,
    pub column: usize,
}

/// An offset of a text, and its position.
#[derive(Clone, Copy)]
pub(crate) struct Cursor {
    pub offset: usize,
    pub position: Position,
}

// Returns the number of UTF-16 code units of the character that a byte of UTF-8 begins.
fn units(byte: u8) -> usize
    ensures { result ≡ units byte }
{
    if byte < 0x80 {
        1
    } else if byte < 0xc0 {
        0
    } else if byte < 0xf0 {
        1
    } else {
        2
    }
}

// Returns the position after a byte.
fn pass(position: Position, byte: u8) -> Position
    requires line { position.line + 1 < 2 ^ 64 }
    requires column { position.column + 2 < 2 ^ 64 }
    ensures { result ≡ pass position byte }
{
    let Position { line, column } = position;
    if byte == b'\n' {
        Position {
            line: line + 1,
            column: 1,
        }
    } else {
        Position {
            line,
            column: column + units(byte),
        }
    }
}

/// Returns the start of a text.
#[tactic(auto, unfolding(crate::specs::Positions::position_at))]
pub(crate) fn text_start(text: &[u8]) -> Cursor
    ensures cursor { IsCursor text.now result }
    ensures offset { result.offset ≡ 0 }
{
    let _length = text.len();
    Cursor {
        offset: 0,
        position: Position { line: 1, column: 1 },
    }
}

/// Moves forward to an offset.
pub(crate) fn advance(text: &[u8], cursor: Cursor, to: usize) -> Cursor
    requires cursor { IsCursor text.now cursor }
    requires forward { cursor.offset ≤ to }
    requires within { to ≤ length text.now }
    requires most { length text.now ≤ most_bytes }
    ensures cursor { IsCursor text.now result }
    ensures offset { result.offset ≡ to }
{
    let mut position = cursor.position;
    for at in cursor.offset..to {
        position = pass(position, text[at]);
    }
    Cursor {
        offset: to,
        position,
    }
}
