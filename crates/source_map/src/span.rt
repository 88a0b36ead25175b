//! Ranges of a text.

/// A range of a text: the offset of its first byte, and the offset after its last one.
#[derive(Clone, Copy)]
pub struct Span {
    pub start: usize,
    pub end: usize,
}
