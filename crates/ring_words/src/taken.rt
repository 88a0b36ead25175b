//! The result of taking a word from the submission ring.

/// What a taken word is.
#[derive(Clone, Copy)]
pub enum Taken {
    /// The index of an entry slot.
    Entry(u32),
    /// No valid index: the word is skipped.
    Dropped,
}
