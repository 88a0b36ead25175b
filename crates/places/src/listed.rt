//! The two lists of the state that grow while a run goes forward.

/// A list that grows and shrinks at its end. Each element is a place, and a
/// place past the end is absent.
#[derive(Clone, Copy)]
pub enum Listed {
    /// The request table.
    Requests,
    /// The overflowed completions: those that did not fit into the completion ring.
    Overflowed,
}
