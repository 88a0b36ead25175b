//! The kernel's choice when a request finishes.

/// How much of its work a request does when it finishes. A Finish event of a run carries one.
#[derive(Clone, Copy, PartialEq, Eq)]
pub enum Choice {
    /// Everything that the request can do at this moment.
    Full,
    /// A short read or write of this many bytes: at least 1, and fewer than
    /// the request could transfer.
    Short(u32),
    /// The device fails: the request completes with -5 (EIO).
    Eio,
}
