//! How much an object holds, which determines the result of a transfer.

/// How much an object holds.
#[derive(Clone, Copy)]
pub enum Stock {
    /// A file: its length in bytes.
    File(u32),
    /// A pipe: how many bytes it holds, and its capacity.
    Pipe(u64, u64),
    /// An eventfd: its counter.
    EventFd(u64),
}
