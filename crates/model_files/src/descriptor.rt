//! File descriptors.

use places::End;

/// A descriptor: which object it refers to, and its state.
#[derive(Clone, Copy)]
pub struct DescriptorState {
    /// The object's number in the setup, counted from 0.
    pub object: u32,
    pub end: End,
    pub is_open: bool,
    /// The file position, where a transfer without an explicit offset begins (lseek(2)). `None` if
    /// the object is not a file.
    pub position: Option<u64>,
}
