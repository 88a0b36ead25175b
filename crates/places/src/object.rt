//! The objects and descriptors of a setup.

use crate::items::Items;

/// The kind of an object, and its state at the start of a run.
#[derive(Drop)]
pub enum Contents {
    /// A regular file with these bytes, at most 65,536.
    File(Items<u8>),
    /// An empty pipe with this capacity, 1 to 65,536 bytes (pipe(7)).
    Pipe(u32),
    /// An eventfd with this counter, at most 2^64 - 2 (eventfd(2)).
    EventFd(u64),
}

/// An object and its name: 1 to 16 characters from a to z, 0 to 9 and the underscore.
#[derive(Drop)]
pub struct Object {
    pub name: Items<u8>,
    pub contents: Contents,
}

/// Which end of its object a descriptor refers to.
#[derive(Clone, Copy, PartialEq, Eq)]
pub enum End {
    /// The whole object: a file or an eventfd.
    Whole,
    /// The read end of a pipe.
    Read,
    /// The write end of a pipe.
    Write,
}

/// A descriptor, open at the start of a run. Descriptors are numbered from 3 in the setup's order.
#[derive(Clone, Copy, PartialEq, Eq)]
pub struct Descriptor {
    /// The object's number in the setup, counted from 0.
    pub object: u32,
    pub end: End,
}
