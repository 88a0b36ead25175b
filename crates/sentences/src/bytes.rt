//! Ranges of memory, and which bytes of one an event wrote.

use crate::run::{Run, Text};
use machine::{Event, Instruction};
use std::fmt;

/// A range of at least one byte of memory, by its first and last address.
#[derive(Clone, Copy)]
pub(crate) struct Bytes {
    first: u64,
    last: u64,
}

impl Bytes {
    /// Returns the range of `count` bytes from an address on, or None if it is empty.
    pub fn new(first: u64, count: u64) -> Option<Bytes> {
        let more = count.checked_sub(1)?;
        Some(Bytes {
            first,
            last: first.saturating_add(more),
        })
    }

    /// Returns the bytes that belong to both ranges, if there are any.
    pub fn overlap(self, other: Bytes) -> Option<Bytes> {
        let first = self.first.max(other.first);
        let last = self.last.min(other.last);
        if first > last {
            return None;
        }
        Some(Bytes { first, last })
    }
}

impl fmt::Display for Bytes {
    fn fmt<W: fmt::Write>(&self, f: &mut fmt::Formatter<W>) -> fmt::Result {
        let Bytes { first, last } = self;
        if *first == *last {
            write!(f, "byte {first}")
        } else {
            write!(f, "bytes {first} to {last}")
        }
    }
}

// Returns the bytes that a READ moved into its buffer.
fn read_by(run: &Run<'_>, number: u32) -> Option<Bytes> {
    let res = run.result(number)?;
    if res < 0 {
        return None;
    }
    Bytes::new(run.row(number)?.entry.addr, res as u64)
}

// Returns the bytes that the event at a moment wrote: by a READ, or by a store.
fn written_at(run: &Run<'_>, moment: u32) -> Option<Bytes> {
    if let Some(Event::Finish(number, _)) = run.event(moment) {
        return read_by(run, number);
    }
    match run.instruction(moment)? {
        Instruction::Store(address, bytes) => {
            Bytes::new(u64::from(*address), bytes.len() as u64)
        }
        _ => None,
    }
}

// Returns which bytes of a range the event at a moment wrote.
fn overwritten_at(run: &Run<'_>, moment: u32, first: u64, count: u64) -> Option<Bytes> {
    written_at(run, moment)?.overlap(Bytes::new(first, count)?)
}

/// Returns which bytes of a range of memory the event at a moment wrote, as words.
pub(super) fn overwritten(run: &Run<'_>, moment: u32, first: u64, count: u64) -> Text {
    match overwritten_at(run, moment, first, count) {
        Some(bytes) => format!(in run.alloc(); "{bytes}"),
        None => String::from_str(run.alloc(), "bytes"),
    }
}
