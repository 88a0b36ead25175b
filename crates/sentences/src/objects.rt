//! Why a descriptor, or its object, refuses a request.

use crate::run::{Run, Text};
use entries::Sqe;
use finding_kinds::{FIRST_DESCRIPTOR, descriptor_number};
use machine::Setup;
use opcodes::{Op, fits_end};
use places::{Contents, Descriptor, End};
use std::alloc::Global;

/// The fewest bytes that a READ or WRITE of an eventfd may request (eventfd(2)).
const EVENT_BYTES: u32 = 8;

/// Returns a descriptor of the setup by its number.
pub(super) fn descriptor_at(setup: &Setup, fd: i32) -> Option<Descriptor> {
    let index = descriptor_number(fd)?.checked_sub(FIRST_DESCRIPTOR)?;
    setup.fds.as_slice().get(index as usize).copied()
}

// Returns why an end can't be used: it doesn't fit the request, or its descriptor is closed.
fn word_of_end(fits: bool, end: End) -> &'static str {
    match end {
        End::Read if !fits => "is the read end of a pipe, which can't be written",
        End::Write if !fits => "is the write end of a pipe, which can't be read",
        _ => "is not open",
    }
}

/// Returns why the descriptor of an entry can't be used.
pub(super) fn reason_of_descriptor(run: &Run<'_>, entry: &Sqe) -> Text {
    let fd = entry.fd;
    let reason = match descriptor_at(run.setup, entry.fd) {
        Some(Descriptor { end, .. }) => word_of_end(fits_end(entry.opcode, end), end),
        None => "is not open",
    };
    format!(in run.alloc(); "its descriptor {fd} {reason}")
}

fn kind_of(contents: &Contents) -> &'static str {
    match contents {
        Contents::File(_) => "a file",
        Contents::Pipe(_) => "a pipe",
        Contents::EventFd(_) => "an eventfd",
    }
}

// Returns why an object with these contents refuses an entry.
fn reason_of_contents(alloc: Global, entry: &Sqe, contents: &Contents) -> Text {
    let kind = kind_of(contents);
    if entry.opcode == Op::Fsync as u8 {
        return format!(in alloc; "its object is {kind}, and FSYNC needs a file");
    }
    let len = entry.len;
    match contents {
        Contents::File(_) => String::from_str(alloc, "its offset is negative, and not -1"),
        Contents::EventFd(_) if len < EVENT_BYTES => {
            format!(in alloc; "its len is {len}, and an eventfd needs at least 8 bytes")
        }
        Contents::EventFd(_) => {
            String::from_str(
                alloc,
                "it adds 2^64 - 1, and an eventfd takes at most 2^64 - 2",
            )
        }
        Contents::Pipe(_) => String::from_str(alloc, "a pipe refuses such a request"),
    }
}

/// Returns why the object of an entry's descriptor refuses the entry.
pub(super) fn reason_of_object(run: &Run<'_>, entry: &Sqe) -> Text {
    let objects = run.setup.objects.as_slice();
    let object = descriptor_at(run.setup, entry.fd).and_then(|it| objects.get(it.object as usize));
    match object {
        Some(object) => reason_of_contents(run.alloc(), entry, &object.contents),
        None => String::from_str(run.alloc(), "its object refuses such a request"),
    }
}
