//! Sentences about requests that completed with an error, moved fewer bytes than requested, or have
//! fields without effect.

use crate::about::About;
use crate::names::ResultName;
use crate::objects::{reason_of_descriptor, reason_of_object};
use crate::opcode_names::{Unmodelled, is_modelled};
use crate::rules::ERROR_RULE;
use crate::run::{Run, Text};
use crate::submitting::{left_out, reason_of_entry};
use entries::{EBADF, EFAULT, EFBIG, EINVAL, EPIPE, Sqe};
use machine::Event;
use opcodes::{Choice, Op};
use std::alloc::{AllocError, Global};

/// The lowest bit of the class of an `ioprio`. Its level is in the lowest bits (ioprio_set(2)).
const CLASS_SHIFT: u32 = 13;

const LEVEL_MASK: u16 = 7;

/// IOPRIO_CLASS_IDLE, the last class.
const IDLE_CLASS: u16 = 3;

// Returns why a request failed after it was issued, or as it was issued.
fn reason_of_end(run: &Run<'_>, entry: &Sqe, res: i32) -> Text {
    let reason = match res.wrapping_neg() {
        EBADF => return reason_of_descriptor(run, entry),
        EINVAL => return reason_of_object(run, entry),
        EFAULT => "its buffer extends past the end of memory",
        EFBIG => "a file can't grow that far",
        EPIPE => "the pipe has no reader",
        _ => "it could not be carried out",
    };
    String::from_str(run.alloc(), reason)
}

fn reason(run: &Run<'_>, about: &About, res: i32) -> Text {
    match run.event(about.moment) {
        Some(Event::Step(_) | Event::Take(_)) => reason_of_entry(run, about, res),
        Some(Event::Finish(_, Choice::Eio)) => String::from_str(run.alloc(), "the device failed"),
        _ => reason_of_end(run, &about.row.entry, res),
    }
}

// Returns at which stage the event at a moment completed a request.
fn stage(run: &Run<'_>, moment: u32) -> &'static str {
    match run.event(moment) {
        Some(Event::Step(_) | Event::Take(_)) => " as it was submitted",
        Some(Event::Issue(_)) => " as it was issued",
        _ => "",
    }
}

// Returns whether a request failed because its opcode isn't modelled. Flags are tested first.
fn is_of_opcode(about: &About, res: i32) -> bool {
    res == -EINVAL
        && !is_modelled(about.row.entry.opcode)
        && left_out(about.row.entry.flags).is_none()
}

/// Returns the sentence of a request that completed with an error.
pub(crate) fn failed(run: &Run<'_>, about: &About) -> Text {
    let name = about.name();
    let res = about.result(run);
    let result = ResultName(res);
    let stage = stage(run, about.moment);
    if is_of_opcode(about, res) {
        let opcode = Unmodelled(about.row.entry.opcode);
        return format!(in run.alloc();
            "Row {name} completed with {result}{stage}; {opcode}: it completes with EINVAL {ERROR_RULE}."
        );
    }
    let reason = reason(run, about, res)?;
    format!(in run.alloc(); "Row {name} completed with {result}{stage}: {reason} {ERROR_RULE}.")
}

/// Returns why a READ or WRITE moved fewer bytes than requested.
pub(crate) fn reason_of_short(run: &Run<'_>, about: &About) -> &'static str {
    match run.event(about.moment) {
        Some(Event::Finish(_, Choice::Short(_))) => "the schedule makes it short",
        _ if about.row.entry.opcode == Op::Read as u8 => "no more could be read",
        _ => "no more could be written",
    }
}

// Returns the fields of an entry that have no effect, with their values.
fn idle_fields(entry: &Sqe) -> [(&'static str, i64); 4] {
    [
        ("ioprio", i64::from(entry.ioprio)),
        ("buf_index", i64::from(entry.buf_index)),
        ("personality", i64::from(entry.personality)),
        ("splice_fd_in", i64::from(entry.splice_fd_in)),
    ]
}

// Returns the names of those that aren't 0, and whether there are several.
fn named_fields(alloc: Global, entry: &Sqe) -> Result<(String, bool), AllocError> {
    let mut text = String::new(alloc);
    let mut are_several = false;
    for (field, value) in idle_fields(entry) {
        if value != 0 {
            are_several = !text.is_empty();
            let before = if are_several { ", " } else { "" };
            text.push_str(format!(in alloc; "{before}{field} {value}")?.as_str())?;
        }
    }
    Ok((text, are_several))
}

// Returns whether a kernel doesn't know an `ioprio`: its class is above the last one, or it has a
// level without a class.
fn is_unknown_priority(ioprio: u16) -> bool {
    let class = ioprio >> CLASS_SHIFT;
    class > IDLE_CLASS || (class == 0 && ioprio & LEVEL_MASK != 0)
}

// Returns whether a kernel answers EINVAL for a field that has no effect here: `ioprio`, or `addr`
// of a request that has no address.
fn is_invalid_to_kernel(entry: &Sqe) -> bool {
    match Op::from_opcode(entry.opcode) {
        Some(Op::Nop | Op::AsyncCancel | Op::Timeout | Op::LinkTimeout) => entry.ioprio != 0,
        Some(Op::Read | Op::Write) => is_unknown_priority(entry.ioprio),
        Some(Op::Fsync | Op::PollAdd) => entry.addr != 0,
        Some(Op::PollRemove | Op::TimeoutRemove) | None => false,
    }
}

/// Returns the sentence of an entry that sets fields without effect.
pub(crate) fn no_effect(alloc: Global, about: &About) -> Text {
    let name = about.name();
    let (fields, are_several) = named_fields(alloc, &about.row.entry)?;
    let (verb, object) = if are_several {
        ("have", "them")
    } else {
        ("has", "it")
    };
    let kernel = if is_invalid_to_kernel(&about.row.entry) {
        " A kernel answers EINVAL."
    } else {
        ""
    };
    format!(in alloc;
        "Row {name} has {fields}, which {verb} no effect here: no modelled request uses {object} (io_uring_enter(2)).{kernel}"
    )
}
