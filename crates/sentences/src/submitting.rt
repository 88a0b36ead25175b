//! Why an entry failed as it was submitted: which field, and which values its opcode accepts.

use crate::about::About;
use crate::opcode_names::{OpcodeName, Unmodelled};
use crate::run::{Run, Text};
use entries::{EFAULT, Sqe};
use opcodes::Op;

/// The flags of entries that are not modelled.
const LEFT_OUT: [u8; 4] = [1, 32, 64, 128];

/// A field, its value, which an opcode refuses, and the values that it accepts.
type Refused = (&'static str, u64, &'static str);

/// Returns the first flag of an entry that isn't modelled.
pub(super) fn left_out(flags: u8) -> Option<u8> {
    LEFT_OUT.iter().copied().find(|flag| flags & *flag != 0)
}

fn flag_name(flag: u8) -> &'static str {
    match flag {
        1 => " (IOSQE_FIXED_FILE)",
        32 => " (IOSQE_BUFFER_SELECT)",
        64 => " (IOSQE_CQE_SKIP_SUCCESS)",
        _ => "",
    }
}

// Returns the `len` of an entry, if it isn't the accepted one.
fn refused_len(entry: &Sqe, len: u32, taken: &'static str) -> Option<Refused> {
    if entry.len == len {
        return None;
    }
    Some(("len", u64::from(entry.len), taken))
}

// Returns the `opflags` of an entry, if they are above the largest accepted ones.
fn refused_flags(entry: &Sqe, most: u32, taken: &'static str) -> Option<Refused> {
    if entry.operation_flags <= most {
        return None;
    }
    Some(("opflags", u64::from(entry.operation_flags), taken))
}

fn refused_of_timer(entry: &Sqe) -> Option<Refused> {
    refused_len(entry, 1, "1").or(refused_flags(entry, 1, "0 or IORING_TIMEOUT_ABS (1)"))
}

// Returns the first field that the opcode of an entry refuses, in the order of the tests.
fn refused_field(entry: &Sqe, op: Op) -> Option<Refused> {
    match op {
        Op::Nop => None,
        Op::Fsync => refused_flags(entry, 1, "0 or IORING_FSYNC_DATASYNC (1)"),
        Op::PollAdd => refused_len(entry, 0, "0"),
        Op::PollRemove => refused_len(entry, 0, "0").or(refused_flags(entry, 0, "0")),
        Op::LinkTimeout if entry.off != 0 => Some(("off", entry.off, "0")),
        Op::Timeout | Op::LinkTimeout => refused_of_timer(entry),
        Op::AsyncCancel => refused_flags(
            entry,
            3,
            "0, IORING_ASYNC_CANCEL_ALL (1), IORING_ASYNC_CANCEL_FD (2) or both",
        ),
        Op::TimeoutRemove | Op::Read | Op::Write => refused_flags(entry, 0, "0"),
    }
}

// Returns whether the row before this one is in its chain and no LINK_TIMEOUT.
fn has_target(run: &Run<'_>, number: u32) -> bool {
    let Some(before) = number.checked_sub(1) else {
        return false;
    };
    matches!(
        run.row(before),
        Some(row)
            if row.entry.opcode != Op::LinkTimeout as u8 && run.are_of_one_chain(before, number)
    )
}

// Returns why an entry with a modelled opcode was refused.
fn reason_of_op(run: &Run<'_>, about: &About, op: Op, res: i32) -> Text {
    if matches!(op, Op::LinkTimeout) && !has_target(run, about.number) {
        return String::from_str(
            run.alloc(),
            "it has no target, as the entry before it is not of its chain, or is a LINK_TIMEOUT",
        );
    }
    if let Some((field, value, taken)) = refused_field(&about.row.entry, op) {
        let operation = OpcodeName(about.row.entry.opcode);
        return format!(in run.alloc(); "its {field} is {value}, but {operation} takes {taken}");
    }
    let reason = if res == -EFAULT {
        "its timespec extends past the end of memory"
    } else {
        "the seconds or nanoseconds of its timespec are negative"
    };
    String::from_str(run.alloc(), reason)
}

/// Returns why a submission refuses an entry, by the first test that it fails.
pub(super) fn reason_of_entry(run: &Run<'_>, about: &About, res: i32) -> Text {
    if let Some(flag) = left_out(about.row.entry.flags) {
        let name = flag_name(flag);
        return format!(in run.alloc();
            "its flags include {flag}{name}, which isn't modelled: IOSQE_IO_DRAIN (2), IOSQE_IO_LINK (4), IOSQE_IO_HARDLINK (8) and IOSQE_ASYNC (16) are"
        );
    }
    match Op::from_opcode(about.row.entry.opcode) {
        Some(op) => reason_of_op(run, about, op, res),
        None => format!(in run.alloc(); "{}", Unmodelled(about.row.entry.opcode)),
    }
}
