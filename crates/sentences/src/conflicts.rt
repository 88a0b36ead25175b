//! Sentences about events that conflict with incomplete requests, or with pushed entries.

use crate::about::About;
use crate::bytes::overwritten;
use crate::counted::Counted;
use crate::names::RowName;
use crate::opcode_names::OpcodeName;
use crate::run::{Run, Text};
use entries::Sqe;
use machine::{Event, Instruction};

/// The size of a timespec: two numbers of 8 bytes (io_uring_enter(2), IORING_OP_TIMEOUT).
const TIMESPEC_BYTES: u64 = 16;

const READ_RULE: &str = "(read(2), write(2), io_uring_enter(2))";

// Returns the phase of the row before the event in question.
fn stage(run: &Run<'_>, about: &About) -> &'static str {
    match run.times_of(about.number) {
        Some(times) if times.is_issued_at(about.moment) => "issued",
        _ => "queued",
    }
}

// Returns the row that the event at a moment completed.
fn ended_at(run: &Run<'_>, moment: u32) -> Option<RowName> {
    match run.event(moment) {
        Some(Event::Finish(number, _)) => run.name(number),
        _ => None,
    }
}

// Returns what the event at a moment did to which bytes of a range of memory: the row or the
// instruction, with its verb.
fn writer(run: &Run<'_>, moment: u32, first: u64, count: u64) -> Text {
    let bytes = overwritten(run, moment, first, count)?;
    if let Some(by) = ended_at(run, moment) {
        return format!(in run.alloc(); "row {by} transferred {bytes}");
    }
    match run.thread_step(moment) {
        Some(step) => format!(in run.alloc(); "{step}, stored {bytes}"),
        None => format!(in run.alloc(); "{bytes} were written"),
    }
}

/// Returns the sentence of a buffer of an incomplete READ or WRITE that was overwritten.
pub(crate) fn buffer_in_use(run: &Run<'_>, about: &About) -> Text {
    let name = about.name();
    let stage = stage(run, about);
    let number = about.number;
    let address = about.row.entry.addr;
    let len = u64::from(about.row.entry.len);
    let writer = writer(run, about.moment, address, len)?;
    let buffer = Counted::bytes(len);
    format!(in run.alloc();
        "Row {name} was {stage} as {writer} into row {number}'s buffer ({buffer} from address {address} on), and nothing orders the two. Until a request completes, its buffer belongs to the kernel {READ_RULE}."
    )
}

// Returns the entry that a slot had at a moment, if it was put.
fn entry_in(run: &Run<'_>, slot: u32, moment: u32) -> Option<Sqe> {
    match run.instruction(run.last_put(slot, moment)?)? {
        Instruction::Put(_, entry) => Some(*entry),
        _ => None,
    }
}

/// Returns the sentence of a timespec that was overwritten before the kernel took its entry.
pub(crate) fn timespec_in_use(run: &Run<'_>, slot: u32, moment: u32) -> Text {
    let Some(entry) = entry_in(run, slot, moment) else {
        return Ok(String::new(run.alloc()));
    };
    let (operation, user_data) = (OpcodeName(entry.opcode), entry.user_data);
    let address = entry.addr;
    let writer = writer(run, moment, address, TIMESPEC_BYTES)?;
    format!(in run.alloc();
        "The entry in slot {slot} ({operation}, user_data {user_data}) was pushed and not yet taken as {writer} into its timespec ({TIMESPEC_BYTES} bytes from address {address} on). The kernel reads the timespec when it takes the entry (io_uring_enter(2))."
    )
}

// Returns a sentence that begins with a row, and the row that the event completed.
fn as_completed(run: &Run<'_>, about: &About, sentence: &str) -> Text {
    let (name, stage) = (about.name(), stage(run, about));
    match ended_at(run, about.moment) {
        Some(by) => format!(in run.alloc(); "Row {name} was {stage} as row {by} {sentence}"),
        None => Ok(String::new(run.alloc())),
    }
}

/// Returns the sentence of two unordered requests for the same bytes of a file.
pub(crate) fn unordered(run: &Run<'_>, about: &About) -> Text {
    as_completed(
        run,
        about,
        "completed. Both access the same bytes of a file, at least one of them is a WRITE, and nothing orders them: which comes first is up to the kernel. Link them, or drain (io_uring_enter(2), IOSQE_IO_LINK and IOSQE_IO_DRAIN).",
    )
}

/// Returns the sentence of two unordered requests at the position of one descriptor.
pub(crate) fn shared_position(run: &Run<'_>, about: &About) -> Text {
    let fd = about.row.entry.fd;
    let sentence = format!(in run.alloc();
        "moved the position of descriptor {fd}. Both start at this position (offset -1), and nothing orders them. Give offsets, or link them (lseek(2), pread(2))."
    )?;
    as_completed(run, about, sentence.as_str())
}

/// Returns the sentence of a WRITE that was incomplete as a later FSYNC of its file completed.
pub(crate) fn fsync_early(run: &Run<'_>, about: &About) -> Text {
    as_completed(
        run,
        about,
        "completed, which syncs the same file and was submitted later: the FSYNC did not make the bytes of this WRITE durable. Link them, or drain (fsync(2), io_uring_enter(2), IORING_OP_FSYNC).",
    )
}
