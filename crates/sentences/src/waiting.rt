//! What an issued request waits for on its descriptor, and which operations could cause it.

use crate::objects::descriptor_at;
use crate::run::{Run, Text};
use entries::{POLLIN, POLLOUT, Row, Sqe};
use finding_kinds::FIRST_DESCRIPTOR;
use opcodes::Op;
use places::{Contents, Descriptor, End, Object, Place, Value};

/// The most descriptors of a setup.
const MOST_DESCRIPTORS: usize = 64;

/// What a request waits for, by which operation, and at which descriptors.
#[derive(Clone, Copy)]
struct Awaited {
    /// The words before the object's name.
    words: &'static str,
    /// The operation that causes it, in words that end before a descriptor number.
    source: &'static str,
    verb: &'static str,
    /// The end of the descriptors by which an operation can cause it. None if nothing can.
    through: Option<End>,
}

const WRITE: &str = "a WRITE to descriptor ";

const READ: &str = "a READ from descriptor ";

const CLOSE: &str = "a close of descriptor ";

fn waits_for(
    words: &'static str,
    source: &'static str,
    verb: &'static str,
    through: Option<End>,
) -> Awaited {
    Awaited {
        words,
        source,
        verb,
        through,
    }
}

// Returns what an entry waits for whose events never occur on the object.
fn nothing() -> Awaited {
    waits_for("events that never occur on", CLOSE, "cause", None)
}

// Returns what an entry waits for at an end of a pipe. A hang-up is POLLHUP, an error POLLERR.
fn awaited_of_pipe(entry: &Sqe, end: End) -> Awaited {
    let polls = entry.opcode == Op::PollAdd as u8;
    match end {
        End::Read if polls && entry.operation_flags & POLLIN == 0 => {
            waits_for("a hang-up of pipe", CLOSE, "cause", Some(End::Write))
        }
        End::Read => waits_for("bytes in pipe", WRITE, "supply", Some(End::Write)),
        End::Write if polls && entry.operation_flags & POLLOUT == 0 => {
            waits_for("an error of pipe", CLOSE, "cause", Some(End::Read))
        }
        End::Write => waits_for("room in pipe", READ, "make", Some(End::Read)),
        End::Whole => nothing(),
    }
}

fn awaited_of_eventfd(entry: &Sqe) -> Awaited {
    let (reads, writes) = match Op::from_opcode(entry.opcode) {
        Some(Op::Read) => (true, false),
        Some(Op::Write) => (false, true),
        _ => (
            entry.operation_flags & POLLIN != 0,
            entry.operation_flags & POLLOUT != 0,
        ),
    };
    if reads {
        waits_for(
            "a counter above 0 in eventfd",
            WRITE,
            "cause",
            Some(End::Whole),
        )
    } else if writes {
        waits_for(
            "room in the counter of eventfd",
            READ,
            "make",
            Some(End::Whole),
        )
    } else {
        nothing()
    }
}

// Returns what an entry waits for at an end of an object. Transfers of a file never wait.
fn awaited_at(entry: &Sqe, end: End, object: &Object) -> Awaited {
    match &object.contents {
        Contents::Pipe(_) => awaited_of_pipe(entry, end),
        Contents::EventFd(_) => awaited_of_eventfd(entry),
        Contents::File(_) => nothing(),
    }
}

// Returns the manual page that says so.
fn rule_of(entry: &Sqe, awaited: Awaited) -> &'static str {
    match awaited.through {
        _ if entry.opcode == Op::PollAdd as u8 => "(poll(2))",
        Some(End::Whole) => "(eventfd(2))",
        _ => "(pipe(7))",
    }
}

fn is_open(run: &Run<'_>, number: u32) -> bool {
    matches!(
        run.state.value(Place::OpenMark(number)),
        Some(Value::Number(1))
    )
}

// Returns the operations on open descriptors of an object that could cause what is awaited.
fn providers(run: &Run<'_>, object: u32, awaited: Awaited) -> Text {
    let descriptors = run.setup.fds.as_slice();
    let mut text = String::new(run.alloc());
    for index in 0..descriptors.len().min(MOST_DESCRIPTORS) {
        let descriptor = descriptors[index];
        let number = FIRST_DESCRIPTOR + index as u32;
        if descriptor.object == object
            && awaited.through == Some(descriptor.end)
            && is_open(run, number)
        {
            let before = if text.is_empty() {
                awaited.source
            } else {
                " or "
            };
            text.push_str(format!(in run.alloc(); "{before}{number}")?.as_str())?;
        }
    }
    if text.is_empty() {
        text.push_str("no open descriptor")?;
    }
    Ok(text)
}

// Returns what an entry waits for at a descriptor of an object, and what could cause it.
fn waits_at(run: &Run<'_>, entry: &Sqe, descriptor: Descriptor, object: &Object) -> Text {
    let awaited = awaited_at(entry, descriptor.end, object);
    let (fd, words, verb) = (entry.fd, awaited.words, awaited.verb);
    let name = String::from_utf8_lossy(run.alloc(), object.name.as_slice())?;
    let providers = providers(run, descriptor.object, awaited)?;
    let rule = rule_of(entry, awaited);
    format!(in run.alloc();
        "It is issued, and waits on descriptor {fd} for {words} {name}, which {providers} could {verb} {rule}."
    )
}

/// Returns why an issued request can't complete yet.
pub(super) fn waits(run: &Run<'_>, row: &Row) -> Text {
    let Some(descriptor) = descriptor_at(run.setup, row.entry.fd) else {
        return String::from_str(run.alloc(), "It is issued.");
    };
    match run.setup.objects.as_slice().get(descriptor.object as usize) {
        Some(object) => waits_at(run, &row.entry, descriptor, object),
        None => String::from_str(run.alloc(), "It is issued."),
    }
}
