//! Faults that end a run or a session early, and their texts.

use live_rules::LiveFault;
use machine::Refusal;
use machine::laws::number_of_refusal;
use script::{Key, Path, ScriptFault};
use std::fmt;
use thiserror::Error;
use traces::TraceFault;

/// Why serving a session ended early.
#[derive(Clone, Copy, Debug, PartialEq, Eq)]
pub enum ServeFault {
    /// A read failed.
    Read = 1,
    /// A write or a flush failed, or a write accepted no bytes.
    Write = 2,
    /// An allocation failed.
    Memory = 3,
    /// The session was already closed, by a fault or by `quit`.
    Closed = 4,
}

/// Why a run failed.
#[derive(Clone, Copy, Debug)]
pub enum RunFault {
    /// The first fault of the script.
    Script(ScriptFault),
    /// The rules refused the event at this index of the schedule, for this reason.
    Schedule(u32, Refusal),
    /// Serving the session ended early.
    Serve(ServeFault),
    Memory,
    /// Listening on the socket or accepting a client failed.
    Net,
    /// The first fault of the trace.
    Trace(TraceFault),
}

/// Prints a path: its key, and then its indexes, each after a space.
#[derive(Clone, Copy)]
pub struct PathText(pub Path);

impl fmt::Display for PathText {
    ghost use Rattle.std.specs.Prelude.{Some};
    ghost use Rattle.debug_server.specs.Failing.{path_text};

    ghost output = { λ text. Some (path_text text.0) };

    fn fmt<W: fmt::Write>(&self, f: &mut fmt::Formatter<W>) -> fmt::Result {
        let PathText(path) = self;
        write!(
            f,
            "{}{}{}",
            KeyText(path.key),
            IndexText(path.item),
            IndexText(path.inner)
        )
    }
}

// Prints the name of a key.
#[derive(Clone, Copy)]
struct KeyText(Key);

impl fmt::Display for KeyText {
    ghost use Rattle.std.specs.Prelude.{Some};
    ghost use Rattle.debug_server.specs.Failing.{key_text};

    ghost output = { λ text. Some (key_text text.0) };

    fn fmt<W: fmt::Write>(&self, f: &mut fmt::Formatter<W>) -> fmt::Result {
        let KeyText(key) = self;
        f.write_str(match key {
            Key::Document => "document",
            Key::Entries => "entries",
            Key::Cq => "cq",
            Key::Sqpoll => "sqpoll",
            Key::SubmitAll => "submit_all",
            Key::Base => "base",
            Key::Memory => "memory",
            Key::Objects => "objects",
            Key::Fds => "fds",
            Key::Threads => "threads",
            Key::Schedule => "schedule",
        })
    }
}

// Prints a space and an index, or nothing.
#[derive(Clone, Copy)]
struct IndexText(Option<u32>);

impl fmt::Display for IndexText {
    ghost use Rattle.std.specs.Prelude.{Some};
    ghost use Rattle.debug_server.specs.Failing.{index_text};

    ghost output = { λ text. Some (index_text text.0) };

    fn fmt<W: fmt::Write>(&self, f: &mut fmt::Formatter<W>) -> fmt::Result {
        match self {
            IndexText(Some(index)) => write!(f, " {index}"),
            IndexText(None) => Ok(()),
        }
    }
}

/// Why the program failed. It prints this as one line.
#[derive(Drop, Error)]
pub enum Fault {
    /// A file couldn't be read or written.
    File,
    Run(RunFault),
    /// A live run wasn't closed.
    Live(LiveFault),
}

impl From<RunFault> for Fault {
    ghost use Rattle.std.specs.Prelude.{◌≡◌};
    ghost use Rattle.debug_server.specs.declared.faults.Fault.TheVariants.{Run};

    ghost from_gives = { λ run e. e ≡ Run run };

    fn from(fault: RunFault) -> Fault {
        Fault::Run(fault)
    }
}

impl From<LiveFault> for Fault {
    ghost use Rattle.std.specs.Prelude.{◌≡◌};
    ghost use Rattle.debug_server.specs.declared.faults.Fault.TheVariants.{Live};

    ghost from_gives = { λ live e. e ≡ Live live };

    fn from(fault: LiveFault) -> Fault {
        Fault::Live(fault)
    }
}

impl fmt::Debug for Fault {
    fn fmt<W: fmt::Write>(&self, f: &mut fmt::Formatter<W>) -> fmt::Result {
        write!(f, "{self}")
    }
}

impl fmt::Display for Fault {
    ghost use Rattle.std.specs.Prelude.{Some};
    ghost use Rattle.debug_server.specs.Failing.{failure_text};

    ghost output = { λ fault. Some (failure_text fault) };

    fn fmt<W: fmt::Write>(&self, f: &mut fmt::Formatter<W>) -> fmt::Result {
        match self {
            Fault::File => f.write_str("fault file"),
            Fault::Run(fault) => write!(f, "{fault}"),
            Fault::Live(LiveFault::Setup(_)) => f.write_str("fault memory"),
            Fault::Live(LiveFault::Torn(_)) | Fault::Live(LiveFault::Strange(_, _)) => {
                f.write_str("fault torn")
            }
        }
    }
}

impl fmt::Display for RunFault {
    ghost use Rattle.std.specs.Prelude.{Some};
    ghost use Rattle.debug_server.specs.Failing.{run_fault_text};

    ghost output = { λ fault. Some (run_fault_text fault) };

    fn fmt<W: fmt::Write>(&self, f: &mut fmt::Formatter<W>) -> fmt::Result {
        match self {
            RunFault::Script(ScriptFault::NotJson) => write!(f, "fault script 1"),
            RunFault::Script(ScriptFault::Shape(path)) => {
                write!(f, "fault script 2 {}", PathText(*path))
            }
            RunFault::Script(ScriptFault::Range(path)) => {
                write!(f, "fault script 3 {}", PathText(*path))
            }
            RunFault::Script(ScriptFault::Limit(path)) => {
                write!(f, "fault script 4 {}", PathText(*path))
            }
            RunFault::Script(ScriptFault::Memory) | RunFault::Memory => write!(f, "fault memory"),
            RunFault::Schedule(i, refusal) => {
                let number = number_of_refusal(*refusal);
                write!(f, "fault schedule {i} {number}")
            }
            RunFault::Serve(fault) => {
                let number = *fault as u32;
                write!(f, "fault session {number}")
            }
            RunFault::Net => write!(f, "fault net"),
            RunFault::Trace(TraceFault::Memory) => write!(f, "fault memory"),
            RunFault::Trace(TraceFault::Setup(offset)) => write!(f, "fault trace 8 {offset}"),
            RunFault::Trace(fault) => {
                let number = fault.number();
                write!(f, "fault trace {number}")
            }
        }
    }
}
