//! Why a request is refused.
ghost use Rattle.std.specs.Prelude.{◌≡◌};
ghost use Rattle.dap_answers.specs.declared.refusal.Refusal.TheVariants.{Memory};

use dap_messages::{Field, RequestFault};
use std::alloc::{AllocError, AllocFailed, Global};

/// Why a request is refused.
#[derive(Drop)]
pub enum Refusal {
    /// An allocation failed.
    Memory,
    /// The request can't be read.
    Request(RequestFault),
    /// The adapter can't do this now, or the program has no such thing.
    Reason(Reason),
    /// The program can't be run, or a line isn't a command: for a reason with a text of its own.
    Text(String),
}

/// A reason that has a fixed sentence.
#[derive(Clone, Copy)]
pub enum Reason {
    NotJson,
    NotInitialized,
    AlreadyInitialized,
    Uris,
    NotLaunched,
    AlreadyLaunched,
    NotConfigured,
    AlreadyConfigured,
    Ended,
    TooLong,
    NoThread,
    NoFrame,
    NoContainer,
    NoPlace,
    NoSource,
    NoTarget,
    NoAddress,
    NoFinding,
    TooMany,
}

impl Reason {
    fn sentence(self) -> &'static str {
        match self {
            Reason::NotJson => "a message is no JSON",
            Reason::NotInitialized => "the first request has to be initialize",
            Reason::AlreadyInitialized => "the session is initialized already",
            Reason::Uris => "paths have to be paths, not URIs",
            Reason::NotLaunched => "nothing is launched",
            Reason::AlreadyLaunched => "something is launched already",
            Reason::NotConfigured => "this needs configurationDone first",
            Reason::AlreadyConfigured => "the session is configured already",
            Reason::Ended => "the session ended before configurationDone",
            Reason::TooLong => "the answer has more than 16777216 bytes",
            Reason::NoThread => "no thread has this number",
            Reason::NoFrame => "no frame has this number",
            Reason::NoContainer => "no variable has this reference",
            Reason::NoPlace => "there is no such place",
            Reason::NoSource => "there is no such source",
            Reason::NoTarget => "there is no such target",
            Reason::NoAddress => "there is no such address",
            Reason::NoFinding => "the run has no finding here",
            Reason::TooMany => "this is more than 4096 at once",
        }
    }
}

impl Refusal {
    /// Returns the number of its kind.
    pub(crate) fn number(&self) -> u64 {
        match self {
            Refusal::Memory | Refusal::Request(RequestFault::Memory) => 1,
            Refusal::Request(RequestFault::NotAnObject | RequestFault::NotARequest)
            | Refusal::Reason(Reason::NotJson) => 2,
            Refusal::Request(RequestFault::UnknownCommand) => 3,
            Refusal::Request(RequestFault::BadArgument(_)) => 4,
            Refusal::Reason(_) => 5,
            Refusal::Text(_) => 6,
        }
    }

    /// Returns its sentence.
    pub(crate) fn sentence(&self, alloc: Global) -> Result<String, AllocError> {
        match self {
            Refusal::Memory | Refusal::Request(RequestFault::Memory) => {
                String::from_str(alloc, "out of memory")
            }
            Refusal::Request(RequestFault::NotAnObject) => {
                String::from_str(alloc, "a message is no JSON object")
            }
            Refusal::Request(RequestFault::NotARequest) => {
                String::from_str(alloc, "a message is no request")
            }
            Refusal::Request(RequestFault::UnknownCommand) => {
                String::from_str(alloc, "no request has this command")
            }
            Refusal::Request(RequestFault::BadArgument(field)) => bad_argument(alloc, *field),
            Refusal::Reason(reason) => String::from_str(alloc, reason.sentence()),
            Refusal::Text(text) => String::from_str(alloc, text.as_str()),
        }
    }
}

fn bad_argument(alloc: Global, field: Field) -> Result<String, AllocError> {
    let name = field.name();
    format!(in alloc; "the argument {name} is missing, or can't have this value")
}

impl From<AllocError> for Refusal {
    ghost from_gives = { λ _ e. e ≡ Memory };

    fn from(_e: AllocError) -> Refusal {
        Refusal::Memory
    }
}

impl<T: Drop> From<AllocFailed<T>> for Refusal {
    ghost from_gives = { λ _ e. e ≡ Memory };

    fn from(_e: AllocFailed<T>) -> Refusal {
        Refusal::Memory
    }
}
