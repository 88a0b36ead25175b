//! Why a request isn't read.
ghost use Rattle.std.specs.Prelude.{◌≡◌};
ghost use Rattle.dap_messages.specs.declared.fault.RequestFault.TheVariants.{Memory};

use crate::field::Field;
use std::alloc::{AllocError, AllocFailed};

/// Why a request isn't read.
#[derive(Clone, Copy)]
pub enum RequestFault {
    /// An allocation failed.
    Memory,
    /// It isn't a JSON object.
    NotAnObject,
    /// It is a response, an event, or a message of another type.
    NotARequest,
    /// No request has its command.
    UnknownCommand,
    /// This member of the arguments is missing, or it has a value that it can't have.
    BadArgument(Field),
}

impl From<AllocError> for RequestFault {
    ghost from_gives = { λ _ e. e ≡ Memory };

    fn from(_e: AllocError) -> RequestFault {
        RequestFault::Memory
    }
}

impl<T: Drop> From<AllocFailed<T>> for RequestFault {
    ghost from_gives = { λ _ e. e ≡ Memory };

    fn from(_e: AllocFailed<T>) -> RequestFault {
        RequestFault::Memory
    }
}
