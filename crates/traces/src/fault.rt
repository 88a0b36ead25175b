//! Why bytes aren't a trace.
ghost use Rattle.std.specs.Prelude.{◌≡◌};
ghost use Rattle.traces.specs.declared.fault.TraceFault.TheVariants.{Memory};

use std::alloc::{AllocError, AllocFailed};

/// The first fault of a trace, from the left.
#[derive(Clone, Copy, Debug)]
pub enum TraceFault {
    /// The bytes don't begin with the magic of the form.
    Magic,
    /// The bytes end within a field.
    Truncated,
    /// There are more than 1,048,576 events.
    Count,
    /// An event's kind isn't 1 to 7.
    Kind,
    /// A byte that must be 0 isn't, or a number isn't valid for the event's kind.
    Padding,
    /// Bytes follow the last event.
    Trailing,
    /// An allocation failed.
    Memory,
    /// The field of the setup at this offset has an invalid value.
    Setup(usize),
}

impl TraceFault {
    ghost use Rattle.traces.specs.Faults.{fault_number};

    /// Returns the fault's number, 1 to 8.
    pub fn number(&self) -> u32
        ensures { result ≡ fault_number self.now }
    {
        match self {
            TraceFault::Magic => 1,
            TraceFault::Truncated => 2,
            TraceFault::Count => 3,
            TraceFault::Kind => 4,
            TraceFault::Padding => 5,
            TraceFault::Trailing => 6,
            TraceFault::Memory => 7,
            TraceFault::Setup(_) => 8,
        }
    }
}

impl From<AllocError> for TraceFault {
    ghost from_gives = { λ _ e. e ≡ Memory };

    fn from(_e: AllocError) -> TraceFault {
        TraceFault::Memory
    }
}

impl<T: Drop> From<AllocFailed<T>> for TraceFault {
    ghost from_gives = { λ _ e. e ≡ Memory };

    fn from(_e: AllocFailed<T>) -> TraceFault {
        TraceFault::Memory
    }
}
