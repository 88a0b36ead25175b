//! Why a live run was not closed.

use scenario::{Setup, SetupRefusal};

/// Why a live run was not closed.
#[derive(Drop)]
pub enum LiveFault {
    /// The setup is refused. An allocation failure, or a thread that can't be started, is reported
    /// as `SetupRefusal::Memory`.
    Setup(SetupRefusal),
    /// This actor's receipts differ from its events in the trace.
    Torn(u32),
    /// The lock returned a run of another setup or number of actors: this one.
    Strange(Setup, u32),
}

impl LiveFault {
    ghost use Rattle.std.specs.Prelude.{◌≡◌};
    ghost use Rattle.live_rules.specs.Faults.{fault_number};

    /// Returns the fault's number, from 1 to 3.
    pub fn number(&self) -> u32
        ensures { result ≡ fault_number self.now }
    {
        match self {
            LiveFault::Setup(_) => 1,
            LiveFault::Torn(_) => 2,
            LiveFault::Strange(_, _) => 3,
        }
    }
}
