//! Why a script isn't rewritten.
ghost use Rattle.std.specs.Prelude.{◌≡◌};

use script::ScriptFault;
use std::alloc::{AllocError, AllocFailed};
use traces::TraceFault;

/// Why the schedule of a script can't be replaced.
#[derive(Clone, Copy, Debug)]
pub enum RewriteFault {
    /// The first fault of the script.
    Script(ScriptFault),
    /// The result would have more than 8,388,608 bytes.
    TooLong,
    /// The result doesn't have the setup and the events when it is read.
    Place,
    /// An allocation failed.
    Memory,
}

impl From<AllocError> for RewriteFault {
    ghost use Rattle.rewriting.specs.declared.fault.RewriteFault.TheVariants.{Memory};

    ghost from_gives = { λ _ e. e ≡ Memory };

    fn from(_e: AllocError) -> RewriteFault {
        RewriteFault::Memory
    }
}

impl<T: Drop> From<AllocFailed<T>> for RewriteFault {
    ghost use Rattle.rewriting.specs.declared.fault.RewriteFault.TheVariants.{Memory};

    ghost from_gives = { λ _ e. e ≡ Memory };

    fn from(_e: AllocFailed<T>) -> RewriteFault {
        RewriteFault::Memory
    }
}

/// Why the events of a trace can't be the schedule of a script.
#[derive(Clone, Copy, Debug)]
pub enum ScheduleFault {
    /// The script can't be rewritten, or an allocation failed.
    Rewrite(RewriteFault),
    /// The first fault of the trace.
    Trace(TraceFault),
    /// The trace has another setup than the script.
    OtherSetup,
    /// The trace has this many events, more than 65,536.
    TooMany(u32),
}

impl From<RewriteFault> for ScheduleFault {
    ghost use Rattle.rewriting.specs.declared.fault.ScheduleFault.TheVariants.{Rewrite};

    ghost from_gives = { λ fault e. e ≡ Rewrite fault };

    fn from(fault: RewriteFault) -> ScheduleFault {
        ScheduleFault::Rewrite(fault)
    }
}

impl From<AllocError> for ScheduleFault {
    ghost use Rattle.rewriting.specs.declared.fault.RewriteFault.TheVariants.{Memory};
    ghost use Rattle.rewriting.specs.declared.fault.ScheduleFault.TheVariants.{Rewrite};

    ghost from_gives = { λ _ e. e ≡ Rewrite Memory };

    fn from(_e: AllocError) -> ScheduleFault {
        ScheduleFault::Rewrite(RewriteFault::Memory)
    }
}
