//! Why a report of a run ends early.
ghost use Rattle.std.specs.Prelude.{◌≡◌};

use crate::driving::Ended;
use crate::reading::RunFault;
use machine::Refusal;
use script::ScriptFault;
use std::alloc::AllocError;
use traces::TraceFault;
use whole_files::NotWritten;

/// Why a report of a run ended early.
#[derive(Clone, Copy)]
pub enum ReportFault {
    /// The first fault of the script.
    Script(ScriptFault),
    /// The first fault of the trace.
    Trace(TraceFault),
    /// The event at this index was refused for this reason.
    Schedule(u32, Refusal),
    /// A write or a flush failed, or a write accepted no bytes.
    Write,
    /// An allocation failed.
    Memory,
}

impl From<AllocError> for ReportFault {
    ghost use Rattle.runs.specs.declared.fault.ReportFault.TheVariants.{Memory};

    ghost from_gives = { λ _ e. e ≡ Memory };

    fn from(_e: AllocError) -> ReportFault {
        ReportFault::Memory
    }
}

impl From<NotWritten> for ReportFault {
    ghost use Rattle.runs.specs.declared.fault.ReportFault.TheVariants.{Write};

    ghost from_gives = { λ _ e. e ≡ Write };

    fn from(_e: NotWritten) -> ReportFault {
        ReportFault::Write
    }
}

impl From<RunFault> for ReportFault {
    ghost use Rattle.runs.specs.Faults.{of_reading};

    ghost from_gives = { λ fault e. e ≡ of_reading fault };

    fn from(fault: RunFault) -> ReportFault {
        match fault {
            RunFault::Script(fault) => ReportFault::Script(fault),
            RunFault::Trace(fault) => ReportFault::Trace(fault),
            RunFault::Memory => ReportFault::Memory,
        }
    }
}

impl From<Ended<ReportFault>> for ReportFault {
    ghost use Rattle.runs.specs.Faults.{of_driving};

    ghost from_gives = { λ ended e. e ≡ of_driving ended };

    fn from(ended: Ended<ReportFault>) -> ReportFault {
        match ended {
            Ended::Refused(index, refusal) => ReportFault::Schedule(index, refusal),
            Ended::Memory => ReportFault::Memory,
            Ended::Stopped(fault) => fault,
        }
    }
}
