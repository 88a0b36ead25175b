//! The faults of the subcommands that report on a run.
ghost use Rattle.std.specs.Prelude.{◌≡◌};
ghost use Rattle.uringwalk.specs.Reporting.{fault_as};

use crate::fail;
use debug_server::{Fault, RunFault, ServeFault};
use runs::{ReportFault, read_run};
use script_check::refusal_sentence;
use std::alloc::Global;
use std::process::ExitCode;

/// Returns the program's fault for a report that ended early.
pub fn fault_of_report(fault: ReportFault) -> Fault
    ensures { result ≡ fault_as fault }
{
    Fault::Run(match fault {
        ReportFault::Script(fault) => RunFault::Script(fault),
        ReportFault::Trace(fault) => RunFault::Trace(fault),
        ReportFault::Schedule(index, refusal) => RunFault::Schedule(index, refusal),
        ReportFault::Write => RunFault::Serve(ServeFault::Write),
        ReportFault::Memory => RunFault::Memory,
    })
}

/// Why there is no report of a run, or only its beginning.
#[derive(Drop)]
pub struct Failure {
    pub fault: Fault,
    /// The sentence about the refused event; empty for any other fault.
    pub reason: String,
}

// Returns the sentence about the first event of a run that is refused. It is empty if none is, or if
// an allocation fails.
fn reason_of(alloc: Global, bytes: &[u8]) -> String {
    let Ok(run) = read_run(alloc, bytes) else {
        return String::new(alloc);
    };
    match refusal_sentence(alloc, run.setup(), run.events()) {
        Ok(sentence) => sentence,
        Err(_) => String::new(alloc),
    }
}

impl Failure {
    /// Returns the failure for a run whose bytes can't be read.
    pub fn from_fault(alloc: Global, fault: Fault) -> Failure {
        Failure {
            fault,
            reason: String::new(alloc),
        }
    }

    /// Returns the failure for a report of the run in these bytes that ended early.
    pub fn from_report(alloc: Global, bytes: &[u8], fault: ReportFault) -> Failure {
        let reason = match fault {
            ReportFault::Schedule(_, _) => reason_of(alloc, bytes),
            _ => String::new(alloc),
        };
        Failure {
            fault: fault_of_report(fault),
            reason,
        }
    }

    /// Prints the fault on standard error, and the reason on the next line if there is one. Returns
    /// exit status 1.
    pub fn print(&self, rt: &impl Eprint) -> ExitCode {
        let status = fail(rt, 1, &self.fault);
        if self.reason.is_empty() {
            return status;
        }
        fail(rt, 1, &self.reason)
    }
}
