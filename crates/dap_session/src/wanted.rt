//! The breakpoints that an editor set.
ghost use Rattle.std.specs.Prelude.{◌≡◌};
ghost use Rattle.dap_session.specs.Searches.{passes, stops_at};

use dap_messages::{
    DataBreakpoint, ExceptionFilter, FunctionBreakpoint, InstructionBreakpoint, SourceBreakpoint,
};
use explanations::Report;
use finding_kinds::Finding;
use places::Items;
use std::alloc::Global;

/// The breakpoints of each kind, as the editor requested them.
#[derive(Drop)]
pub(crate) struct Wanted {
    pub(crate) lines: Items<SourceBreakpoint>,
    pub(crate) functions: Items<FunctionBreakpoint>,
    pub(crate) instructions: Items<InstructionBreakpoint>,
    pub(crate) data: Items<DataBreakpoint>,
    pub(crate) filters: Items<ExceptionFilter>,
}

impl Wanted {
    /// Returns no breakpoints.
    pub(crate) fn new(alloc: Global) -> Wanted {
        Wanted {
            lines: Items::new(alloc),
            functions: Items::new(alloc),
            instructions: Items::new(alloc),
            data: Items::new(alloc),
            filters: Items::new(alloc),
        }
    }
}

// Returns whether a finding passes a filter.
fn passes(finding: &Finding, filter: ExceptionFilter) -> bool
    ensures { result ≡ passes finding.now filter }
{
    match filter {
        ExceptionFilter::Faults => finding.kind.is_fault(),
        ExceptionFilter::Notes => !finding.kind.is_fault(),
    }
}

/// Returns whether a finding is one at which a run stops.
pub(crate) fn stops_at(filters: &[ExceptionFilter], report: &Report) -> bool
    ensures { result ≡ stops_at filters.now report.now }
{
    filters
        .iter()
        .any(|filter| passes(&report.finding, *filter))
}
