//! The run that is debugged, and where it stops.
ghost use Rattle.std.specs.Prelude.{◌≡◌, ◌==◌, [], Contains, IfSome, true};
ghost use Rattle.watches.specs.Watchpoints.{nothing};
ghost use Rattle.dap_session.specs.Moves.{holds};
ghost use Rattle.dap_session.specs.Runs.{walk_of};
ghost use Rattle.dap_session.specs.Searches.{IsPointedAt, IsReportAt};

use crate::base::Base;
use crate::moving::holds;
use crate::searched::Searched;
use crate::wanted::{Wanted, stops_at};
use dap_messages::{ExceptionFilter, Program, Text};
use debug_server::Session;
use explanations::Report;
use inverse_log::Walker;
use sentences::ThreadStep;
use source_map::SourceMap;
use std::alloc::{AllocError, Global};
use std::marker::Model;
use stops::{Marks, Moments};
use watches::Watches;

/// A run that is debugged.
pub(crate) struct Debuggee {
    pub(crate) alloc: Global,
    pub(crate) searched: Searched,
    pub(crate) base: Base,
    /// The path of the script or the trace.
    pub(crate) path: Text,
    /// Where the items of a script are. A trace has none.
    pub(crate) map: Option<SourceMap>,
    /// The breakpoints that the editor set.
    pub(crate) wanted: Wanted,
    /// The data breakpoints.
    pub(crate) watches: Watches,
    /// The moments of the other breakpoints, and of the findings at which the run stops.
    pub(crate) marks: Marks,
}

// Written by hand, so that dropping it is one step of a proof.
impl Drop for Debuggee {
    fn drop(self) {
        let Debuggee {
            alloc: _,
            searched: _,
            base: _,
            path: _,
            map: _,
            wanted: _,
            watches: _,
            marks: _,
        } = self;
    }
}

fn is_at(report: &Report, moment: usize) -> bool
    ensures { result ≡ (report.now.finding.moment == moment) }
{
    report.finding.moment as usize == moment
}

// Returns the first of some reports at a moment: of those at which the editor stops, if there is
// one.
fn first_at<'a>(
    reports: &'a [Report],
    filters: &[ExceptionFilter],
    moment: usize,
) -> Option<&'a Report>
    ensures listed { IfSome result (λ report. Contains reports.now report.now) }
    ensures at { IfSome result (λ report. report.now.finding.moment ≡ moment) }
{
    let wanted = reports.iter().find(|report| is_at(report, moment) && stops_at(filters, report));
    wanted.or(reports.iter().find(|report| is_at(report, moment)))
}

impl Model for Debuggee {
    ghost use Rattle.dap_session.specs.Runs.{RunState};

    ghost Value = { RunState };

    ghost view = { λ d. record {
      session = d.searched.session;
      watches = d.watches;
      marks = d.marks;
    } };
}

impl Debuggee {
    /// Returns a run that stops nowhere.
    pub(crate) fn new(
        alloc: Global,
        session: Session,
        base: Base,
        path: Text,
        map: Option<SourceMap>,
    ) -> Debuggee
        ensures { result ≡ record {
          session = session;
          watches = nothing;
          marks = record { breakpoints = []; findings = [] };
        } }
    {
        Debuggee {
            alloc,
            searched: Searched::new(alloc, session),
            base,
            path,
            map,
            wanted: Wanted::new(alloc),
            watches: Watches::new(alloc),
            marks: Marks {
                breakpoints: Moments::new(alloc),
                findings: Moments::new(alloc),
            },
        }
    }

    /// Returns what was launched.
    pub(crate) fn program(&self) -> Result<Program, AllocError> {
        let path = Text::new(self.alloc, self.path.as_str())?;
        match self.map {
            Some(_) => Ok(Program::Script(path)),
            None => Ok(Program::Trace(path)),
        }
    }

    pub(crate) fn walker(&self) -> &Walker
        ensures { result.now ≡ walk_of self.now }
    {
        self.searched.walker()
    }

    /// Searches the run for findings, unless that was done.
    pub(crate) fn search(&mut self) -> Result<(), AllocError>
        ensures { self.new ≡ self.old }
    {
        self.searched.search()
    }

    /// Returns the first finding at a moment, if the run was searched: of those at which the editor
    /// stops, if there is one.
    pub(crate) fn report_at(&self, moment: usize) -> Option<&Report>
        ensures { IfSome result (λ report. IsReportAt (walk_of self.now) moment report.now) }
    {
        let filters = self.wanted.filters.as_slice();
        first_at(self.searched.reports(), filters, moment)
    }

    /// Returns the instruction of a script at which the finding points at which the run stops at a
    /// moment. None if it points at the moment's event.
    pub(crate) fn pointed_at(&self, moment: usize) -> Option<ThreadStep>
        ensures stops { IfSome result (λ step. holds self.now.marks.findings moment ≡ true) }
        ensures points { IfSome result (IsPointedAt (walk_of self.now) moment) }
    {
        if self.map.is_none() || !holds(&self.marks.findings, moment) {
            return None;
        }
        self.report_at(moment)?.instruction()
    }
}
