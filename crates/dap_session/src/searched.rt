//! A run that is debugged, and its findings.
ghost use Rattle.std.specs.Prelude.{◌≡◌, ◌≤◌, None, [], length, IfOk, OnOk, OnErr, true, false};
ghost use Rattle.inverse_log.specs.Walks.{jumped};
ghost use Rattle.debug_server.specs.Replies.{reply};
ghost use Rattle.debug_server.specs.SessionStates.{walked_to};
ghost use Rattle.dap_session.specs.Searches.{AreReportsOf};

use dap_views::Container;
use debug_server::Session;
use explanations::{Report, reports_of};
use findings::search_run;
use inverse_log::Walker;
use machine::State;
use sentences::Run;
use std::alloc::{AllocError, Global};
use std::marker::Model;

/// A session over a run, and the findings of the run once something needs them.
pub(crate) struct Searched {
    alloc: Global,
    session: Session,
    reports: Option<Vec<Report>>,
}

// Written by hand, so that dropping it is one step of a proof.
impl Drop for Searched {
    fn drop(self) {
        let Searched {
            alloc: _,
            session: _,
            reports: _,
        } = self;
    }
}

impl Model for Searched {
    ghost use Rattle.std.specs.Prelude.{is_some, option_map};
    ghost use Rattle.dap_session.specs.Searches.{AreReportsIfAny, SearchState};

    ghost Value = { SearchState };

    ghost view = { λ s. record { session = s.session; is_searched = is_some s.reports } };

    ghost invariant = { λ s. AreReportsIfAny s.session.state.walk
        (option_map (λ rs. rs.items) s.reports) };
}

// Runs a run again, and returns its findings.
fn reports_on(alloc: Global, walker: &Walker) -> Result<Vec<Report>, AllocError>
    ensures { IfOk result (λ reports. AreReportsOf walker.now reports.items) }
{
    // For the proof: how many events a run has at most.
    let _len = walker.len();
    let (setup, events) = (walker.setup(), walker.events());
    let Ok(mut state) = State::new(alloc, setup) else {
        return Err(AllocError);
    };
    let Ok(found) = search_run(alloc, &mut state, setup, events) else {
        return Err(AllocError);
    };
    let run = Run {
        setup,
        state: &state,
        events,
        history: &found.history,
        found: &found.findings,
    };
    reports_of(alloc, &run)
}

impl Searched {
    /// Returns a run that wasn't searched.
    pub(crate) fn new(alloc: Global, session: Session) -> Searched
        ensures { result ≡ record { session = session; is_searched = false } }
    {
        Searched {
            alloc,
            session,
            reports: None,
        }
    }

    pub(crate) fn walker(&self) -> &Walker
        ensures { result.now ≡ self.now.session.state.walk }
    {
        self.session.walker()
    }

    /// Jumps to a moment.
    pub(crate) fn jump(&mut self, moment: usize) -> Result<(), AllocError>
        requires { moment ≤ length self.old.session.state.walk.events }
        ensures moved { OnOk result (self.new.session
            ≡ record {
              state =
                  walked_to self.old.session.state (jumped self.old.session.state.walk moment);
              is_closed = self.old.session.is_closed;
            }) }
        ensures err { OnErr result (self.new.session ≡ self.old.session) }
    {
        self.session.jump(moment)
    }

    /// Replies to a line of the console. No line changes the events of a run without a source.
    pub(crate) fn line(&mut self, line: &[u8]) -> Result<Vec<u8>, AllocError>
        ensures next { OnOk result (self.new.session
            ≡ record {
              state = (reply self.old.session.state line.now None).next;
              is_closed = self.old.session.is_closed;
            }) }
        ensures err { OnErr result (self.new.session ≡ self.old.session) }
    {
        self.session.line(line, None)
    }

    /// Searches the run for findings, unless that was done.
    pub(crate) fn search(&mut self) -> Result<(), AllocError>
        ensures same { self.new.session ≡ self.old.session }
        ensures searched { OnOk result (self.new.is_searched ≡ true) }
    {
        if self.reports.is_none() {
            self.reports = Some(reports_on(self.alloc, self.session.walker())?);
        }
        Ok(())
    }

    /// Searches the run, if a container lists its findings.
    pub(crate) fn search_for(&mut self, container: Container) -> Result<(), AllocError>
        ensures same { self.new.session ≡ self.old.session }
        ensures searched { OnOk result (container ≡ Container.Findings
            → self.new.is_searched ≡ true) }
    {
        match container {
            Container::Findings => self.search(),
            _ => Ok(()),
        }
    }

    /// Returns the findings, or none if the run wasn't searched.
    pub(crate) fn reports(&self) -> &[Report]
        ensures searched { self.now.is_searched ≡ true
            → AreReportsOf self.now.session.state.walk result.now }
        ensures unsearched { self.now.is_searched ≡ false → result.now ≡ [] }
    {
        match &self.reports {
            Some(reports) => reports.as_slice(),
            None => &[],
        }
    }
}
