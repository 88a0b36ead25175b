//! The requests that move.
ghost use Rattle.std.specs.Prelude.{◌≡◌, ◌⊎◌, ◌<◌, IfOk, IfErr, OnOk, OnErr, is_some};
ghost use Rattle.dap_session.specs.Moves.{thread_at, next_moment, previous_moment, inner_moment, watched_moment, holds, cause_here, stays, forward_moment, backward_moment, commanded, started};
ghost use Rattle.dap_session.specs.Runs.{gone_to};

use crate::debuggee::Debuggee;
use crate::members::Members;
use dap_answers::{Events, Reason, Refusal, Reply};
use dap_messages::StepArguments;
use dap_views::{moment_ahead, moment_back, thread_id, thread_of};
use machine::Event;
use run_log::{change_lines, changes_of};
use script::EventText;
use serde_json::Value;
use std::alloc::{AllocError, Global};
use stops::{Cause, EditorThread, Landing, Moments, backward, forward, next_stop, record_of};
use watches::{Stop, earlier, later};

/// The number of the thread `run`.
const RUN: u64 = 1;

/// Why a run stopped, in the words of the protocol.
#[derive(Clone, Copy)]
pub(crate) enum Why {
    Entry,
    Step,
    Breakpoint,
    DataBreakpoint,
    Exception,
    Goto,
    /// At an end of the run.
    Pause,
}

impl Why {
    fn word(self) -> &'static str {
        match self {
            Why::Entry => "entry",
            Why::Step => "step",
            Why::Breakpoint => "breakpoint",
            Why::DataBreakpoint => "data breakpoint",
            Why::Exception => "exception",
            Why::Goto => "goto",
            Why::Pause => "pause",
        }
    }
}

fn why_of(cause: Cause) -> Why {
    match cause {
        Cause::Breakpoint => Why::Breakpoint,
        Cause::DataBreakpoint => Why::DataBreakpoint,
        Cause::Finding => Why::Exception,
        Cause::End => Why::Pause,
    }
}

// Returns the body of the response to a run.
fn all_continued(alloc: Global) -> Result<Value, AllocError> {
    let mut members = Members::new(alloc);
    members.flag("allThreadsContinued", true)?;
    Ok(members.finish())
}

// Returns the body of a `continued` event, for the thread `run`.
fn continued(alloc: Global) -> Result<Value, AllocError> {
    let mut members = Members::new(alloc);
    members.number("threadId", RUN)?;
    members.flag("allThreadsContinued", true)?;
    Ok(members.finish())
}

// Returns the thread that does an event.
fn thread_doing(event: Event) -> EditorThread {
    match event {
        Event::Step(thread) => EditorThread::Thread(thread),
        Event::Take(_) | Event::Sleep => EditorThread::Poller,
        Event::Issue(_) | Event::Finish(_, _) | Event::Expire(_) | Event::Tick(_) => {
            EditorThread::Kernel
        }
    }
}

// Returns the moment at which the watches stop a run, if they do.
fn watched_moment(stop: Stop) -> Option<usize>
    ensures { result ≡ watched_moment stop }
{
    match stop {
        Stop::Change(moment) | Stop::Met(moment) => Some(moment),
        Stop::Start | Stop::End => None,
    }
}

/// Returns whether a moment is one of some moments.
pub(crate) fn holds(moments: &Moments, moment: usize) -> bool
    ensures { result ≡ holds moments.now moment }
{
    moments.as_slice().iter().any(|held| *held == moment)
}

impl Debuggee {
    /// Returns the body of a `stopped` event.
    pub(crate) fn stopped(
        &self,
        why: Why,
        thread: EditorThread,
        text: Option<&str>,
    ) -> Result<Value, AllocError> {
        let mut members = Members::new(self.alloc);
        members.text("reason", why.word())?;
        members.number("threadId", thread_id(self.walker().setup(), thread))?;
        members.flag("allThreadsStopped", true)?;
        if let Some(text) = text {
            members.text("text", text)?;
        }
        Ok(members.finish())
    }

    // Returns the lines that the log has of the event before the position.
    fn stepped_text(&self) -> Result<Option<String>, AllocError> {
        let walker = self.searched.walker();
        let Some(index) = walker.at().checked_sub(1) else {
            return Ok(None);
        };
        let changes = changes_of(self.alloc, record_of(walker, index), walker.state())?;
        let event = EventText(walker.events()[index]);
        let mut text = format!(in self.alloc; "{index} {event}\n")?;
        for line in &change_lines(self.alloc, walker.setup(), &changes)? {
            let line = String::from_utf8_lossy(self.alloc, line.as_slice())?;
            text.push_str("  ")?;
            text.push_str(line.as_str())?;
            text.push_str("\n")?;
        }
        Ok(Some(text))
    }

    // Returns the body of the `output` event for the event before the position.
    fn stepped_output(&self) -> Result<Option<Value>, AllocError> {
        let Some(text) = self.stepped_text()? else {
            return Ok(None);
        };
        let mut members = Members::new(self.alloc);
        members.text("category", "console")?;
        members.text("output", text.as_str())?;
        Ok(Some(members.finish()))
    }

    // Returns the same, or none if an allocation fails.
    fn output(&self) -> Option<Value> {
        match self.stepped_output() {
            Ok(output) => output,
            Err(_) => None,
        }
    }

    // Moves to a moment, if the run has it. All but the log of the last event is built before, so
    // that a failed allocation changes nothing.
    fn go(&mut self, moment: usize, body: Option<Value>, stopped: Value) -> Result<Reply, Refusal>
        ensures moved { OnOk result (self.new ≡ gone_to self.old moment) }
        ensures err { OnErr result (self.new ≡ self.old) }
    {
        if self.walker().len() < moment {
            return Err(Refusal::Reason(Reason::NoTarget));
        }
        let is_forward = self.walker().at() < moment;
        self.searched.jump(moment)?;
        let output = if is_forward { self.output() } else { None };
        Ok(Reply {
            body,
            events: Events {
                initialized: false,
                continued: None,
                output,
                stopped: Some(stopped),
            },
        })
    }

    // Returns the thread of a request.
    pub(crate) fn thread(&self, number: u64) -> Result<EditorThread, Refusal>
        ensures { IfOk result (λ thread. thread ≡ thread_at self.now number) }
    {
        match thread_of(self.walker().setup(), number) {
            Some(thread) => Ok(thread),
            None => Err(Refusal::Reason(Reason::NoThread)),
        }
    }

    // Goes to a stop point of a thread.
    fn step_to(&mut self, thread: EditorThread, moment: usize) -> Result<Reply, Refusal>
        ensures moved { OnOk result (self.new ≡ gone_to self.old moment) }
        ensures err { OnErr result (self.new ≡ self.old) }
    {
        let is_end = moment == 0 || moment == self.walker().len();
        let why = if is_end { Why::Pause } else { Why::Step };
        let stopped = self.stopped(why, thread, None)?;
        self.go(moment, None, stopped)
    }

    /// Goes to the next stop point of a thread.
    pub(crate) fn next(&mut self, arguments: StepArguments) -> Result<Reply, Refusal>
        ensures moved { OnOk result
            (self.new ≡ gone_to self.old (next_moment self.old arguments)) }
        ensures err { OnErr result (self.new ≡ self.old) }
    {
        let thread = self.thread(arguments.thread)?;
        let moment = moment_ahead(self.walker(), thread, arguments.granularity);
        self.step_to(thread, moment)
    }

    /// Goes to the previous stop point of a thread.
    pub(crate) fn step_back(&mut self, arguments: StepArguments) -> Result<Reply, Refusal>
        ensures moved { OnOk result
            (self.new ≡ gone_to self.old (previous_moment self.old arguments)) }
        ensures err { OnErr result (self.new ≡ self.old) }
    {
        let thread = self.thread(arguments.thread)?;
        let moment = moment_back(self.walker(), thread, arguments.granularity);
        self.step_to(thread, moment)
    }

    /// Steps forward by one event, or to a target.
    pub(crate) fn step_in(&mut self, arguments: StepArguments) -> Result<Reply, Refusal>
        ensures moved { OnOk result
            (self.new ≡ gone_to self.old (inner_moment self.old arguments)) }
        ensures err { OnErr result (self.new ≡ self.old) }
    {
        let thread = self.thread(arguments.thread)?;
        let Some(target) = arguments.target else {
            let moment = next_stop(
                self.walker().events(),
                EditorThread::Run,
                self.walker().at(),
            );
            return self.step_to(thread, moment);
        };
        self.step_to(thread, target as usize)
    }

    /// Goes to a target.
    pub(crate) fn goto(&mut self, thread: u64, target: u64) -> Result<Reply, Refusal>
        ensures moved { OnOk result (self.new ≡ gone_to self.old target) }
        ensures err { OnErr result (self.new ≡ self.old) }
    {
        let thread = self.thread(thread)?;
        let stopped = self.stopped(Why::Goto, thread, None)?;
        self.go(target as usize, None, stopped)
    }

    // Returns the thread that an editor shows where a run stops: the one of the event in question,
    // unless it shows the whole run.
    fn shown(&self, thread: EditorThread, event: Option<usize>) -> EditorThread {
        match (thread, event) {
            (EditorThread::Run, _) | (_, None) => thread,
            (_, Some(index)) => match self.walker().events().get(index) {
                Some(event) => thread_doing(*event),
                None => thread,
            },
        }
    }

    // Returns the thread that an editor shows where a run stops: that of the instruction at which a
    // finding points, or else the given one.
    fn pointed_thread(&self, thread: EditorThread, landing: Landing) -> EditorThread {
        match (landing.cause, self.pointed_at(landing.moment)) {
            (Cause::Finding, Some(step)) => EditorThread::Thread(step.thread),
            _ => thread,
        }
    }

    // Returns the body of the `stopped` event of a run.
    fn landed(&self, thread: EditorThread, landing: Landing) -> Result<Value, AllocError> {
        let why = why_of(landing.cause);
        let thread = self.pointed_thread(thread, landing);
        let report = match landing.cause {
            Cause::Finding => self.report_at(landing.moment),
            _ => None,
        };
        let text = match report {
            Some(report) => Some(report.text.as_str()),
            None => None,
        };
        self.stopped(why, thread, text)
    }

    /// Runs forward.
    #[tactic(auto, using(crate::proofs::Watching::watched_later))]
    pub(crate) fn run_on(&mut self, thread: EditorThread) -> Result<Reply, Refusal>
        ensures moved { OnOk result (self.new ≡ gone_to self.old (forward_moment self.old)) }
        ensures err { OnErr result (self.new ≡ self.old) }
    {
        let body = all_continued(self.alloc)?;
        let walker = self.searched.walker();
        let watched = watched_moment(later(walker, &self.watches)?);
        let landing = forward(&self.marks, watched, walker.at(), walker.len());
        let event = match landing.cause {
            Cause::Breakpoint | Cause::Finding => Some(landing.moment),
            Cause::DataBreakpoint => landing.moment.checked_sub(1),
            Cause::End => None,
        };
        let stopped = self.landed(self.shown(thread, event), landing)?;
        self.go(landing.moment, Some(body), stopped)
    }

    /// Runs back.
    #[tactic(auto, using(crate::proofs::Watching::watched_earlier))]
    pub(crate) fn run_back(&mut self, thread: EditorThread) -> Result<Reply, Refusal>
        ensures moved { OnOk result (self.new ≡ gone_to self.old (backward_moment self.old)) }
        ensures err { OnErr result (self.new ≡ self.old) }
    {
        let walker = self.searched.walker();
        let watched = watched_moment(earlier(walker, &self.watches));
        let landing = backward(&self.marks, watched, walker.at());
        let event = match landing.cause {
            Cause::End => None,
            _ => Some(landing.moment),
        };
        let stopped = self.landed(self.shown(thread, event), landing)?;
        self.go(landing.moment, None, stopped)
    }

    // Returns why the run stops where it is, if a breakpoint or a finding is there.
    fn cause_here(&self) -> Option<Cause>
        ensures { result ≡ cause_here self.now }
    {
        let at = self.walker().at();
        if holds(&self.marks.breakpoints, at) {
            return Some(Cause::Breakpoint);
        }
        if holds(&self.marks.findings, at) {
            return Some(Cause::Finding);
        }
        None
    }

    // Returns the body of the `stopped` event of a run that starts, if it stops where it is.
    fn stopped_here(&self, stops_on_entry: bool) -> Result<Option<Value>, AllocError>
        ensures { IfOk result (λ stopped. is_some stopped ≡ stays self.now stops_on_entry) }
    {
        if stops_on_entry {
            return Ok(Some(self.stopped(Why::Entry, EditorThread::Run, None)?));
        }
        let Some(cause) = self.cause_here() else {
            return Ok(None);
        };
        let moment = self.walker().at();
        Ok(Some(self.landed(EditorThread::Run, Landing { moment, cause })?))
    }

    /// Stops at the start of the run, or runs on.
    pub(crate) fn start(&mut self, stops_on_entry: bool) -> Result<Events, Refusal>
        ensures moved { OnOk result (self.new ≡ started self.old stops_on_entry) }
        ensures err { OnErr result (self.new ≡ self.old) }
    {
        let Some(stopped) = self.stopped_here(stops_on_entry)? else {
            let Reply { events, .. } = self.run_on(EditorThread::Run)?;
            return Ok(events);
        };
        let mut events = Events::none();
        events.stopped = Some(stopped);
        Ok(events)
    }

    /// Replies to a line of the console.
    pub(crate) fn console(&mut self, line: &str) -> Result<Reply, Refusal>
        ensures moved { OnOk result (self.new ≡ commanded self.old line.now) }
        ensures err { IfErr result (λ e. (self.new ≡ self.old) ⊎ (e ≡ Refusal.Memory)) }
    {
        let stopped = self.stopped(Why::Goto, EditorThread::Run, None)?;
        let continued = continued(self.alloc)?;
        let before = self.walker().at();
        let text = self.searched.line(line.as_bytes())?;
        let has_moved = self.walker().at() != before;
        let text = String::from_utf8_lossy(self.alloc, text.as_slice())?;
        let mut members = Members::new(self.alloc);
        members.text("result", text.as_str().trim_end_matches('\n'))?;
        members.number("variablesReference", 0)?;
        let mut events = Events::none();
        if has_moved {
            events.continued = Some(continued);
            events.stopped = Some(stopped);
        }
        Ok(Reply {
            body: Some(members.finish()),
            events,
        })
    }
}
