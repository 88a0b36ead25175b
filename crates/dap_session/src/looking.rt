//! The requests that show a moment of the run.
ghost use Rattle.std.specs.Prelude.{◌≡◌, ◌==◌, IfOk, option_map};
ghost use Rattle.serde_json.specs.View.{view};
ghost use Rattle.dap_views.specs.Bodies.{evaluate_body, scopes_body, threads_body};
ghost use Rattle.dap_views.specs.Evaluations.{evaluation};
ghost use Rattle.dap_session.specs.Moves.{thread_at};
ghost use Rattle.dap_session.specs.Runs.{walk_of};
ghost use Rattle.dap_session.specs.Shown.{IsBody, IsFrame, IsShown, ShowsStack, ShowsVariables};

use crate::debuggee::Debuggee;
use crate::members::{Members, object_of};
use dap_answers::{Reason, Refusal, Reply};
use dap_messages::{DataBreakpointInfoArguments, StackTraceArguments, VariablesArguments};
use dap_views::{
    Frame, Page, container_of, evaluate, evaluate_body, frame_at, frame_of, frame_value,
    place_named, scopes_body, stack_body, threads_body, variables, variables_body,
};
use machine::Event;
use serde_json::Value;
use std::alloc::{AllocError, Global};
use stops::EditorThread;

/// How many targets of a step in are offered at most.
const MOST_TARGETS: usize = 64;

// Returns the body about a data breakpoint on a place, or that there can be none.
fn data_info(alloc: Global, words: Option<&str>) -> Result<Value, AllocError> {
    let mut members = Members::new(alloc);
    let Some(words) = words else {
        members.add("dataId", Value::Null)?;
        members.text("description", "no place")?;
        return Ok(members.finish());
    };
    members.text("dataId", words)?;
    members.text("description", words)?;
    members.add("accessTypes", Value::Array(write_only(alloc)?))?;
    members.flag("canPersist", true)?;
    Ok(members.finish())
}

// Returns the list of the only kind of access that stops a run.
fn write_only(alloc: Global) -> Result<Vec<Value>, AllocError> {
    let mut list = Vec::new(alloc);
    list.push(Value::try_from_str(alloc, "write")?)?;
    Ok(list)
}

// Returns a target of a step in: the moment after a completion.
fn step_target(alloc: Global, moment: usize, row: u32) -> Result<Value, AllocError> {
    let label = format!(in alloc; "row {row} completes")?;
    let mut members = Members::new(alloc);
    members.number("id", moment as u64)?;
    members.text("label", label.as_str())?;
    Ok(members.finish())
}

// Returns the moments after the next completions.
fn step_targets(alloc: Global, events: &[Event], at: usize) -> Result<Vec<Value>, AllocError> {
    let mut targets = Vec::new(alloc);
    for (index, event) in events.iter().enumerate() {
        if at <= index && targets.len() < MOST_TARGETS {
            if let Event::Finish(row, _) = event {
                targets.push(step_target(alloc, index + 1, *row)?)?;
            }
        }
    }
    Ok(targets)
}

impl Debuggee {
    pub(crate) fn threads(&self) -> Result<Reply, Refusal>
        ensures { IfOk result (λ r. IsBody r.body (threads_body (walk_of self.now).setup)) }
    {
        Ok(Reply::of(Some(threads_body(self.alloc, self.walker().setup())?)))
    }

    // Returns the thread of a frame.
    fn frame_thread(&self, frame: u64) -> Result<EditorThread, Refusal>
        ensures { IfOk result (λ thread. thread ≡ thread_at self.now frame) }
    {
        match self.thread(frame) {
            Ok(thread) => Ok(thread),
            Err(_) => Err(Refusal::Reason(Reason::NoFrame)),
        }
    }

    // Returns what a thread does next, or its instruction at which a finding points where the run
    // stops at it.
    fn shown_frame(&self, thread: EditorThread) -> Result<Frame, AllocError>
        ensures { IfOk result (IsShown self.now thread) }
    {
        let (walker, map) = (self.walker(), self.map.as_ref());
        match (thread, self.pointed_at(walker.at())) {
            (EditorThread::Thread(number), Some(step)) if number == step.thread => {
                frame_at(self.alloc, walker, number, step.instruction as usize, map)
            }
            _ => frame_of(self.alloc, walker, thread, map),
        }
    }

    // Returns the frame of a thread.
    fn frame(&self, thread: EditorThread) -> Result<Value, AllocError>
        ensures { IfOk result (λ frame. IsFrame self.now thread (view frame)) }
    {
        let walker = self.walker();
        let frame = self.shown_frame(thread)?;
        let source = if self.has_source() {
            Some(self.source_value()?)
        } else {
            None
        };
        frame_value(self.alloc, walker.setup(), &frame, source, self.base.client)
    }

    pub(crate) fn stack_trace(&self, arguments: StackTraceArguments) -> Result<Reply, Refusal>
        ensures { IfOk result (λ r. ShowsStack (arguments.start == 0) self.now
            (thread_at self.now arguments.thread) r.body) }
    {
        let thread = self.thread(arguments.thread)?;
        let frame = if arguments.start == 0 {
            Some(self.frame(thread)?)
        } else {
            None
        };
        Ok(Reply::of(Some(stack_body(self.alloc, frame)?)))
    }

    pub(crate) fn scopes(&self, frame: u64) -> Result<Reply, Refusal>
        ensures { IfOk result (λ r. IsBody r.body
            (scopes_body (walk_of self.now) (thread_at self.now frame))) }
    {
        let thread = self.frame_thread(frame)?;
        Ok(Reply::of(Some(scopes_body(self.alloc, self.walker(), thread)?)))
    }

    pub(crate) fn variables(&mut self, arguments: VariablesArguments) -> Result<Reply, Refusal>
        ensures same { self.new ≡ self.old }
        ensures shown { IfOk result (λ r. ShowsVariables self.old arguments r.body) }
    {
        let Some(container) = container_of(arguments.container) else {
            return Err(Refusal::Reason(Reason::NoContainer));
        };
        self.searched.search_for(container)?;
        let page = Page {
            filter: arguments.filter,
            start: arguments.start,
            count: arguments.count,
        };
        let reports = self.searched.reports();
        let found = variables(self.alloc, self.walker(), reports, container, page)?;
        let body = variables_body(self.alloc, found.as_slice())?;
        Ok(Reply::of(Some(body)))
    }

    pub(crate) fn evaluate(&self, expression: &str) -> Result<Reply, Refusal>
        ensures { IfOk result (λ r. option_map view r.body
            ≡ option_map evaluate_body (evaluation (walk_of self.now) expression.now)) }
    {
        match evaluate(self.alloc, self.walker(), expression)? {
            Some(variable) => Ok(Reply::of(Some(evaluate_body(self.alloc, &variable)?))),
            None => Err(Refusal::Reason(Reason::NoPlace)),
        }
    }

    pub(crate) fn data_breakpoint_info(
        &self,
        arguments: &DataBreakpointInfoArguments,
    ) -> Result<Reply, Refusal> {
        let words = arguments.name.as_str();
        let body = match place_named(self.alloc, self.walker().setup(), words)? {
            Some(_) => data_info(self.alloc, Some(words))?,
            None => data_info(self.alloc, None)?,
        };
        Ok(Reply::of(Some(body)))
    }

    pub(crate) fn exception_info(&mut self, thread: u64) -> Result<Reply, Refusal>
        ensures { self.new ≡ self.old }
    {
        self.thread(thread)?;
        self.search()?;
        let Some(report) = self.report_at(self.walker().at()) else {
            return Err(Refusal::Reason(Reason::NoFinding));
        };
        let mut members = Members::new(self.alloc);
        members.text("exceptionId", report.finding.kind.word())?;
        members.text("description", report.text.as_str())?;
        members.text("breakMode", "always")?;
        Ok(Reply::of(Some(members.finish())))
    }

    pub(crate) fn step_in_targets(&self, frame: u64) -> Result<Reply, Refusal> {
        self.frame_thread(frame)?;
        let walker = self.walker();
        let targets = step_targets(self.alloc, walker.events(), walker.at())?;
        Ok(Reply::of(Some(object_of(self.alloc, "targets", targets)?)))
    }
}
