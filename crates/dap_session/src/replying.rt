//! Replies to the requests about a run.
ghost use Rattle.std.specs.Prelude.{◌≡◌, ◌⊎◌, IfOk, OnOk, OnErr, IfErr};
ghost use Rattle.dap_session.specs.Moves.{Evaluates, Moves, forward_moment, backward_moment, is_console, may_move};
ghost use Rattle.dap_session.specs.Runs.{gone_to};
ghost use Rattle.dap_session.specs.Shown.{Shows, ShowsValue};

use crate::debuggee::Debuggee;
use dap_answers::{Reason, Refusal, Reply};
use dap_messages::{Context, EvaluateArguments, Request};

// Returns whether an expression is a line of the console.
fn is_console(context: Context) -> bool
    ensures { result ≡ is_console context }
{
    match context {
        Context::Repl => true,
        Context::Watch | Context::Hover | Context::Other => false,
    }
}

/// Returns whether a request moves, or may move.
pub(crate) fn moves(request: &Request) -> bool
    ensures { result ≡ may_move request.now }
{
    match request {
        Request::Next(_)
        | Request::StepIn(_)
        | Request::StepOut(_)
        | Request::StepBack(_)
        | Request::Continue(_)
        | Request::ReverseContinue(_)
        | Request::Goto(_, _) => true,
        Request::Evaluate(arguments) => is_console(arguments.context),
        _ => false,
    }
}

impl Debuggee {
    // Replies to an expression: in the console to a line of commands, elsewhere to a place.
    fn reply_to_expression(&mut self, arguments: &EvaluateArguments) -> Result<Reply, Refusal>
        ensures moved { OnOk result
            (Evaluates self.old arguments.now.context arguments.now.expression self.new) }
        ensures shown { IfOk result (λ r. ShowsValue self.old arguments.now.context
            arguments.now.expression r.body) }
        ensures err { IfErr result (λ e. (self.new ≡ self.old) ⊎ (e ≡ Refusal.Memory)) }
    {
        let text = arguments.expression.as_str();
        match arguments.context {
            Context::Repl => self.console(text),
            Context::Watch | Context::Hover | Context::Other => self.evaluate(text),
        }
    }

    // Runs forward, by request of a thread.
    fn reply_to_continue(&mut self, thread: u64) -> Result<Reply, Refusal>
        ensures moved { OnOk result (self.new ≡ gone_to self.old (forward_moment self.old)) }
        ensures err { OnErr result (self.new ≡ self.old) }
    {
        let thread = self.thread(thread)?;
        self.run_on(thread)
    }

    // Runs back, by request of a thread.
    fn reply_to_reverse(&mut self, thread: u64) -> Result<Reply, Refusal>
        ensures moved { OnOk result (self.new ≡ gone_to self.old (backward_moment self.old)) }
        ensures err { OnErr result (self.new ≡ self.old) }
    {
        let thread = self.thread(thread)?;
        self.run_back(thread)
    }

    /// Replies to a request.
    pub(crate) fn reply(&mut self, request: Request) -> Result<Reply, Refusal>
        ensures moved { OnOk result (Moves self.old request self.new) }
        ensures shown { IfOk result (λ r. Shows self.old request r.body) }
        ensures err { IfErr result (λ e. (self.new ≡ self.old) ⊎ (e ≡ Refusal.Memory)) }
    {
        match request {
            Request::Threads => self.threads(),
            Request::StackTrace(arguments) => self.stack_trace(arguments),
            Request::Scopes(frame) => self.scopes(frame),
            Request::Variables(arguments) => self.variables(arguments),
            Request::Evaluate(arguments) => self.reply_to_expression(&arguments),
            Request::Next(arguments) | Request::StepOut(arguments) => self.next(arguments),
            Request::StepIn(arguments) => self.step_in(arguments),
            Request::StepBack(arguments) => self.step_back(arguments),
            Request::Continue(thread) => self.reply_to_continue(thread),
            Request::ReverseContinue(thread) => self.reply_to_reverse(thread),
            Request::SetBreakpoints(arguments) => self.set_breakpoints(arguments),
            Request::DataBreakpointInfo(arguments) => self.data_breakpoint_info(&arguments),
            Request::SetDataBreakpoints(wanted) => self.set_data(wanted),
            Request::SetExceptionBreakpoints(wanted) => self.set_exceptions(wanted),
            Request::ExceptionInfo(thread) => self.exception_info(thread),
            Request::ReadMemory(arguments) => self.read_memory(&arguments),
            Request::BreakpointLocations(arguments) => self.breakpoint_locations(&arguments),
            Request::Completions(arguments) => self.completions(&arguments),
            Request::GotoTargets(arguments) => self.goto_targets(&arguments),
            Request::Goto(thread, target) => self.goto(thread, target),
            Request::Disassemble(arguments) => self.disassemble(&arguments),
            Request::SetInstructionBreakpoints(wanted) => self.set_instructions(wanted),
            Request::StepInTargets(frame) => self.step_in_targets(frame),
            Request::SetFunctionBreakpoints(wanted) => self.set_functions(wanted),
            Request::Source(reference) => self.source(reference),
            Request::LoadedSources => self.loaded_sources(),
            Request::Initialize(_)
            | Request::Launch(_)
            | Request::ConfigurationDone
            | Request::Disconnect
            | Request::Restart(_) => Err(Refusal::Reason(Reason::AlreadyLaunched)),
        }
    }
}
