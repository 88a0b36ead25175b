//! Reads a request.
ghost use Rattle.std.specs.Prelude.{◌≡◌, Some, option_map};
ghost use Rattle.serde_json.specs.View.{view};
ghost use Rattle.dap_messages.specs.Faults.{Gives};
ghost use Rattle.dap_messages.specs.Requests.{arguments_of, command_in, is_request, request_of, seq_in, text_in};
ghost use Rattle.dap_messages.specs.Values.{member_of};
ghost use Rattle.dap_messages.specs.declared.field.Field.TheVariants as field;
ghost use Rattle.dap_messages.specs.Views.{data_in};

use crate::arguments::{
    breakpoint_locations, completions, data_breakpoint_info, disassemble, evaluate, goto_targets,
    initialize, launch, read_memory, restart, set_breakpoints, stack_trace, step, variables,
};
use crate::command::Command;
use crate::fault::RequestFault;
use crate::field::Field;
use crate::found::Found;
use crate::items::items_at;
use crate::request::Request;
use serde_json::Value;
use std::alloc::Global;

// Reads the arguments of a command.
fn read_arguments(
    alloc: Global,
    command: Command,
    object: &Found<'_>,
) -> Result<Request, RequestFault>
    ensures { Gives result (arguments_of command (data_in object.now)) }
{
    let request = match command {
        Command::Initialize => Request::Initialize(initialize(object)?),
        Command::Launch => Request::Launch(launch(alloc, object)?),
        Command::ConfigurationDone => Request::ConfigurationDone,
        Command::Disconnect => Request::Disconnect,
        Command::Threads => Request::Threads,
        Command::StackTrace => Request::StackTrace(stack_trace(object)?),
        Command::Scopes => Request::Scopes(object.whole(Field::FrameId)?),
        Command::Variables => Request::Variables(variables(object)?),
        Command::Evaluate => Request::Evaluate(evaluate(alloc, object)?),
        Command::Next => Request::Next(step(object)?),
        Command::StepIn => Request::StepIn(step(object)?),
        Command::StepOut => Request::StepOut(step(object)?),
        Command::StepBack => Request::StepBack(step(object)?),
        Command::Continue => Request::Continue(object.whole(Field::ThreadId)?),
        Command::ReverseContinue => Request::ReverseContinue(object.whole(Field::ThreadId)?),
        Command::SetBreakpoints => Request::SetBreakpoints(set_breakpoints(alloc, object)?),
        Command::DataBreakpointInfo => {
            Request::DataBreakpointInfo(data_breakpoint_info(alloc, object)?)
        }
        Command::SetDataBreakpoints => {
            Request::SetDataBreakpoints(items_at(alloc, object, Field::Breakpoints)?)
        }
        Command::SetExceptionBreakpoints => {
            Request::SetExceptionBreakpoints(items_at(alloc, object, Field::Filters)?)
        }
        Command::ExceptionInfo => Request::ExceptionInfo(object.whole(Field::ThreadId)?),
        Command::ReadMemory => Request::ReadMemory(read_memory(alloc, object)?),
        Command::BreakpointLocations => {
            Request::BreakpointLocations(breakpoint_locations(alloc, object)?)
        }
        Command::Completions => Request::Completions(completions(alloc, object)?),
        Command::Restart => Request::Restart(restart(alloc, object)?),
        Command::GotoTargets => Request::GotoTargets(goto_targets(alloc, object)?),
        Command::Goto => {
            let thread = object.whole(Field::ThreadId)?;
            Request::Goto(thread, object.whole(Field::TargetId)?)
        }
        Command::Disassemble => Request::Disassemble(disassemble(alloc, object)?),
        Command::SetInstructionBreakpoints => {
            Request::SetInstructionBreakpoints(items_at(alloc, object, Field::Breakpoints)?)
        }
        Command::StepInTargets => Request::StepInTargets(object.whole(Field::FrameId)?),
        Command::SetFunctionBreakpoints => {
            Request::SetFunctionBreakpoints(items_at(alloc, object, Field::Breakpoints)?)
        }
        Command::Source => Request::Source(object.whole(Field::SourceReference)?),
        Command::LoadedSources => Request::LoadedSources,
    };
    Ok(request)
}

fn text_in<'a>(found: &Found<'a>) -> Option<&'a str>
    ensures { option_map (λ s. s.now) result ≡ text_in (data_in found.now) }
{
    match found.get() {
        Some(value) => value.as_str(),
        None => None,
    }
}

fn command_in(message: &Found<'_>) -> Option<Command>
    ensures { result ≡ command_in (data_in message.now) }
{
    match text_in(&message.member(Field::Command)) {
        Some(name) => Command::named(name),
        None => None,
    }
}

fn is_request(word: Option<&str>) -> bool
    ensures { result ≡ is_request (option_map (λ s. s.now) word.entry) }
{
    match word {
        Some(word) => word == "request",
        None => false,
    }
}

/// Returns the name of a message's command, if it has one.
pub fn command_name_in<'a>(message: &'a Value) -> Option<&'a str>
    ensures { option_map (λ s. s.now) result
        ≡ text_in (member_of field.Command (Some (view message.now))) }
{
    text_in(&Found::new(message).member(Field::Command))
}

/// Returns a message's number, or 0 if it has none.
pub fn seq_in(message: &Value) -> u64
    ensures { result ≡ seq_in (view message.now) }
{
    match Found::new(message).whole_or(Field::Seq, 0) {
        Ok(seq) => seq,
        Err(_) => 0,
    }
}

/// Reads a request. A member of the arguments that is null counts as missing.
pub fn read_request(alloc: Global, message: &Value) -> Result<Request, RequestFault>
    ensures { Gives result (request_of (view message.now)) }
{
    if !message.is_object() {
        return Err(RequestFault::NotAnObject);
    }
    let found = Found::new(message);
    if !is_request(text_in(&found.member(Field::Type))) {
        return Err(RequestFault::NotARequest);
    }
    let Some(command) = command_in(&found) else {
        return Err(RequestFault::UnknownCommand);
    };
    read_arguments(alloc, command, &found.member(Field::Arguments))
}
