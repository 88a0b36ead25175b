//! Messages of the Debug Adapter Protocol: requests with typed arguments, and responses and events
//! as JSON.
#![tactic(auto)]

mod arguments;
mod breakpoints;
mod command;
mod fault;
mod field;
mod found;
mod items;
mod members;
mod reading;
mod request;
mod text;
mod words;
mod writing;

pub use command::{COMMANDS, Command};
pub use fault::RequestFault;
pub use field::Field;
pub use found::Found;
pub use reading::{command_name_in, read_request, seq_in};
pub use request::{
    BreakpointLocationsArguments, CompletionsArguments, Context, DataBreakpoint,
    DataBreakpointInfoArguments, DisassembleArguments, EvaluateArguments, ExceptionFilter, Filter,
    FunctionBreakpoint, GotoTargetsArguments, Granularity, InitializeArguments,
    InstructionBreakpoint, LaunchArguments, Program, ReadMemoryArguments, Request,
    SetBreakpointsArguments, Source, SourceBreakpoint, StackTraceArguments, StepArguments,
    VariablesArguments,
};
pub use text::Text;
pub use writing::{error_response, event, response};
