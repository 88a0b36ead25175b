//! The requests that the adapter knows, by their names.
ghost use Rattle.std.specs.Prelude.{◌≡◌, find};
ghost use Rattle.std.specs.Str.{bytes_eq};
ghost use Rattle.dap_messages.specs.Commands.{command_name, command_named};

/// A request that the adapter knows.
#[derive(Clone, Copy)]
pub enum Command {
    Initialize,
    Launch,
    ConfigurationDone,
    Disconnect,
    Threads,
    StackTrace,
    Scopes,
    Variables,
    Evaluate,
    Next,
    StepIn,
    StepOut,
    StepBack,
    Continue,
    ReverseContinue,
    SetBreakpoints,
    DataBreakpointInfo,
    SetDataBreakpoints,
    SetExceptionBreakpoints,
    ExceptionInfo,
    ReadMemory,
    BreakpointLocations,
    Completions,
    Restart,
    GotoTargets,
    Goto,
    Disassemble,
    SetInstructionBreakpoints,
    StepInTargets,
    SetFunctionBreakpoints,
    Source,
    LoadedSources,
}

/// Every command.
pub const COMMANDS: [Command; 32] = [
    Command::Initialize,
    Command::Launch,
    Command::ConfigurationDone,
    Command::Disconnect,
    Command::Threads,
    Command::StackTrace,
    Command::Scopes,
    Command::Variables,
    Command::Evaluate,
    Command::Next,
    Command::StepIn,
    Command::StepOut,
    Command::StepBack,
    Command::Continue,
    Command::ReverseContinue,
    Command::SetBreakpoints,
    Command::DataBreakpointInfo,
    Command::SetDataBreakpoints,
    Command::SetExceptionBreakpoints,
    Command::ExceptionInfo,
    Command::ReadMemory,
    Command::BreakpointLocations,
    Command::Completions,
    Command::Restart,
    Command::GotoTargets,
    Command::Goto,
    Command::Disassemble,
    Command::SetInstructionBreakpoints,
    Command::StepInTargets,
    Command::SetFunctionBreakpoints,
    Command::Source,
    Command::LoadedSources,
];

impl Command {
    /// Returns its name.
    #[tactic(auto, unfolding(crate::specs::Commands::command_name))]
    pub fn name(self) -> &'static str
        ensures { result.now ≡ command_name self }
    {
        match self {
            Command::Initialize => "initialize",
            Command::Launch => "launch",
            Command::ConfigurationDone => "configurationDone",
            Command::Disconnect => "disconnect",
            Command::Threads => "threads",
            Command::StackTrace => "stackTrace",
            Command::Scopes => "scopes",
            Command::Variables => "variables",
            Command::Evaluate => "evaluate",
            Command::Next => "next",
            Command::StepIn => "stepIn",
            Command::StepOut => "stepOut",
            Command::StepBack => "stepBack",
            Command::Continue => "continue",
            Command::ReverseContinue => "reverseContinue",
            Command::SetBreakpoints => "setBreakpoints",
            Command::DataBreakpointInfo => "dataBreakpointInfo",
            Command::SetDataBreakpoints => "setDataBreakpoints",
            Command::SetExceptionBreakpoints => "setExceptionBreakpoints",
            Command::ExceptionInfo => "exceptionInfo",
            Command::ReadMemory => "readMemory",
            Command::BreakpointLocations => "breakpointLocations",
            Command::Completions => "completions",
            Command::Restart => "restart",
            Command::GotoTargets => "gotoTargets",
            Command::Goto => "goto",
            Command::Disassemble => "disassemble",
            Command::SetInstructionBreakpoints => "setInstructionBreakpoints",
            Command::StepInTargets => "stepInTargets",
            Command::SetFunctionBreakpoints => "setFunctionBreakpoints",
            Command::Source => "source",
            Command::LoadedSources => "loadedSources",
        }
    }

    fn is_named(self, name: &str) -> bool
        ensures { result ≡ bytes_eq (command_name self) name.now }
    {
        self.name() == name
    }

    /// Returns the command with a name.
    pub fn named(name: &str) -> Option<Command>
        ensures { result ≡ command_named name.now }
    {
        COMMANDS
            .iter()
            .copied()
            .find(|command| command.is_named(name))
    }
}
