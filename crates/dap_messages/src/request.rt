//! Requests and their arguments. The adapter ignores the other members of the arguments.

use crate::text::Text;
use places::Items;

/// How an editor counts lines and columns, and names files: "Initialize Request".
#[derive(Clone, Copy)]
pub struct InitializeArguments {
    pub lines_start_at_1: bool,
    pub columns_start_at_1: bool,
    /// Whether its paths are URIs.
    pub has_uris: bool,
}

/// What is debugged: the path of a script, or of a trace.
#[derive(Drop)]
pub enum Program {
    Script(Text),
    Trace(Text),
}

/// "Launch Request".
#[derive(Drop)]
pub struct LaunchArguments {
    pub program: Program,
    pub stop_on_entry: bool,
}

/// "Source": a file by its path, or a source that the adapter has.
#[derive(Drop)]
pub enum Source {
    Path(Text),
    Reference(u64),
}

/// "StackTrace Request". 0 levels are all of them.
#[derive(Clone, Copy)]
pub struct StackTraceArguments {
    pub thread: u64,
    pub start: u64,
    pub levels: u64,
}

/// The children of a container that are requested.
#[derive(Clone, Copy)]
pub enum Filter {
    All,
    Named,
    Indexed,
}

/// "Variables Request". A count of 0 is all of them.
#[derive(Clone, Copy)]
pub struct VariablesArguments {
    pub container: u64,
    pub filter: Filter,
    pub start: u64,
    pub count: u64,
}

/// Where an expression is evaluated.
#[derive(Clone, Copy)]
pub enum Context {
    Watch,
    Hover,
    Repl,
    Other,
}

/// "Evaluate Request".
#[derive(Drop)]
pub struct EvaluateArguments {
    pub expression: Text,
    pub context: Context,
}

/// "SteppingGranularity".
#[derive(Clone, Copy)]
pub enum Granularity {
    Statement,
    Line,
    Instruction,
}

/// "Next Request", "StepIn Request", "StepOut Request" and "StepBack Request".
#[derive(Clone, Copy)]
pub struct StepArguments {
    pub thread: u64,
    /// The target of a step in, if there is one.
    pub target: Option<u64>,
    pub granularity: Granularity,
}

/// "SourceBreakpoint".
#[derive(Drop)]
pub struct SourceBreakpoint {
    pub line: u64,
    pub column: Option<u64>,
    pub condition: Option<Text>,
}

/// "SetBreakpoints Request".
#[derive(Drop)]
pub struct SetBreakpointsArguments {
    pub source: Source,
    pub breakpoints: Items<SourceBreakpoint>,
}

/// "DataBreakpointInfo Request". Without a container, the name is an expression.
#[derive(Drop)]
pub struct DataBreakpointInfoArguments {
    pub container: Option<u64>,
    pub name: Text,
}

/// "DataBreakpoint": a breakpoint on the place with this identifier.
#[derive(Drop)]
pub struct DataBreakpoint {
    pub data: Text,
    pub condition: Option<Text>,
}

/// "FunctionBreakpoint".
#[derive(Drop)]
pub struct FunctionBreakpoint {
    pub name: Text,
    pub condition: Option<Text>,
}

/// The findings at which a run stops: "ExceptionBreakpointsFilter".
#[derive(Clone, Copy)]
pub enum ExceptionFilter {
    Faults,
    Notes,
}

/// "ReadMemory Request".
#[derive(Drop)]
pub struct ReadMemoryArguments {
    pub reference: Text,
    pub offset: i64,
    pub count: u64,
}

/// "BreakpointLocations Request".
#[derive(Drop)]
pub struct BreakpointLocationsArguments {
    pub source: Source,
    pub line: u64,
    pub column: Option<u64>,
    pub end_line: Option<u64>,
    pub end_column: Option<u64>,
}

/// "Completions Request".
#[derive(Drop)]
pub struct CompletionsArguments {
    pub text: Text,
    pub column: u64,
    pub line: Option<u64>,
}

/// "GotoTargets Request".
#[derive(Drop)]
pub struct GotoTargetsArguments {
    pub source: Source,
    pub line: u64,
    pub column: Option<u64>,
}

/// "Disassemble Request".
#[derive(Drop)]
pub struct DisassembleArguments {
    pub reference: Text,
    pub offset: i64,
    pub instruction_offset: i64,
    pub instruction_count: u64,
}

/// "InstructionBreakpoint".
#[derive(Drop)]
pub struct InstructionBreakpoint {
    pub reference: Text,
    pub offset: i64,
    pub condition: Option<Text>,
}

/// A request.
#[derive(Drop)]
pub enum Request {
    Initialize(InitializeArguments),
    Launch(LaunchArguments),
    ConfigurationDone,
    Disconnect,
    Threads,
    StackTrace(StackTraceArguments),
    /// The frame.
    Scopes(u64),
    Variables(VariablesArguments),
    Evaluate(EvaluateArguments),
    Next(StepArguments),
    StepIn(StepArguments),
    StepOut(StepArguments),
    StepBack(StepArguments),
    /// The thread.
    Continue(u64),
    /// The thread.
    ReverseContinue(u64),
    SetBreakpoints(SetBreakpointsArguments),
    DataBreakpointInfo(DataBreakpointInfoArguments),
    SetDataBreakpoints(Items<DataBreakpoint>),
    SetExceptionBreakpoints(Items<ExceptionFilter>),
    /// The thread.
    ExceptionInfo(u64),
    ReadMemory(ReadMemoryArguments),
    BreakpointLocations(BreakpointLocationsArguments),
    Completions(CompletionsArguments),
    /// New arguments of the launch, if there are some.
    Restart(Option<LaunchArguments>),
    GotoTargets(GotoTargetsArguments),
    /// The thread, and the target.
    Goto(u64, u64),
    Disassemble(DisassembleArguments),
    SetInstructionBreakpoints(Items<InstructionBreakpoint>),
    /// The frame.
    StepInTargets(u64),
    SetFunctionBreakpoints(Items<FunctionBreakpoint>),
    /// The source's reference.
    Source(u64),
    LoadedSources,
}
