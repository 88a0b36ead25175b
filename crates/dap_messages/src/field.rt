//! The names of the members that messages have.
ghost use Rattle.std.specs.Prelude.{◌≡◌};
ghost use Rattle.dap_messages.specs.Fields.{field_name};

/// A member of a message, of a request's arguments, or of an object in them.
#[derive(Clone, Copy)]
pub enum Field {
    Arguments,
    Breakpoints,
    Column,
    Command,
    Condition,
    ColumnsStartAt1,
    Context,
    Count,
    DataId,
    EndColumn,
    EndLine,
    Expression,
    Filter,
    Filters,
    FrameId,
    Granularity,
    InstructionCount,
    InstructionOffset,
    InstructionReference,
    Levels,
    Line,
    LinesStartAt1,
    MemoryReference,
    Name,
    Offset,
    Path,
    PathFormat,
    Program,
    Seq,
    Source,
    SourceReference,
    Start,
    StartFrame,
    StopOnEntry,
    TargetId,
    Text,
    ThreadId,
    Trace,
    Type,
    VariablesReference,
}

impl Field {
    /// Returns its name in JSON.
    #[tactic(auto, unfolding(crate::specs::Fields::field_name))]
    pub fn name(self) -> &'static str
        ensures { result.now ≡ field_name self }
    {
        match self {
            Field::Arguments => "arguments",
            Field::Breakpoints => "breakpoints",
            Field::Column => "column",
            Field::Command => "command",
            Field::Condition => "condition",
            Field::ColumnsStartAt1 => "columnsStartAt1",
            Field::Context => "context",
            Field::Count => "count",
            Field::DataId => "dataId",
            Field::EndColumn => "endColumn",
            Field::EndLine => "endLine",
            Field::Expression => "expression",
            Field::Filter => "filter",
            Field::Filters => "filters",
            Field::FrameId => "frameId",
            Field::Granularity => "granularity",
            Field::InstructionCount => "instructionCount",
            Field::InstructionOffset => "instructionOffset",
            Field::InstructionReference => "instructionReference",
            Field::Levels => "levels",
            Field::Line => "line",
            Field::LinesStartAt1 => "linesStartAt1",
            Field::MemoryReference => "memoryReference",
            Field::Name => "name",
            Field::Offset => "offset",
            Field::Path => "path",
            Field::PathFormat => "pathFormat",
            Field::Program => "program",
            Field::Seq => "seq",
            Field::Source => "source",
            Field::SourceReference => "sourceReference",
            Field::Start => "start",
            Field::StartFrame => "startFrame",
            Field::StopOnEntry => "stopOnEntry",
            Field::TargetId => "targetId",
            Field::Text => "text",
            Field::ThreadId => "threadId",
            Field::Trace => "trace",
            Field::Type => "type",
            Field::VariablesReference => "variablesReference",
        }
    }
}
