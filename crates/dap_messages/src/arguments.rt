//! Reads the arguments of each request.
ghost use Rattle.std.specs.Prelude.{◌≡◌, Some};
ghost use Rattle.dap_messages.specs.Arguments.{breakpoint_locations, completions, data_breakpoint_info, disassemble, evaluate, goto_targets, initialize, launch, program_in, read_memory, restart, set_breakpoints, source_at, source_in, stack_trace, step, variables};
ghost use Rattle.dap_messages.specs.Faults.{Gives};
ghost use Rattle.dap_messages.specs.Values.{member_of};
ghost use Rattle.dap_messages.specs.Views.{data_in};

use crate::fault::RequestFault;
use crate::field::Field;
use crate::found::Found;
use crate::items::items_at;
use crate::request::{
    BreakpointLocationsArguments, CompletionsArguments, DataBreakpointInfoArguments,
    DisassembleArguments, EvaluateArguments, GotoTargetsArguments, InitializeArguments,
    LaunchArguments, Program, ReadMemoryArguments, SetBreakpointsArguments, Source,
    StackTraceArguments, StepArguments, VariablesArguments,
};
use crate::words::{context_at, filter_at, granularity_at, uris_at};
use std::alloc::Global;

pub fn initialize(object: &Found<'_>) -> Result<InitializeArguments, RequestFault>
    ensures { result ≡ initialize (data_in object.now) }
{
    let lines_start_at_1 = object.flag_or(Field::LinesStartAt1, true)?;
    let columns_start_at_1 = object.flag_or(Field::ColumnsStartAt1, true)?;
    let has_uris = uris_at(object)?;
    Ok(InitializeArguments {
        lines_start_at_1,
        columns_start_at_1,
        has_uris,
    })
}

// Reads the path of a script, or of a trace.
fn program_in(alloc: Global, object: &Found<'_>) -> Result<Program, RequestFault>
    ensures { Gives result (program_in (data_in object.now)) }
{
    let script = object.text_if_any(alloc, Field::Program)?;
    let trace = object.text_if_any(alloc, Field::Trace)?;
    match (script, trace) {
        (Some(path), None) => Ok(Program::Script(path)),
        (None, Some(path)) => Ok(Program::Trace(path)),
        _ => Err(RequestFault::BadArgument(Field::Program)),
    }
}

pub fn launch(alloc: Global, object: &Found<'_>) -> Result<LaunchArguments, RequestFault>
    ensures { Gives result (launch (data_in object.now)) }
{
    let program = program_in(alloc, object)?;
    let stop_on_entry = object.flag_or(Field::StopOnEntry, false)?;
    Ok(LaunchArguments {
        program,
        stop_on_entry,
    })
}

pub fn restart(alloc: Global, object: &Found<'_>) -> Result<Option<LaunchArguments>, RequestFault>
    ensures { Gives result (restart (data_in object.now)) }
{
    let found = object.member(Field::Arguments);
    if found.get().is_none() {
        return Ok(None);
    }
    let arguments = launch(alloc, &found)?;
    Ok(Some(arguments))
}

fn source_in(alloc: Global, object: &Found<'_>) -> Result<Source, RequestFault>
    ensures { Gives result (source_in (data_in object.now)) }
{
    let reference = object.whole_or(Field::SourceReference, 0)?;
    if reference > 0 {
        return Ok(Source::Reference(reference));
    }
    let path = object.text(alloc, Field::Path)?;
    Ok(Source::Path(path))
}

fn source_at(alloc: Global, object: &Found<'_>) -> Result<Source, RequestFault>
    ensures { Gives result (source_at (data_in object.now)) }
{
    source_in(alloc, &object.member(Field::Source))
}

pub fn stack_trace(object: &Found<'_>) -> Result<StackTraceArguments, RequestFault>
    ensures { result ≡ stack_trace (data_in object.now) }
{
    let thread = object.whole(Field::ThreadId)?;
    let start = object.whole_or(Field::StartFrame, 0)?;
    let levels = object.whole_or(Field::Levels, 0)?;
    Ok(StackTraceArguments {
        thread,
        start,
        levels,
    })
}

pub fn variables(object: &Found<'_>) -> Result<VariablesArguments, RequestFault>
    ensures { result ≡ variables (data_in object.now) }
{
    let container = object.whole(Field::VariablesReference)?;
    let filter = filter_at(object)?;
    let start = object.whole_or(Field::Start, 0)?;
    let count = object.whole_or(Field::Count, 0)?;
    Ok(VariablesArguments {
        container,
        filter,
        start,
        count,
    })
}

pub fn evaluate(alloc: Global, object: &Found<'_>) -> Result<EvaluateArguments, RequestFault>
    ensures { Gives result (evaluate (data_in object.now)) }
{
    let context = context_at(object)?;
    let expression = object.text(alloc, Field::Expression)?;
    Ok(EvaluateArguments {
        expression,
        context,
    })
}

pub fn step(object: &Found<'_>) -> Result<StepArguments, RequestFault>
    ensures { result ≡ step (data_in object.now) }
{
    let thread = object.whole(Field::ThreadId)?;
    let target = object.whole_if_any(Field::TargetId)?;
    let granularity = granularity_at(object)?;
    Ok(StepArguments {
        thread,
        target,
        granularity,
    })
}

pub fn set_breakpoints(
    alloc: Global,
    object: &Found<'_>,
) -> Result<SetBreakpointsArguments, RequestFault>
    ensures { Gives result (set_breakpoints (data_in object.now)) }
{
    let source = source_at(alloc, object)?;
    let breakpoints = items_at(alloc, object, Field::Breakpoints)?;
    Ok(SetBreakpointsArguments {
        source,
        breakpoints,
    })
}

pub fn data_breakpoint_info(
    alloc: Global,
    object: &Found<'_>,
) -> Result<DataBreakpointInfoArguments, RequestFault>
    ensures { Gives result (data_breakpoint_info (data_in object.now)) }
{
    let container = object.whole_if_any(Field::VariablesReference)?;
    let name = object.text(alloc, Field::Name)?;
    Ok(DataBreakpointInfoArguments { container, name })
}

pub fn read_memory(alloc: Global, object: &Found<'_>) -> Result<ReadMemoryArguments, RequestFault>
    ensures { Gives result (read_memory (data_in object.now)) }
{
    let reference = object.text(alloc, Field::MemoryReference)?;
    let offset = object.integer_or_zero(Field::Offset)?;
    let count = object.whole(Field::Count)?;
    Ok(ReadMemoryArguments {
        reference,
        offset,
        count,
    })
}

pub fn breakpoint_locations(
    alloc: Global,
    object: &Found<'_>,
) -> Result<BreakpointLocationsArguments, RequestFault>
    ensures { Gives result (breakpoint_locations (data_in object.now)) }
{
    let source = source_at(alloc, object)?;
    let line = object.whole(Field::Line)?;
    let column = object.whole_if_any(Field::Column)?;
    let end_line = object.whole_if_any(Field::EndLine)?;
    let end_column = object.whole_if_any(Field::EndColumn)?;
    Ok(BreakpointLocationsArguments {
        source,
        line,
        column,
        end_line,
        end_column,
    })
}

pub fn completions(alloc: Global, object: &Found<'_>) -> Result<CompletionsArguments, RequestFault>
    ensures { Gives result (completions (data_in object.now)) }
{
    let text = object.text(alloc, Field::Text)?;
    let column = object.whole(Field::Column)?;
    let line = object.whole_if_any(Field::Line)?;
    Ok(CompletionsArguments { text, column, line })
}

pub fn goto_targets(alloc: Global, object: &Found<'_>) -> Result<GotoTargetsArguments, RequestFault>
    ensures { Gives result (goto_targets (data_in object.now)) }
{
    let source = source_at(alloc, object)?;
    let line = object.whole(Field::Line)?;
    let column = object.whole_if_any(Field::Column)?;
    Ok(GotoTargetsArguments {
        source,
        line,
        column,
    })
}

pub fn disassemble(alloc: Global, object: &Found<'_>) -> Result<DisassembleArguments, RequestFault>
    ensures { Gives result (disassemble (data_in object.now)) }
{
    let reference = object.text(alloc, Field::MemoryReference)?;
    let offset = object.integer_or_zero(Field::Offset)?;
    let instruction_offset = object.integer_or_zero(Field::InstructionOffset)?;
    let instruction_count = object.whole(Field::InstructionCount)?;
    Ok(DisassembleArguments {
        reference,
        offset,
        instruction_offset,
        instruction_count,
    })
}
