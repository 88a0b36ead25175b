//! Frames as JSON, in the protocol's member names.
ghost use Rattle.std.specs.Prelude.{◌≡◌, IfOk, OnOk, option_map};
ghost use Rattle.std.specs.Option.{option_to_list};
ghost use Rattle.serde_json.specs.View.{members_view, view};
ghost use Rattle.dap_views.specs.Bodies.{counted, frame_data, list_data, stack_body, with_end, with_range, with_source, with_start};

use crate::editor_threads::thread_id;
use crate::frames::{Frame, SourceRange};
use crate::json::{Members, put_member, put_number, put_text};
use dap_messages::InitializeArguments;
use machine::Setup;
use serde_json::{Map, Value};
use source_map::Position;
use std::alloc::{AllocError, Global};

fn counted(number: usize, from_1: bool) -> u64
    ensures { result ≡ counted from_1 number }
{
    if from_1 {
        number as u64
    } else {
        number.saturating_sub(1) as u64
    }
}

// Adds the first line and column. Without a place in a source both are 0.
#[tactic(auto, unfolding(crate::specs::Bodies::with_start))]
fn put_start(
    alloc: Global,
    members: &mut Members,
    range: Option<SourceRange>,
    client: InitializeArguments,
) -> Result<(), AllocError>
    ensures { OnOk result (members_view members.new.entries
        ≡ with_start client range (members_view members.old.entries)) }
{
    let (line, column) = match range {
        Some(range) => (
            counted(range.start.line, client.lines_start_at_1),
            counted(range.start.column, client.columns_start_at_1),
        ),
        None => (0, 0),
    };
    put_number(alloc, members, "line", line)?;
    put_number(alloc, members, "column", column)
}

// Adds the line and the column of the end, if there is one.
#[tactic(auto, unfolding(crate::specs::Bodies::with_end))]
fn put_end(
    alloc: Global,
    members: &mut Members,
    end: Option<Position>,
    client: InitializeArguments,
) -> Result<(), AllocError>
    ensures { OnOk result (members_view members.new.entries
        ≡ with_end client end (members_view members.old.entries)) }
{
    let Some(end) = end else {
        return Ok(());
    };
    let line = counted(end.line, client.lines_start_at_1);
    let column = counted(end.column, client.columns_start_at_1);
    put_number(alloc, members, "endLine", line)?;
    put_number(alloc, members, "endColumn", column)
}

// Adds where a frame is in its source.
#[tactic(auto, unfolding(crate::specs::Bodies::with_range))]
fn put_range(
    alloc: Global,
    members: &mut Members,
    range: SourceRange,
    client: InitializeArguments,
) -> Result<(), AllocError>
    ensures { OnOk result (members_view members.new.entries
        ≡ with_range client range (members_view members.old.entries)) }
{
    put_start(alloc, members, Some(range), client)?;
    put_end(alloc, members, range.end, client)
}

// Adds the source, and where in it the frame is. A frame that is nowhere in it has no source.
#[tactic(auto, unfolding(crate::specs::Bodies::with_source))]
fn put_source(
    alloc: Global,
    members: &mut Members,
    range: Option<SourceRange>,
    source: Option<Value>,
    client: InitializeArguments,
) -> Result<(), AllocError>
    ensures { OnOk result (members_view members.new.entries
        ≡ with_source client range (option_map view source)
        (members_view members.old.entries)) }
{
    let Some(source) = source else {
        return put_start(alloc, members, None, client);
    };
    match range {
        Some(range) => {
            put_member(alloc, members, "source", source)?;
            put_range(alloc, members, range, client)
        }
        None => put_start(alloc, members, None, client),
    }
}

/// Returns a frame as JSON, with the source if the frame is somewhere in it.
#[tactic(auto, unfolding(crate::specs::Bodies::frame_data))]
pub fn frame_value(
    alloc: Global,
    setup: &Setup,
    frame: &Frame,
    source: Option<Value>,
    client: InitializeArguments,
) -> Result<Value, AllocError>
    ensures { IfOk result (λ v. view v
        ≡ frame_data client setup.now frame.now (option_map view source)) }
{
    let moment = frame.moment;
    let address = format!(in alloc; "{moment}")?;
    let mut members = Map::new(alloc);
    put_number(alloc, &mut members, "id", thread_id(setup, frame.thread))?;
    put_text(alloc, &mut members, "name", frame.name.as_slice())?;
    put_text(
        alloc,
        &mut members,
        "instructionPointerReference",
        address.as_bytes(),
    )?;
    put_source(alloc, &mut members, frame.range, source, client)?;
    Ok(Value::Object(members))
}

// Returns a list of at most one frame.
#[tactic(auto, unfolding(crate::specs::Bodies::list_data))]
fn frames_value(alloc: Global, frame: Option<Value>) -> Result<Value, AllocError>
    ensures { IfOk result (λ v. view v ≡ list_data (option_to_list (option_map view frame))) }
{
    let mut list = Vec::new(alloc);
    match frame {
        Some(frame) => {
            list.push(frame)?;
            Ok(Value::Array(list))
        }
        None => Ok(Value::Array(list)),
    }
}

/// Returns the body of the response to `stackTrace`: the frame of a thread, or none if it is not on
/// the requested page.
#[tactic(auto, unfolding(crate::specs::Bodies::stack_body))]
pub fn stack_body(alloc: Global, frame: Option<Value>) -> Result<Value, AllocError>
    ensures { IfOk result (λ v. view v ≡ stack_body (option_to_list (option_map view frame))) }
{
    let frames = frames_value(alloc, frame)?;
    let mut members = Map::new(alloc);
    put_member(alloc, &mut members, "stackFrames", frames)?;
    put_number(alloc, &mut members, "totalFrames", 1)?;
    Ok(Value::Object(members))
}
