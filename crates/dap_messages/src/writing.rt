//! Responses and events as JSON.
ghost use Rattle.std.specs.Prelude.{◌≡◌, IfOk, codes, option_map, false, true};
ghost use Rattle.serde_json.specs.Data.{object, member, no_members};
ghost use Rattle.serde_json.specs.View.{members_view, view};
ghost use Rattle.dap_messages.specs.Messages.{error_value, event_value, message_members, message_value, response_members, response_value, with_body};

use crate::members::{Members, set, set_text};
use serde_json::{Map, Value};
use std::alloc::{AllocError, Global};

// Returns the members of a message without a body.
fn message_members(alloc: Global, seq: u64, kind: &str) -> Result<Members, AllocError>
    ensures { IfOk result (λ m. members_view m.entries ≡ message_members seq kind.now) }
{
    let mut members = Map::new(alloc);
    set(alloc, &mut members, "seq", Value::from(seq))?;
    set_text(alloc, &mut members, "type", kind)?;
    Ok(members)
}

// Returns the members of a response without a body.
fn response_members(
    alloc: Global,
    seq: u64,
    request_seq: u64,
    command: &str,
    success: bool,
) -> Result<Members, AllocError>
    ensures { IfOk result (λ m. members_view m.entries
        ≡ response_members seq request_seq command.now success) }
{
    let mut members = message_members(alloc, seq, "response")?;
    set(alloc, &mut members, "request_seq", Value::from(request_seq))?;
    set(alloc, &mut members, "success", Value::Bool(success))?;
    set_text(alloc, &mut members, "command", command)?;
    Ok(members)
}

// Returns a message with its body, if it has one.
fn with_body(alloc: Global, mut members: Members, body: Option<Value>) -> Result<Value, AllocError>
    ensures { IfOk result (λ v. view v
        ≡ object (with_body (option_map view body) (members_view members.entries))) }
{
    let Some(body) = body else {
        return Ok(Value::Object(members));
    };
    set(alloc, &mut members, "body", body)?;
    Ok(Value::Object(members))
}

/// Returns the successful response to a request.
pub fn response(
    alloc: Global,
    seq: u64,
    request_seq: u64,
    command: &str,
    body: Option<Value>,
) -> Result<Value, AllocError>
    ensures { IfOk result (λ v. view v
        ≡ response_value seq request_seq command.now (option_map view body)) }
{
    let members = response_members(alloc, seq, request_seq, command, true)?;
    with_body(alloc, members, body)
}

// Returns a message for the user, as the member of a body.
fn error_body(alloc: Global, kind: u64, text: &str) -> Result<Value, AllocError>
    ensures { IfOk result (λ v. view v
        ≡ object (member (codes "error") (message_value kind text.now) no_members)) }
{
    let mut message = Map::new(alloc);
    set(alloc, &mut message, "id", Value::from(kind))?;
    set_text(alloc, &mut message, "format", text)?;
    set(alloc, &mut message, "showUser", Value::Bool(true))?;
    let mut body = Map::new(alloc);
    set(alloc, &mut body, "error", Value::Object(message))?;
    Ok(Value::Object(body))
}

/// Returns the response to a request that is refused, with a sentence, and the number of its kind.
pub fn error_response(
    alloc: Global,
    seq: u64,
    request_seq: u64,
    command: &str,
    kind: u64,
    text: &str,
) -> Result<Value, AllocError>
    ensures { IfOk result (λ v. view v
        ≡ error_value seq request_seq command.now kind text.now) }
{
    let mut members = response_members(alloc, seq, request_seq, command, false)?;
    set_text(alloc, &mut members, "message", text)?;
    let body = error_body(alloc, kind, text)?;
    with_body(alloc, members, Some(body))
}

/// Returns an event.
pub fn event(alloc: Global, seq: u64, name: &str, body: Option<Value>) -> Result<Value, AllocError>
    ensures { IfOk result (λ v. view v ≡ event_value seq name.now (option_map view body)) }
{
    let mut members = message_members(alloc, seq, "event")?;
    set_text(alloc, &mut members, "event", name)?;
    with_body(alloc, members, body)
}
