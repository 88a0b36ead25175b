//! The bodies of responses as JSON, in the protocol's member names.
ghost use Rattle.std.specs.Prelude.{◌≡◌, IfOk, OnOk, map};
ghost use Rattle.serde_json.specs.View.{members_view, view};
ghost use Rattle.dap_views.specs.Bodies.{evaluate_body, is_byte, list_body, scope_data, scopes_body, thread_data, threads_body, variable_data, variables_body, with_children, with_expression, with_indexed, with_memory};

use crate::editor_threads::{thread_id, thread_name, threads};
use crate::json::{Members, put_list, put_member, put_number, put_text};
use crate::scope::{is_expensive, scope_name, scopes};
use dap_variables::{Container, Variable, count_of, reference_of};
use inverse_log::Walker;
use machine::{Setup, State};
use places::Place;
use serde_json::{Map, Value};
use std::alloc::{AllocError, Global};
use stops::EditorThread;

#[tactic(auto, unfolding(crate::specs::Bodies::thread_data))]
fn thread_value(alloc: Global, setup: &Setup, thread: EditorThread) -> Result<Value, AllocError>
    ensures { IfOk result (λ v. view v ≡ thread_data setup.now thread) }
{
    let mut members = Map::new(alloc);
    put_number(alloc, &mut members, "id", thread_id(setup, thread))?;
    put_text(
        alloc,
        &mut members,
        "name",
        thread_name(alloc, thread)?.as_slice(),
    )?;
    Ok(Value::Object(members))
}

// Returns an object with one list.
#[tactic(auto, unfolding(crate::specs::Bodies::list_body))]
fn list_value(alloc: Global, name: &str, list: Vec<Value>) -> Result<Value, AllocError>
    ensures { IfOk result (λ v. view v ≡ list_body name.now (map view list.items)) }
{
    let mut members = Map::new(alloc);
    put_list(alloc, &mut members, name, list)?;
    Ok(Value::Object(members))
}

/// Returns the body of the response to `threads`.
#[tactic(auto, unfolding(crate::specs::Bodies::threads_body))]
pub fn threads_body(alloc: Global, setup: &Setup) -> Result<Value, AllocError>
    ensures { IfOk result (λ v. view v ≡ threads_body setup.now) }
{
    let mut list = Vec::new(alloc);
    let all = threads(alloc, setup)?;
    for thread in all.as_slice() {
        list.push(thread_value(alloc, setup, *thread)?)?;
    }
    list_value(alloc, "threads", list)
}

#[tactic(auto, unfolding(crate::specs::Bodies::scope_data))]
fn scope_value(
    alloc: Global,
    setup: &Setup,
    state: &State,
    scope: Container,
) -> Result<Value, AllocError>
    ensures { IfOk result (λ v. view v ≡ scope_data setup.now state.now scope) }
{
    let mut members = Map::new(alloc);
    put_text(alloc, &mut members, "name", scope_name(scope).as_bytes())?;
    put_number(
        alloc,
        &mut members,
        "variablesReference",
        u64::from(reference_of(scope)),
    )?;
    put_member(
        alloc,
        &mut members,
        "expensive",
        Value::Bool(is_expensive(scope)),
    )?;
    put_indexed(alloc, &mut members, count_of(setup, state, scope))?;
    Ok(Value::Object(members))
}

// Adds how many numbered children there are, if there are some.
#[tactic(auto, unfolding(crate::specs::Bodies::with_indexed))]
fn put_indexed(alloc: Global, members: &mut Members, indexed: u32) -> Result<(), AllocError>
    ensures { OnOk result (members_view members.new.entries
        ≡ with_indexed indexed (members_view members.old.entries)) }
{
    if indexed > 0 {
        put_number(alloc, members, "indexedVariables", u64::from(indexed))?;
    }
    Ok(())
}

/// Returns the body of the response to `scopes` for the frame of a thread.
#[tactic(auto, unfolding(crate::specs::Bodies::scopes_body))]
pub fn scopes_body(
    alloc: Global,
    walker: &Walker,
    thread: EditorThread,
) -> Result<Value, AllocError>
    ensures { IfOk result (λ v. view v ≡ scopes_body walker.now thread) }
{
    let all = scopes(thread);
    let mut list = Vec::new(alloc);
    for scope in &all {
        list.push(scope_value(alloc, walker.setup(), walker.state(), *scope)?)?;
    }
    list_value(alloc, "scopes", list)
}

fn is_byte(place: Place) -> bool
    ensures { result ≡ is_byte place }
{
    matches!(
        place,
        Place::MemoryByte(_)
            | Place::FileByte(_, _)
            | Place::DurableByte(_, _)
            | Place::PipeByte(_, _)
    )
}

// Adds the reference of a variable's children, or 0.
#[tactic(auto, unfolding(crate::specs::Bodies::with_children))]
fn put_children(alloc: Global, members: &mut Members, variable: &Variable) -> Result<(), AllocError>
    ensures { OnOk result (members_view members.new.entries
        ≡ with_children variable.now (members_view members.old.entries)) }
{
    let reference = match variable.container {
        Some(container) => reference_of(container),
        None => 0,
    };
    put_number(alloc, members, "variablesReference", u64::from(reference))?;
    put_indexed(alloc, members, variable.indexed)
}

// Adds the name of a variable's place, if it has one.
#[tactic(auto, unfolding(crate::specs::Bodies::with_expression))]
fn put_expression(
    alloc: Global,
    members: &mut Members,
    variable: &Variable,
) -> Result<(), AllocError>
    ensures { OnOk result (members_view members.new.entries
        ≡ with_expression variable.now (members_view members.old.entries)) }
{
    if variable.place.is_none() {
        return Ok(());
    }
    put_text(alloc, members, "evaluateName", variable.name.as_slice())
}

// Adds the reference of the memory of a byte, which is the name of its place.
#[tactic(auto, unfolding(crate::specs::Bodies::with_memory))]
fn put_memory(alloc: Global, members: &mut Members, variable: &Variable) -> Result<(), AllocError>
    ensures { OnOk result (members_view members.new.entries
        ≡ with_memory variable.now (members_view members.old.entries)) }
{
    match variable.place {
        Some(place) if is_byte(place) => {
            put_text(alloc, members, "memoryReference", variable.name.as_slice())
        }
        _ => Ok(()),
    }
}

/// Returns a variable as JSON.
#[tactic(auto, unfolding(crate::specs::Bodies::variable_data))]
pub fn variable_value(alloc: Global, variable: &Variable) -> Result<Value, AllocError>
    ensures { IfOk result (λ v. view v ≡ variable_data variable.now) }
{
    let mut members = Map::new(alloc);
    // A map takes members in the order of their names in the least time.
    put_expression(alloc, &mut members, variable)?;
    put_memory(alloc, &mut members, variable)?;
    put_text(alloc, &mut members, "name", variable.name.as_slice())?;
    put_text(alloc, &mut members, "value", variable.value.as_slice())?;
    put_children(alloc, &mut members, variable)?;
    Ok(Value::Object(members))
}

/// Returns the body of the response to `variables`.
#[tactic(auto, unfolding(crate::specs::Bodies::variables_body))]
pub fn variables_body(alloc: Global, variables: &[Variable]) -> Result<Value, AllocError>
    ensures { IfOk result (λ v. view v ≡ variables_body variables.now) }
{
    let mut list = Vec::new(alloc);
    for variable in variables {
        list.push(variable_value(alloc, variable)?)?;
    }
    list_value(alloc, "variables", list)
}

/// Returns the body of the response to `evaluate`.
#[tactic(auto, unfolding(crate::specs::Bodies::evaluate_body))]
pub fn evaluate_body(alloc: Global, variable: &Variable) -> Result<Value, AllocError>
    ensures { IfOk result (λ v. view v ≡ evaluate_body variable.now) }
{
    let mut members = Map::new(alloc);
    put_text(alloc, &mut members, "result", variable.value.as_slice())?;
    put_memory(alloc, &mut members, variable)?;
    put_children(alloc, &mut members, variable)?;
    Ok(Value::Object(members))
}
