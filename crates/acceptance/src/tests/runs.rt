//! A run all of whose steps are undone at once.
ghost use Rattle.std.specs.Prelude.{◌≡◌, length, OnOk};

use crate::tests::starting::{REQUEST_AND_STEP, walker_of};
use crate::tests::{ONE_NOP, check};
use inverse_log::Walker;
use machine::State;
use places::{Place, Value};
use std::alloc::Global;
use std::test::Fail;

fn number(state: &State, place: Place) -> Option<u64> {
    match state.value(place) {
        Some(Value::Number(number)) => Some(number),
        _ => None,
    }
}

fn go_to_the_end(walker: &mut Walker) -> Result<(), Fail>
    ensures { OnOk result (walker.new.at ≡ length walker.new.events) }
{
    walker.extend(&REQUEST_AND_STEP)?;
    let len = walker.len();
    walker.goto(len)?;
    Ok(())
}

// Returns the state after all steps of a run were undone from its end.
fn unwound(alloc: Global, walker: &Walker) -> Result<State, Fail>
    requires { walker.now.at ≡ length walker.now.events }
{
    let mut state = walker.state().copy(alloc)?;
    state.unwind(walker.records());
    Ok(state)
}

fn is_start(state: &State) -> bool {
    number(state, Place::CompletionHead) == Some(0)
        && number(state, Place::ProgramCounter(0)) == Some(0)
        && state.value(Place::Request(0)).is_none()
}

fn is_unwound(alloc: Global, walker: &mut Walker) -> Result<bool, Fail> {
    go_to_the_end(walker)?;
    let state = unwound(alloc, walker)?;
    Ok(number(walker.state(), Place::CompletionHead) == Some(1) && is_start(&state))
}

#[test]
fn runs_are_unwound(rt: HostRuntime) -> Result<(), Fail> {
    let mut walker = walker_of(rt.alloc(), ONE_NOP)?;
    let unwound = is_unwound(rt.alloc(), &mut walker)?;
    check(&rt, unwound);
    Ok(())
}
