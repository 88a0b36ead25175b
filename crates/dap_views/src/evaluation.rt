//! The values of expressions.
ghost use Rattle.std.specs.Prelude.{◌≡◌, IfOk};
ghost use Rattle.dap_views.specs.Evaluations.{evaluation, moment_variable, place_named};

use commands::{Command, parse_line};
use dap_variables::{Variable, bytes_of, place_variable, plain_variable};
use inverse_log::Walker;
use machine::Setup;
use places::{Items, Place};
use std::alloc::{AllocError, Global};

/// Returns the place that a text names in the words of the command `show`.
#[tactic(auto, unfolding(crate::specs::Evaluations::place_named))]
pub fn place_named(alloc: Global, setup: &Setup, text: &str) -> Result<Option<Place>, AllocError>
    ensures { IfOk result (λ place. place ≡ place_named setup.now text.now) }
{
    let line = format!(in alloc; "show {text}")?;
    match parse_line(alloc, setup, line.as_bytes())? {
        Ok(Command::Show(place)) => Ok(Some(place)),
        _ => Ok(None),
    }
}

// Returns the variable of the position.
fn moment_variable(alloc: Global, at: usize) -> Result<Variable, AllocError>
    ensures { IfOk result (λ v. v ≡ moment_variable at) }
{
    let value = format!(in alloc; "{at}")?;
    let name = bytes_of(alloc, "moment")?;
    Ok(plain_variable(name, Items::from_vec(value.into_bytes())))
}

/// Returns the value of an expression at the position: of a place, in the words of the command
/// `show`, or of `moment`, which is the position.
#[tactic(auto, unfolding(crate::specs::Evaluations::evaluation))]
pub fn evaluate(
    alloc: Global,
    walker: &Walker,
    expression: &str,
) -> Result<Option<Variable>, AllocError>
    ensures { IfOk result (λ v. v ≡ evaluation walker.now expression.now) }
{
    if expression == "moment" {
        return Ok(Some(moment_variable(alloc, walker.at())?));
    }
    match place_named(alloc, walker.setup(), expression)? {
        Some(place) => {
            let variable = place_variable(alloc, walker.setup(), walker.state(), place)?;
            Ok(Some(variable))
        }
        None => Ok(None),
    }
}
