//! What a search looks for.
ghost use Rattle.std.specs.Prelude.{◌≡◌, ◌++◌, codes, All, Contains, IfOk, IfErr};
ghost use Rattle.std.specs.Bool.{MatchBool};
ghost use Rattle.commands.specs.Commands.{command_of};
ghost use Rattle.symptoms.specs.declared.symptom.Goal.{Goal};
ghost use Rattle.conclusions.specs.Conclusions.{goal_by, goal_of, Agree, Clash, AreGoals, IsFaultOf, IsUntilFault, symptom_of};

use crate::fault::UntilFault;
use commands::{Command, CommandFault, parse_line};
use finding_kinds::Kind;
use scenario::Setup;
use std::alloc::{AllocError, Global};
use symptoms::{Goal, Symptom, Wanted};

// Returns the place and the value of a `break` command.
fn goal_by(command: Command) -> Result<Goal, CommandFault>
    ensures { result ≡ goal_by command }
{
    match command {
        Command::Break(place, value) => Ok(Goal { place, value }),
        _ => Err(CommandFault::Command),
    }
}

// Returns the place and the value of a text, as the command `break` has them.
fn goal_of(
    alloc: Global,
    setup: &Setup,
    text: &str,
) -> Result<Result<Goal, CommandFault>, AllocError>
    ensures { IfOk result (λ goal. goal ≡ goal_of setup.now text.now) }
{
    let line = format!(in alloc; "break {text}")?;
    match parse_line(alloc, setup, line.as_str().as_bytes())? {
        Ok(command) => Ok(goal_by(command)),
        Err(fault) => Ok(Err(fault)),
    }
}

// Returns whether two goals have one place and two values.
fn clash(goal: &Goal, other: &Goal) -> bool
    ensures { MatchBool result (Clash goal.now other.now) (Agree goal.now other.now) }
{
    goal.place.equals(&other.place) && !goal.value.equals(&other.value)
}

// Returns whether one of some goals gives the place of another goal another value.
fn clashes(goals: &[Goal], goal: &Goal) -> bool
    ensures { MatchBool result ((g : Goal) × Contains goals.now g × Clash g goal.now)
        (All (λ g. Agree g goal.now) goals.now) }
{
    goals.iter().any(|earlier| clash(earlier, goal))
}

// Returns the goal of the text at an index, given the goals of the texts before.
fn next_goal(
    alloc: Global,
    setup: &Setup,
    goals: &[Goal],
    index: usize,
    text: &str,
) -> Result<Result<Goal, UntilFault>, AllocError>
    ensures goal { IfOk result (λ r. IfOk r (λ goal. goal_of setup.now text.now ≡ Ok goal)) }
    ensures agree { IfOk result (λ r. IfOk r (λ goal. All (λ g. Agree g goal) goals.now)) }
    ensures fault { IfOk result
        (λ r. IfErr r (IsFaultOf setup.now goals.now index text.now)) }
{
    match goal_of(alloc, setup, text)? {
        Ok(goal) if clashes(goals, &goal) => Ok(Err(UntilFault::Twice(index))),
        Ok(goal) => Ok(Ok(goal)),
        Err(fault) => Ok(Err(UntilFault::Command(fault))),
    }
}

/// Returns the goals of texts `P = V`, in order, each as the command `break` has it. Fails for the
/// first text that `break` refuses or whose place an earlier one gives another value.
pub fn goals_of(
    alloc: Global,
    setup: &Setup,
    until: &[&str],
) -> Result<Result<Vec<Goal>, UntilFault>, AllocError>
    ensures goals { IfOk result
        (λ r. IfOk r (λ goals. AreGoals setup.now until.now goals.items)) }
    ensures fault { IfOk result (λ r. IfErr r (IsUntilFault setup.now until.now)) }
{
    let mut goals = Vec::new(alloc);
    for (index, text) in until.iter().enumerate() {
        match next_goal(alloc, setup, &goals, index, text)? {
            Ok(goal) => goals.push(goal)?,
            Err(fault) => return Ok(Err(fault)),
        }
    }
    Ok(Ok(goals))
}

/// Returns what to look for: the goals if there are some, or findings of some kinds, or faults of
/// all kinds but those allowed if there are neither goals nor kinds.
pub fn symptom_of<'a>(goals: &'a [Goal], kinds: &'a [Kind], allowed: &'a [Kind]) -> Symptom<'a>
    ensures { result ≡ symptom_of goals.entry kinds.entry allowed.entry }
{
    if !goals.is_empty() {
        Symptom::Reaches(goals)
    } else if kinds.is_empty() {
        Symptom::Finding(Wanted::FaultsBut(allowed))
    } else {
        Symptom::Finding(Wanted::Kinds(kinds))
    }
}
