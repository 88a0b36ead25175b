//! Makes a schedule short.
ghost use Rattle.std.specs.Prelude.{◌≡◌, ◌≤◌, None, length, IfOk, OnOk};
ghost use Rattle.machine.specs.Runs.{start, Accepts};
ghost use Rattle.scenario.specs.Setups.{setup_refusal};
ghost use Rattle.scenario.specs.declared.setup.Setup.{Setup};
ghost use Rattle.symptoms.specs.Symptoms.{IsSighting};
ghost use Rattle.shrinking.specs.Shrinking.{IsKept, narrowed, IsGoal, IsShrunk};

use crate::attempts::{Best, origins_of};
use crate::goal::Goal;
use crate::passes::{Edit, cut, halve, settle, try_each};
use finding_kinds::Finding;
use machine::{Event, Setup};
use prompt_order::is_prompt;
use sampling::{Program, keep_lock};
use std::alloc::{AllocError, Global};
use symptoms::{Sighting, Symptom, Wanted};

/// The greatest number of candidates.
const ATTEMPTS: u32 = 1000;

/// A short schedule that shows a symptom, and where it shows it.
#[derive(Drop)]
pub struct Shrunk {
    pub events: Vec<Event>,
    pub sighting: Sighting,
}

// Returns the symptom that is kept: the kind of the finding, with its verdict, or the values of
// places.
fn narrowed<'a>(symptom: &Symptom<'a>, finding: Option<Finding>) -> Symptom<'a>
    ensures { result ≡ narrowed symptom.now finding }
{
    match finding {
        Some(finding) => Symptom::Finding(Wanted::Exactly(finding.kind)),
        None => *symptom,
    }
}

// Returns what shrinking a run keeps.
fn goal_of<'a>(
    alloc: Global,
    program: &'a Program<'a>,
    events: &[Event],
    symptom: &Symptom<'a>,
    finding: Option<Finding>,
) -> Result<Goal<'a>, AllocError>
    requires { Accepts (start program.now) events.now }
    ensures { IfOk result (λ goal. (s : Setup) → program.now ≡ s
        → IsGoal s events.now symptom.now finding goal) }
{
    Ok(Goal {
        program,
        symptom: narrowed(symptom, finding),
        most: events.len(),
        keeps_lock: keep_lock(alloc, program, events)?,
        is_prompt: is_prompt(alloc, program.setup(), events)?,
    })
}

// Makes a schedule short by all passes.
fn pass(alloc: Global, goal: Goal<'_>, best: &mut Best) -> Result<(), AllocError>
    requires most { goal.most ≤ 1048576 }
    requires kept { IsKept goal best.old.events.items best.old.sighting }
    ensures { OnOk result (IsKept goal.entry best.new.events.items best.new.sighting) }
{
    cut(alloc, goal, best)?;
    halve(alloc, goal, best)?;
    try_each(alloc, goal, best, Edit::InFull)?;
    settle(alloc, goal, best)
}

/// Makes a schedule short, given the first sighting of a symptom in it. The short one shows a
/// finding of the same kind, with its verdict, or the same values of places. If no thread's step
/// comes between another's put, push and enter, none does in the short one. If the schedule is
/// prompt, so is the short one. Fails if an allocation fails.
#[tactic(auto, using(crate::proofs::Keeping::kept_first))]
pub fn shrink(
    alloc: Global,
    setup: &Setup,
    events: &[Event],
    symptom: &Symptom<'_>,
    sighting: Sighting,
) -> Result<Shrunk, AllocError>
    requires starts { setup_refusal setup.now ≡ None }
    requires most { length events.now ≤ 1048576 }
    requires runs { Accepts (start setup.now) events.now }
    requires sighting { IsSighting setup.now events.now symptom.now sighting }
    ensures { IfOk result
        (λ x. IsShrunk setup.now events.now symptom.now sighting x.events.items x.sighting) }
{
    let program = Program::new(alloc, setup)?;
    let goal = goal_of(alloc, &program, events, symptom, sighting.finding)?;
    let mut best = Best {
        events: events.to_vec(alloc)?,
        origins: origins_of(alloc, setup, events)?,
        sighting,
        attempts: ATTEMPTS,
    };
    pass(alloc, goal, &mut best)?;
    let Best {
        events,
        sighting,
        ..
    } = best;
    Ok(Shrunk { events, sighting })
}
