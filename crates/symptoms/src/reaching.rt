//! Looks for the first moment at which places take their values, while a run is stepped.
ghost use Rattle.std.specs.Prelude.{◌≡◌, ◌≤◌, ◌↔◌, IsTrue, Some, List, [], length, is_some};
ghost use Rattle.std.specs.Bool.{MatchBool};
ghost use Rattle.std.specs.List.{list_any};
ghost use Rattle.places.specs.View.{View, Exact, named};
ghost use Rattle.scenario.specs.declared.event.Event.{Event};
ghost use Rattle.scenario.specs.declared.setup.Setup.{Setup};
ghost use Rattle.machine.specs.Whole.{view};
ghost use Rattle.symptoms.specs.declared.symptom.Goal.{Goal};
ghost use Rattle.symptoms.specs.Symptoms.{HoldAll, Took};
ghost use Rattle.symptoms.specs.Reaching.{first_of, HasLooked};

use crate::symptom::Goal;
use machine::State;
use places::{Place, Record, Value};
use runs::{Observed, Observer};
use std::convert::Infallible;
use std::marker::{Brand, PhantomData};

/// The goals that are looked for, for proofs.
pub trait Sought {
    ghost goals: { List Goal };
}

impl Sought for Brand {
    ghost goals = { [] };
}

/// An observer that looks for the first moment at which all goals hold and one event earlier they
/// didn't.
#[derive(Drop)]
pub(crate) struct Lookout<'a, K> {
    goals: &'a [Goal],
    /// That moment, if it has come.
    pub reached: Option<u32>,
    proof: PhantomData<K>,
}

// Returns whether the event of a record brought the goals about. `state` is the state after that
// event. A record names exactly the places whose values differ, so values are read only if it names
// one of the goals' places.
fn took(state: &State, past: &Record, goals: &[Goal]) -> bool
    ensures { (old : View) → Exact old (view state.now) past.now
        → MatchBool result (Took old (view state.now) goals.now)
        (Took old (view state.now) goals.now → ⊥) }
{
    if names_one(past, goals) {
        return hold_all(state, goals);
    }
    false
}

// Returns whether a record names the place of one of the goals.
fn names_one(past: &Record, goals: &[Goal]) -> bool
    ensures { result ≡ list_any (λ goal. is_some (named past.now goal.place)) goals.now }
{
    goals.iter().any(|goal| past.names(goal.place))
}

// Returns whether the place of each goal has its value.
fn hold_all(state: &State, goals: &[Goal]) -> bool
    ensures { MatchBool result (HoldAll (view state.now) goals.now)
        (HoldAll (view state.now) goals.now → ⊥) }
{
    goals
        .iter()
        .all(|goal| has_value(state, goal.place, &goal.value))
}

fn has_value(state: &State, place: Place, value: &Value) -> bool
    ensures { IsTrue result ↔ (view state.now place ≡ Some value.now) }
{
    match state.value(place) {
        Some(here) => here.equals(value),
        None => false,
    }
}

// Returns the first moment of two: one found before, if any, and this one if the goals are reached
// then.
fn first_of(reached: Option<u32>, is_taken: bool, moment: u32) -> Option<u32>
    ensures { result ≡ first_of reached is_taken moment }
{
    match reached {
        Some(earlier) => Some(earlier),
        None if is_taken => Some(moment),
        None => None,
    }
}

impl<'a, K: Sought> Lookout<'a, K> {
    /// Returns an observer that has seen no event.
    #[tactic(auto, using(crate::proofs::Taking::looked_none))]
    pub(crate) fn new(goals: &'a [Goal]) -> Lookout<'a, K>
        requires { goals.now ≡ K.goals }
        ensures goals { result.goals.now ≡ K.goals }
        ensures looked { (s : Setup) (es : List Event) → length es ≤ 1048576
            → HasLooked s es 0 result.goals.now result.reached }
    {
        Lookout {
            goals,
            reached: None,
            proof: PhantomData,
        }
    }
}

impl<'a, K: Sought> Observer for Lookout<'a, K> {
    type Note = ();

    type Stop = Infallible;

    ghost has_seen = { λ o s es i. (o.goals.now ≡ K.goals)
        × HasLooked s es i o.goals.now o.reached };

    ghost notes = { λ s es i n. Unit {0} };

    ghost stops = { λ o s es i x. ⊥ };

    fn before(&self, _at: Observed<'_>) -> Result<(), Infallible> {
        Ok(())
    }

    fn after(&mut self, at: Observed<'_>, past: &Record, _note: ()) -> Result<(), Infallible> {
        let is_taken = took(at.state, past, self.goals);
        self.reached = first_of(self.reached, is_taken, at.index as u32 + 1);
        Ok(())
    }
}
