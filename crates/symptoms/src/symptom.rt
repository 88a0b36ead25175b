//! What a run is searched for, and where the run shows it.
ghost use Rattle.std.specs.Prelude.{◌≡◌};
ghost use Rattle.symptoms.specs.Symptoms.{is_of_device, is_among, is_wanted};

use finding_kinds::{EndedKind, Finding, Kind};
use places::{Place, Value};

/// Which findings are wanted.
#[derive(Clone, Copy)]
pub enum Wanted<'a> {
    /// Faults whose kind has the name of none of these. Failed and short requests aren't wanted
    /// either: those occur in a correct program too, because devices fail.
    FaultsBut(&'a [Kind]),
    /// Findings, also notes, whose kind has the name of one of these.
    Kinds(&'a [Kind]),
    /// Findings of this kind, with its verdict.
    Exactly(Kind),
}

/// A place, and the value that it is to have.
#[derive(Clone, Copy)]
pub struct Goal {
    pub place: Place,
    pub value: Value,
}

/// What a run is searched for.
#[derive(Clone, Copy)]
pub enum Symptom<'a> {
    /// A wanted finding.
    Finding(Wanted<'a>),
    /// A moment at which each of these places has its value, when one event earlier some place
    /// didn't. There is none if there are no goals.
    Reaches(&'a [Goal]),
}

/// The first moment at which a run shows a symptom.
#[derive(Clone, Copy)]
pub struct Sighting {
    pub moment: u32,
    /// The first wanted finding, or None if places take values.
    pub finding: Option<Finding>,
}

// Returns whether a correct program can have such findings.
fn is_of_device(kind: Kind) -> bool
    ensures { result ≡ is_of_device kind }
{
    matches!(kind, Kind::Ended(EndedKind::Failed | EndedKind::Short(_)))
}

// Returns whether a kind has one of the names of some kinds.
fn is_among(names: &[Kind], kind: Kind) -> bool
    ensures { result ≡ is_among names.now kind }
{
    names.iter().any(|name| name.has_name_of(kind))
}

impl Wanted<'_> {
    /// Returns whether findings of a kind are wanted.
    pub fn includes(&self, kind: Kind) -> bool
        ensures { result ≡ is_wanted self.now kind }
    {
        match self {
            Wanted::FaultsBut(names) => {
                kind.is_fault() && !is_of_device(kind) && !is_among(names, kind)
            }
            Wanted::Kinds(names) => is_among(names, kind),
            Wanted::Exactly(exact) => *exact == kind,
        }
    }
}
