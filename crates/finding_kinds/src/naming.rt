//! Kinds by their names.
ghost use Rattle.std.specs.Prelude.{◌≡◌};
ghost use Rattle.finding_kinds.specs.{Kinds.first_named, Orders.have_one_name};

use crate::kind::{
    CancelKind, ConflictKind, EndedKind, Kind, LastingKind, LeftKind, QueuedKind, StepKind, Verdict,
};

// Returns the first kind of a group with this name.
fn named<K: Copy, F: Fn(K) -> Kind>(kinds: &[K], whole: F, word: &str) -> Option<Kind>
    requires { F.IsAlwaysCallable whole }
{
    for kind in kinds {
        let kind = whole(*kind);
        if kind.word() == word {
            return Some(kind);
        }
    }
    None
}

impl Kind {
    /// Returns the first kind with this name, or None.
    pub fn of_word(word: &str) -> Option<Kind> {
        named(&EndedKind::ALL, Kind::Ended, word)
            .or(named(&[Kind::Overflow], |kind| kind, word))
            .or(named(&LastingKind::ALL, Kind::Lasting, word))
            .or(named(&LeftKind::ALL, Kind::Left, word))
            .or(named(&ConflictKind::ALL, Kind::Conflict, word))
            .or(named(&StepKind::ALL, Kind::Step, word))
            .or(named(&QueuedKind::ALL, Kind::Queued, word))
            .or(named(&CancelKind::ALL, Kind::Cancel, word))
            .or(named(&[Kind::FsyncRetried], |kind| kind, word))
    }

    fn first_named(self) -> Kind
        ensures { result ≡ first_named self }
    {
        match self {
            Kind::Ended(EndedKind::Short(_)) => Kind::Ended(EndedKind::Short(Verdict::Fault)),
            Kind::Ended(EndedKind::TimedOut(_)) => Kind::Ended(EndedKind::TimedOut(Verdict::Fault)),
            Kind::Lasting(LastingKind::Waits(_)) => {
                Kind::Lasting(LastingKind::Waits(Verdict::Fault))
            }
            Kind::Lasting(LastingKind::LostWakeUp(_)) => {
                Kind::Lasting(LastingKind::LostWakeUp(Verdict::Fault))
            }
            Kind::Lasting(LastingKind::NotTaken(_)) => {
                Kind::Lasting(LastingKind::NotTaken(Verdict::Fault))
            }
            Kind::Left(LeftKind::Unfinished(_)) => Kind::Left(LeftKind::Unfinished(Verdict::Fault)),
            Kind::Left(LeftKind::NotDurable(_)) => Kind::Left(LeftKind::NotDurable(Verdict::Fault)),
            Kind::Conflict(ConflictKind::FsyncEarly(_)) => {
                Kind::Conflict(ConflictKind::FsyncEarly(Verdict::Fault))
            }
            Kind::Cancel(CancelKind::NoneFound) => Kind::Ended(EndedKind::NotFound),
            Kind::TimespecInUse => Kind::Conflict(ConflictKind::BufferInUse),
            kind => kind,
        }
    }

    /// Returns whether two kinds have one name.
    pub fn has_name_of(self, other: Kind) -> bool
        ensures { result ≡ have_one_name self other }
    {
        self.first_named() == other.first_named()
    }
}
