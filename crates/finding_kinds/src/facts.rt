//! What reports say about each kind: its name, and whether its findings are faults.
ghost use Rattle.std.specs.Prelude.{◌≡◌, true, false};
ghost use Rattle.finding_kinds.specs.Kinds.{is_bad, is_fault, is_of_row, is_of_thread};

use crate::kind::{
    CancelKind, ConflictKind, EndedKind, Kind, LastingKind, LeftKind, QueuedKind, StepKind, Verdict,
};

/// The name of a kind on the command line and in reports, and its verdict.
type Facts = (&'static str, Verdict);

impl EndedKind {
    fn facts(self) -> Facts
        ensures { is_bad result.1 ≡ is_fault (Kind.Ended self) }
    {
        match self {
            EndedKind::Failed => ("failed", Verdict::Fault),
            EndedKind::Short(verdict) => ("short", verdict),
            EndedKind::Severed => ("severed", Verdict::Fault),
            EndedKind::Canceled => ("canceled", Verdict::Note),
            EndedKind::TimedOut(verdict) => ("timed-out", verdict),
            EndedKind::Expired => ("expired", Verdict::Note),
            EndedKind::NotFound => ("not-found", Verdict::Note),
            EndedKind::TooLate => ("too-late", Verdict::Note),
            EndedKind::WentOn => ("went-on", Verdict::Note),
        }
    }
}

impl LastingKind {
    fn facts(self) -> Facts
        ensures { is_bad result.1 ≡ is_fault (Kind.Lasting self) }
    {
        match self {
            LastingKind::Waits(verdict) => ("waits", verdict),
            LastingKind::LostWakeUp(verdict) => ("lost-wake-up", verdict),
            LastingKind::NotTaken(verdict) => ("not-taken", verdict),
            LastingKind::NotReaped => ("not-reaped", Verdict::Note),
            LastingKind::Stuck => ("stuck", Verdict::Fault),
        }
    }
}

impl LeftKind {
    fn facts(self) -> Facts
        ensures { is_bad result.1 ≡ is_fault (Kind.Left self) }
    {
        match self {
            LeftKind::Unfinished(verdict) => ("unfinished", verdict),
            LeftKind::NotDurable(verdict) => ("not-durable", verdict),
        }
    }
}

impl ConflictKind {
    fn facts(self) -> Facts
        ensures { is_bad result.1 ≡ is_fault (Kind.Conflict self) }
    {
        match self {
            ConflictKind::BufferInUse => ("buffer-in-use", Verdict::Fault),
            ConflictKind::Unordered => ("unordered", Verdict::Fault),
            ConflictKind::SharedPosition => ("shared-position", Verdict::Fault),
            ConflictKind::FsyncEarly(verdict) => ("fsync-early", verdict),
        }
    }
}

impl StepKind {
    fn facts(self) -> Facts
        ensures { is_bad result.1 ≡ is_fault (Kind.Step self) }
    {
        match self {
            StepKind::Busy => ("busy", Verdict::Fault),
            StepKind::TakenShort => ("taken-short", Verdict::Fault),
            StepKind::NoSuchSlot => ("no-such-slot", Verdict::Fault),
            StepKind::SlotInUse => ("slot-in-use", Verdict::Fault),
            StepKind::ClosedEarly => ("closed-early", Verdict::Fault),
            StepKind::ClosedWhileHeld => ("closed-while-held", Verdict::Note),
            StepKind::RefusedFlags => ("refused-flags", Verdict::Fault),
            StepKind::ClosedTwice => ("closed-twice", Verdict::Fault),
        }
    }
}

impl QueuedKind {
    fn facts(self) -> Facts
        ensures { is_bad result.1 ≡ is_fault (Kind.Queued self) }
    {
        match self {
            QueuedKind::CutOff => ("cut-off", Verdict::Note),
            QueuedKind::NoEffect => ("no-effect", Verdict::Note),
            QueuedKind::SameUserData => ("same-user-data", Verdict::Note),
        }
    }
}

impl CancelKind {
    fn facts(self) -> Facts
        ensures { is_bad result.1 ≡ is_fault (Kind.Cancel self) }
    {
        match self {
            CancelKind::NoneFound => EndedKind::NotFound.facts(),
            CancelKind::Several => ("several", Verdict::Note),
            CancelKind::LeftRunning => ("left-running", Verdict::Note),
        }
    }
}

impl Kind {
    fn facts(self) -> Facts
        ensures { is_bad result.1 ≡ is_fault self }
    {
        match self {
            Kind::Ended(kind) => kind.facts(),
            Kind::Overflow => ("overflow", Verdict::Fault),
            Kind::Lasting(kind) => kind.facts(),
            Kind::Left(kind) => kind.facts(),
            Kind::Conflict(kind) => kind.facts(),
            Kind::Step(kind) => kind.facts(),
            Kind::Queued(kind) => kind.facts(),
            Kind::Cancel(kind) => kind.facts(),
            Kind::TimespecInUse => ConflictKind::BufferInUse.facts(),
            Kind::FsyncRetried => ("fsync-retried", Verdict::Fault),
        }
    }

    /// Returns the name of the kind on the command line and in reports. A fault and a note of one
    /// kind have one name, and so have the two kinds of cancels that matched nothing.
    pub fn word(self) -> &'static str {
        self.facts().0
    }

    /// Returns whether findings of this kind are faults (bugs or losses) rather than notes.
    pub fn is_fault(self) -> bool
        ensures { result ≡ is_fault self }
    {
        matches!(self.facts().1, Verdict::Fault)
    }

    /// Returns whether the subject of such a finding is a thread.
    pub fn is_of_thread(self) -> bool
        ensures { result ≡ is_of_thread self }
    {
        matches!(
            self,
            Kind::Step(_) | Kind::Lasting(LastingKind::Waits(_) | LastingKind::Stuck)
        )
    }

    /// Returns whether the subject of such a finding is a request.
    pub fn is_of_row(self) -> bool
        ensures { result ≡ is_of_row self }
    {
        match self {
            Kind::Ended(_)
            | Kind::Conflict(_)
            | Kind::Queued(_)
            | Kind::Cancel(_)
            | Kind::FsyncRetried => true,
            Kind::Left(kind) => matches!(kind, LeftKind::Unfinished(_)),
            Kind::Overflow | Kind::Lasting(_) | Kind::Step(_) | Kind::TimespecInUse => false,
        }
    }
}
