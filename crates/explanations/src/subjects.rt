//! What findings point at: an instruction of a thread, or an event of the schedule.
ghost use Rattle.std.specs.Prelude.{◌≡◌, true, IfSome};
ghost use Rattle.finding_kinds.specs.Kinds.{is_of_thread};
ghost use Rattle.explanations.specs.Subjects.{IsSubject, event_moment, lasts};

use finding_kinds::{Finding, Kind, LastingKind, LeftKind};
use sentences::{Run, ThreadStep};

/// What a finding points at.
#[derive(Clone, Copy)]
pub enum Subject {
    /// An instruction of a thread.
    Instruction(ThreadStep),
    /// The event at a moment, or the last event if the moment is the end.
    Event(u32),
}

/// Returns whether a finding is a condition that lasts to the end. The event at its moment has
/// nothing to do with it.
pub(crate) fn lasts(kind: Kind) -> bool
    ensures { result ≡ lasts kind }
{
    matches!(kind, Kind::Lasting(_))
}

// Returns the moment of the event that a finding points at: for a condition that lasts the event by
// which it began.
fn event_moment(finding: &Finding) -> u32
    ensures { result ≡ event_moment finding.now.kind finding.now.moment }
{
    if lasts(finding.kind) {
        finding.moment.saturating_sub(1)
    } else {
        finding.moment
    }
}

// Returns the instruction that a finding points at: the one in which a thread waits or is stuck, or
// the put of the request in question.
fn instruction_of(run: &Run<'_>, finding: &Finding) -> Option<ThreadStep>
    ensures { IfSome result (λ step. is_of_thread finding.now.kind ≡ true
        → step.thread ≡ finding.now.subject) }
{
    match finding.kind {
        Kind::Lasting(LastingKind::Waits(_) | LastingKind::Stuck) => {
            Some(run.next_step(finding.subject))
        }
        Kind::Left(LeftKind::NotDurable(_)) => run.lost_put(finding.subject),
        Kind::Left(LeftKind::Unfinished(_))
        | Kind::Ended(_)
        | Kind::Conflict(_)
        | Kind::Queued(_)
        | Kind::Cancel(_)
        | Kind::FsyncRetried => run.put_of(finding.subject),
        Kind::Lasting(_) | Kind::Overflow | Kind::Step(_) | Kind::TimespecInUse => None,
    }
}

/// Returns what a finding points at.
pub(crate) fn subject_of(run: &Run<'_>, finding: &Finding) -> Subject
    ensures { IsSubject finding.now result }
{
    match instruction_of(run, finding) {
        Some(step) => Subject::Instruction(step),
        None => Subject::Event(event_moment(finding)),
    }
}
