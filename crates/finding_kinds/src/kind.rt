//! The kinds of findings, by what they arise from.

/// Whether a finding is a bug or a loss, or a normal outcome that is worth a look. A kind carries
/// its verdict if it can be both.
#[derive(Clone, Copy, PartialEq, Eq, PartialOrd, Ord)]
pub enum Verdict {
    Fault,
    Note,
}

/// The kind of a finding. Findings of one moment are reported in the order of their kinds: by group,
/// and within a group in the order of its kinds.
#[derive(Clone, Copy, PartialEq, Eq, PartialOrd, Ord)]
pub enum Kind {
    /// An event completed a request.
    Ended(EndedKind),
    /// Completions went to the backlog, which was empty before.
    Overflow,
    /// A condition lasts to the end.
    Lasting(LastingKind),
    /// A request or a file is left at the end.
    Left(LeftKind),
    /// An event conflicts with an incomplete READ or WRITE.
    Conflict(ConflictKind),
    /// A thread did a step.
    Step(StepKind),
    /// An event submitted a request.
    Queued(QueuedKind),
    /// An event completed a cancel or removal, by the requests that it matched.
    Cancel(CancelKind),
    /// The timespec of a pushed entry was overwritten before the kernel took the entry.
    TimespecInUse,
    /// An FSYNC completed without error after one had failed, and bytes that were not durable then
    /// have not been written again.
    FsyncRetried,
}

/// The kinds about a request that an event completes.
#[derive(Clone, Copy, PartialEq, Eq, PartialOrd, Ord)]
pub enum EndedKind {
    /// It completed with an error that no other kind covers.
    Failed,
    /// A READ or WRITE moved fewer bytes than requested. It is a note for a READ of a pipe, of an
    /// eventfd, or up to the end of its file.
    Short(Verdict),
    /// A failed or short soft-linked request canceled the rest of its chain (IOSQE_IO_LINK).
    Severed,
    /// It completed with ECANCELED, and no other finding names it.
    Canceled,
    /// A LINK_TIMEOUT expired. It is a fault if it canceled a request that could have completed.
    TimedOut(Verdict),
    /// A TIMEOUT expired.
    Expired,
    /// A cancel or removal of one request matched none (ENOENT).
    NotFound,
    /// A cancel or removal found a running request (EALREADY).
    TooLate,
    /// A hard-linked request failed or was short, and its chain continued (IOSQE_IO_HARDLINK).
    WentOn,
}

impl EndedKind {
    /// All kinds of the group, in order.
    pub const ALL: [EndedKind; 11] = [
        EndedKind::Failed,
        EndedKind::Short(Verdict::Fault),
        EndedKind::Short(Verdict::Note),
        EndedKind::Severed,
        EndedKind::Canceled,
        EndedKind::TimedOut(Verdict::Fault),
        EndedKind::TimedOut(Verdict::Note),
        EndedKind::Expired,
        EndedKind::NotFound,
        EndedKind::TooLate,
        EndedKind::WentOn,
    ];
}

/// The kinds about a condition that lasts to the end.
#[derive(Clone, Copy, PartialEq, Eq, PartialOrd, Ord)]
pub enum LastingKind {
    /// A thread waits in its enter. It is a note if the run was cut off.
    Waits(Verdict),
    /// Entries wait while the poller sleeps. It is a note if the run was cut off.
    LostWakeUp(Verdict),
    /// Entries wait though no poller sleeps. It is a note if the run was cut off.
    NotTaken(Verdict),
    /// Completions remain in the ring or in the backlog.
    NotReaped,
    /// A thread reaps from an empty ring, or pushes to a full one, and the run is over.
    Stuck,
}

impl LastingKind {
    /// All kinds of the group, in order.
    pub const ALL: [LastingKind; 8] = [
        LastingKind::Waits(Verdict::Fault),
        LastingKind::Waits(Verdict::Note),
        LastingKind::LostWakeUp(Verdict::Fault),
        LastingKind::LostWakeUp(Verdict::Note),
        LastingKind::NotTaken(Verdict::Fault),
        LastingKind::NotTaken(Verdict::Note),
        LastingKind::NotReaped,
        LastingKind::Stuck,
    ];
}

/// The kinds about what is left at the end.
#[derive(Clone, Copy, PartialEq, Eq, PartialOrd, Ord)]
pub enum LeftKind {
    /// A request is incomplete. It is a note if the run was cut off.
    Unfinished(Verdict),
    /// A file has bytes that were written and are not durable. It is a fault if an FSYNC of the file
    /// was submitted.
    NotDurable(Verdict),
}

impl LeftKind {
    /// All kinds of the group, in order.
    pub const ALL: [LeftKind; 4] = [
        LeftKind::Unfinished(Verdict::Fault),
        LeftKind::Unfinished(Verdict::Note),
        LeftKind::NotDurable(Verdict::Fault),
        LeftKind::NotDurable(Verdict::Note),
    ];
}

/// The kinds about a conflict with an incomplete READ or WRITE.
#[derive(Clone, Copy, PartialEq, Eq, PartialOrd, Ord)]
pub enum ConflictKind {
    /// Its buffer was overwritten.
    BufferInUse,
    /// An unordered request used the same bytes of its file, and one of the two is a WRITE.
    Unordered,
    /// An unordered request used the position of its descriptor.
    SharedPosition,
    /// A later FSYNC of its file completed before this WRITE. It is a fault if bytes of the WRITE
    /// are not durable at the end.
    FsyncEarly(Verdict),
}

impl ConflictKind {
    /// All kinds of the group, in order.
    pub const ALL: [ConflictKind; 5] = [
        ConflictKind::BufferInUse,
        ConflictKind::Unordered,
        ConflictKind::SharedPosition,
        ConflictKind::FsyncEarly(Verdict::Fault),
        ConflictKind::FsyncEarly(Verdict::Note),
    ];
}

/// The kinds about a step of a thread.
#[derive(Clone, Copy, PartialEq, Eq, PartialOrd, Ord)]
pub enum StepKind {
    /// An enter returned EBUSY.
    Busy,
    /// An enter took fewer entries than it was asked to submit.
    TakenShort,
    /// An index was pushed that names no slot.
    NoSuchSlot,
    /// A put changed a slot that was pushed and not yet taken.
    SlotInUse,
    /// A descriptor was closed that a queued request or a pushed entry names.
    ClosedEarly,
    /// A descriptor was closed that an issued request holds.
    ClosedWhileHeld,
    /// An enter returned EINVAL because of an unknown flag.
    RefusedFlags,
    /// A closed descriptor was closed again (EBADF).
    ClosedTwice,
}

impl StepKind {
    /// All kinds of the group, in order.
    pub const ALL: [StepKind; 8] = [
        StepKind::Busy,
        StepKind::TakenShort,
        StepKind::NoSuchSlot,
        StepKind::SlotInUse,
        StepKind::ClosedEarly,
        StepKind::ClosedWhileHeld,
        StepKind::RefusedFlags,
        StepKind::ClosedTwice,
    ];
}

/// The kinds about a request that an event submits.
#[derive(Clone, Copy, PartialEq, Eq, PartialOrd, Ord)]
pub enum QueuedKind {
    /// A linked entry is the last one of its submission, so that its chain ends there.
    CutOff,
    /// The entry sets a field that has no effect.
    NoEffect,
    /// An earlier request that is incomplete has the same user_data.
    SameUserData,
}

impl QueuedKind {
    /// All kinds of the group, in order.
    pub const ALL: [QueuedKind; 3] = [
        QueuedKind::CutOff,
        QueuedKind::NoEffect,
        QueuedKind::SameUserData,
    ];
}

/// The kinds about the requests that a completed cancel or removal matched.
#[derive(Clone, Copy, PartialEq, Eq, PartialOrd, Ord)]
pub enum CancelKind {
    /// A cancel of all matched none (IORING_ASYNC_CANCEL_ALL).
    NoneFound,
    /// A cancel or removal of one request matched more than one.
    Several,
    /// A cancel of all left running requests (IORING_ASYNC_CANCEL_ALL).
    LeftRunning,
}

impl CancelKind {
    /// All kinds of the group, in order.
    pub const ALL: [CancelKind; 3] = [
        CancelKind::NoneFound,
        CancelKind::Several,
        CancelKind::LeftRunning,
    ];
}
