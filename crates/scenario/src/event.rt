//! The events of a run, and the reasons for which one is refused.

use entries::Choice;

/// An atomic step of a run.
#[derive(Clone, Copy, PartialEq, Eq)]
pub enum Event {
    /// The thread with this number executes its next instruction.
    Step(u32),
    /// The poller submits this many entries.
    Take(u32),
    /// The poller falls asleep.
    Sleep,
    /// A queued request is issued.
    Issue(u32),
    /// An issued request completes, with this choice of the kernel.
    Finish(u32, Choice),
    /// A TIMEOUT or LINK_TIMEOUT expires.
    Expire(u32),
    /// The clock advances by this many nanoseconds.
    Tick(u64),
}

/// Why an event is refused. If several reasons apply, the one with the smallest number is given.
#[derive(Clone, Copy, Debug)]
pub enum Refusal {
    NoSuchThread = 1,
    /// The thread has no next instruction.
    ThreadDone = 2,
    /// A push to a full submission ring.
    SqFull = 3,
    /// A reap from an empty completion ring.
    NothingToReap = 4,
    /// The thread waits in io_uring_enter(2) for more completions than there are.
    StillWaiting = 5,
    NoSuchRequest = 6,
    /// The request isn't in the phase that the event requires.
    WrongPhase = 7,
    /// Earlier requests have to complete first, because of a link or a drain. A LINK_TIMEOUT is
    /// never eligible, since it is issued with its target.
    NotEligible = 8,
    /// The request's object isn't ready.
    NotReady = 9,
    /// The timeout isn't due yet.
    NotDue = 10,
    /// The request can't complete with this choice.
    BadChoice = 11,
    NoPoller = 12,
    /// The poller is asleep.
    Asleep = 13,
    /// Entries are pending in the submission ring.
    NotIdle = 14,
    /// The clock would exceed 2^64 - 1.
    ClockFull = 15,
    /// There would be more than 65,536 requests.
    RequestsFull = 16,
    /// An allocation failed, and nothing has changed.
    Memory = 17,
}
