//! Requests. The model numbers them from 0 in the order of submission and keeps completed ones, so
//! each request is a row of a table.
ghost use Rattle.std.specs.Prelude.{◌≡◌, ◌↔◌, IsTrue};

use crate::entry::Sqe;

/// How far a request has got.
#[derive(Clone, Copy, PartialEq, Eq)]
pub enum Phase {
    /// Submitted, and not yet started.
    Queued,
    /// Started by the kernel, and not yet completed.
    Issued,
    /// Completed with this result.
    Ended(i32),
}

/// A request: its entry, and what the model knows of its progress.
#[derive(Clone, Copy)]
pub struct Row {
    /// When a TIMEOUT or LINK_TIMEOUT is due, in nanoseconds on the model's
    /// clock. Set when it is issued.
    pub deadline: Option<u128>,
    /// The time of a TIMEOUT or LINK_TIMEOUT in nanoseconds, read from memory at submission.
    pub time: Option<u128>,
    pub entry: Sqe,
    /// The machine's completion count at the moment when a TIMEOUT was issued. It counts
    /// completions other than those of timeouts.
    pub base: u32,
    /// The chain that the request belongs to: the number of the chain's first request.
    pub unit: u32,
    /// For a LINK_TIMEOUT, the number of the request that it limits.
    pub target: Option<u32>,
    /// The descriptor that a READ, WRITE, FSYNC or POLL_ADD uses. Set when the request is issued;
    /// the request holds it until it completes.
    pub held: Option<u32>,
    pub phase: Phase,
}

impl Phase {
    /// Returns whether two phases are equal, the result of a completed request included.
    pub fn equals(&self, other: &Phase) -> bool
        ensures { IsTrue result ↔ (self.now ≡ other.now) }
    {
        self == other
    }
}

impl Row {
    /// Returns whether two rows are equal in every field. Tests those that a step changes first.
    pub fn equals(&self, other: &Row) -> bool
        ensures { IsTrue result ↔ (self.now ≡ other.now) }
    {
        self.phase.equals(&other.phase)
            && self.unit == other.unit
            && self.base == other.base
            && is_same_number(self.target, other.target)
            && is_same_number(self.held, other.held)
            && is_same_time(self.time, other.time)
            && is_same_time(self.deadline, other.deadline)
            && self.entry.equals(&other.entry)
    }
}

fn is_same_number(a: Option<u32>, b: Option<u32>) -> bool
    ensures { IsTrue result ↔ (a ≡ b) }
{
    a == b
}

fn is_same_time(a: Option<u128>, b: Option<u128>) -> bool
    ensures { IsTrue result ↔ (a ≡ b) }
{
    a == b
}
