//! One finding.

use crate::kind::Kind;

/// A fact about a run that is worth a report: a bug, a loss, or a normal outcome worth a look.
/// Findings are ordered by moment, then by kind, then by subject.
#[derive(Clone, Copy, PartialEq, Eq, PartialOrd, Ord)]
pub struct Finding {
    /// The moment before the event in question, counted from 0.
    pub moment: u32,
    pub kind: Kind,
    /// The number of the request, thread or object in question. 0 if the finding is about the
    /// rings.
    pub subject: u32,
}
