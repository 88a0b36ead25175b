//! What a search found, and in how many runs.

use scenario::Event;
use serde::Serialize;

/// A kind of findings, and how many runs showed it.
#[derive(Clone, Copy, Serialize)]
pub struct SeenKind {
    pub kind: &'static str,
    pub runs: u64,
}

/// What a search found in a run.
#[derive(Clone, Copy)]
pub struct Discovery<'a> {
    /// The kind of the finding, or none if the search was for a place and its value.
    pub kind: Option<&'static str>,
    /// The kind, or the place and its value as `P = V`.
    pub name: &'a str,
    /// The moment of the finding in the shrunk run.
    pub moment: u32,
    /// The number of the run.
    pub run: u32,
    /// The sentences about the finding. Empty if the search was for a place and its value.
    pub text: &'a str,
    /// The number of events of the run as it was found.
    pub length: u32,
    /// The events of the shrunk run.
    pub schedule: &'a [Event],
    /// The file that the script was written to with these events, if there is one.
    pub out: Option<&'a str>,
}

/// The result of a search.
#[derive(Clone, Copy)]
pub struct Exploration<'a, 'b> {
    pub seed: u64,
    /// Whether requests may be issued later than by their submission.
    pub late: bool,
    /// What fails in every run, a clause for each instruction.
    pub every_run: &'b [String],
    /// How many runs were made: all, or those up to the run with the discovery.
    pub runs: u64,
    /// The number of their events.
    pub events: u64,
    /// The kinds that they showed, in the order of the table of kinds.
    pub seen: &'a [SeenKind],
    pub discovery: Option<Discovery<'a>>,
    /// The file that isn't written, if there is one and nothing was found.
    pub unwritten: Option<&'b str>,
}
