//! What a picture is drawn from.

use crate::observing::Seen;
use machine::Setup;
use run_log::EventRange;

/// A run, the range of its events that is drawn, and what was collected while it was stepped.
#[derive(Clone, Copy)]
pub(crate) struct Drawn<'a> {
    pub name: &'a str,
    pub setup: &'a Setup,
    pub range: EventRange,
    pub seen: &'a Seen,
}
