//! The events of a random run.
ghost use Rattle.std.specs.Prelude.{◌≡◌, []};

use machine::Event;
use places::Record;
use std::alloc::Global;

/// A random run. Its memory is used again by the next one.
#[derive(Drop)]
pub struct Sample {
    pub events: Vec<Event>,
    /// The undo records of the events.
    pub records: Vec<Record>,
    /// The first request of the last submission.
    pub next_row: u32,
    /// Whether the state after the events is over.
    pub is_over: bool,
}

impl Sample {
    /// Returns an empty run. Doesn't allocate.
    pub fn new(alloc: Global) -> Sample
        ensures events { result.events.items ≡ [] }
        ensures records { result.records.items ≡ [] }
        ensures next_row { result.next_row ≡ 0 }
    {
        Sample {
            events: Vec::new(alloc),
            records: Vec::new(alloc),
            next_row: 0,
            is_over: false,
        }
    }
}
