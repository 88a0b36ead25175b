//! The range of events to log.
ghost use Rattle.std.specs.Prelude.{◌≡◌};
ghost use Rattle.run_log.specs.{has, is_below};

/// The events with indexes from..to, counted from 0. Without `to`, there is no end.
#[derive(Clone, Copy)]
pub struct EventRange {
    pub from: u32,
    pub to: Option<u32>,
}

impl EventRange {
    /// Returns whether an event is in the range.
    pub fn has(&self, index: usize) -> bool
        ensures { result ≡ has self.now index }
    {
        self.from as usize <= index && is_below(index, self.to)
    }
}

fn is_below(index: usize, end: Option<u32>) -> bool
    ensures { result ≡ is_below index end }
{
    match end {
        Some(end) => index < end as usize,
        None => true,
    }
}
