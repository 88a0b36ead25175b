//! Finds queued requests.
ghost use Rattle.std.specs.Prelude.{◌≡◌, ◌<◌, IfSome, IfNone};
ghost use Rattle.links_drains.specs.Queued.{next_queued, IsNextQueued, NoneQueuedFrom};

use super::Table;

impl Table {
    /// Returns the first queued request from a number on, without an allocation or a look at
    /// completed requests.
    pub fn next_queued(&self, from: u32) -> Option<u32>
        ensures value { result ≡ next_queued self.now from }
        ensures some { IfSome result (λ r. IsNextQueued self.now from r) }
        ensures none { IfNone result (NoneQueuedFrom self.now from) }
        ensures few { IfSome result (λ r. r < 65536) }
    {
        match self.index.next_queued(from as usize) {
            Some(r) => Some(r as u32),
            None => None,
        }
    }
}
