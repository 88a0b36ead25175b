//! Finds queued requests: those that are unfinished and not issued.
ghost use Rattle.std.specs.Prelude.{IfSome, IfNone};
ghost use Rattle.bit_sets.specs.Difference.{IsNextInDifference, NoneInDifference};

use super::Index;

impl Index {
    /// Returns the first queued request from a number on.
    pub(crate) fn next_queued(&self, from: usize) -> Option<usize>
        ensures some { IfSome result
            (λ r. IsNextInDifference self.now.unfinished self.now.issued from r) }
        ensures none { IfNone result (NoneInDifference self.now.unfinished self.now.issued from) }
    {
        self.unfinished.next_in_difference(&self.issued, from)
    }
}
