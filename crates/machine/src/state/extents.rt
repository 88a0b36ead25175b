//! Queries with which a reader of all places skips those that are absent.
ghost use Rattle.std.specs.Prelude.{◌≡◌, ◌≤◌, ℕ, IfSome, option_map, slice_get};
ghost use Rattle.places.specs.declared.value.Value.TheVariants.{Byte};
ghost use Rattle.places.specs.Runs.{place_in};
ghost use Rattle.machine.specs.Extents.{IsNumberedBelow};
ghost use Rattle.machine.specs.Whole.{view};

use super::State;
use places::{At, Region};

impl State {
    /// Returns the bytes of a region as one slice, if they are stored that way. Doesn't allocate.
    pub fn bytes_in(&self, region: Region) -> Option<&[u8]>
        ensures { IfSome result (λ bytes. (i : ℕ)
            → view self.now (place_in region i) ≡ option_map Byte (slice_get bytes.now i)) }
    {
        self.machine.bytes_in(region)
    }

    /// Returns a number above those of all requests, overflowed completions and slots of the rings.
    /// Doesn't allocate.
    pub fn numbered_below(&self) -> u32
        ensures few { result ≤ 65536 }
        ensures absent { IsNumberedBelow (view self.now) result }
    {
        // No more completions overflowed than there are requests.
        let requests = self.machine.table.len() as u32;
        let entries = self.machine.submissions.size();
        let completions = self.machine.completions.size();
        requests.max(entries).max(completions)
    }
}
