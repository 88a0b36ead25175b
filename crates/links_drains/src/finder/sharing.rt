//! Copies of the finder that share its pages.
ghost use Rattle.std.specs.Prelude.{◌≡◌, IfOk};

use super::{Finder, LINKS, Links};
use bit_sets::BitSet;
use shared_pages::SharedList;
use std::alloc::{AllocError, Global};

/// A copy of a finder.
#[derive(Drop)]
pub(crate) struct SharedFinder {
    last: SharedList<u32, LINKS>,
    previous: SharedList<u32, LINKS>,
    holding: BitSet,
}

impl Finder {
    ghost use Rattle.links_drains.specs.Sharing.{finder_in};

    /// Returns a copy that shares the pages.
    pub(crate) fn share(&mut self, alloc: Global) -> Result<SharedFinder, AllocError>
        ensures same { self.new ≡ self.old }
        ensures ok { IfOk result (λ copy. finder_in copy ≡ self.old) }
    {
        Ok(SharedFinder {
            last: self.last.share(alloc)?,
            previous: self.previous.share(alloc)?,
            holding: self.holding.copy(alloc)?,
        })
    }

    // Returns its storage.
    fn into_storage(self) -> (Links, Links) {
        let Finder {
            last,
            previous,
            holding: _,
        } = self;
        (last, previous)
    }
}

impl SharedFinder {
    ghost use Rattle.links_drains.specs.Sharing.{finder_in};

    /// Returns a finder that shows the copy, in the storage of another finder.
    pub(crate) fn restore(&self, alloc: Global, room: Finder) -> Result<Finder, AllocError>
        ensures { IfOk result (λ finder. finder ≡ finder_in self.now) }
    {
        let (last, previous) = room.into_storage();
        Ok(Finder {
            last: self.last.restore(last)?,
            previous: self.previous.restore(previous)?,
            holding: self.holding.copy(alloc)?,
        })
    }
}
