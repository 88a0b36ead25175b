//! Copies of rings that share what neither has written since.
ghost use Rattle.std.specs.Prelude.{◌≡◌, IfOk};

use crate::com_ring::{self, ComRing};
use crate::sub_ring::{self, SubRing};
use entries::{Cqe, Sqe};
use shared_pages::{PagedList, SharedList};
use std::alloc::{AllocError, Global};
use std::marker::Model;

/// A copy of a submission ring. Contracts see it as the ring.
pub struct SharedSubRing {
    head: u32,
    tail: u32,
    flags: u32,
    dropped: u32,
    array: SharedList<u32, { sub_ring::WORDS }>,
    slots: SharedList<Sqe, { sub_ring::SLOTS }>,
}

// Written by hand, so that dropping it is one step of a proof.
impl Drop for SharedSubRing {
    fn drop(self) {
        let SharedSubRing {
            head: _,
            tail: _,
            flags: _,
            dropped: _,
            array: _,
            slots: _,
        } = self;
    }
}

impl Model for SharedSubRing {
    ghost use Rattle.ring_words.specs.Rings.{SubWords, SubFormed};

    ghost Value = { SubWords };

    ghost view = { λ a. record {
      head = a.head;
      tail = a.tail;
      flags = a.flags;
      dropped = a.dropped;
      array = a.array;
      slots = a.slots;
    } };

    ghost invariant = { λ a. SubFormed
        (record {
          head = a.head;
          tail = a.tail;
          flags = a.flags;
          dropped = a.dropped;
          array = a.array;
          slots = a.slots;
        }) };
}

/// A copy of a completion ring. Contracts see it as the ring.
pub struct SharedComRing {
    head: u32,
    tail: u32,
    slots: SharedList<Cqe, { com_ring::SLOTS }>,
}

// Written by hand, so that dropping it is one step of a proof.
impl Drop for SharedComRing {
    fn drop(self) {
        let SharedComRing {
            head: _,
            tail: _,
            slots: _,
        } = self;
    }
}

impl Model for SharedComRing {
    ghost use Rattle.ring_words.specs.Rings.{ComWords, ComFormed};

    ghost Value = { ComWords };

    ghost view = { λ a. record { head = a.head; tail = a.tail; slots = a.slots } };

    ghost invariant = { λ a. ComFormed
        (record { head = a.head; tail = a.tail; slots = a.slots }) };
}

impl SubRing {
    /// Returns a copy that shares the pages. Only those that were written since the last such copy
    /// are copied.
    pub fn share(&mut self, alloc: Global) -> Result<SharedSubRing, AllocError>
        ensures ok { IfOk result (λ copy. copy ≡ self.old) }
        ensures same { self.new ≡ self.old }
    {
        Ok(SharedSubRing {
            head: self.head,
            tail: self.tail,
            flags: self.flags,
            dropped: self.dropped,
            array: self.array.share(alloc)?,
            slots: self.slots.share(alloc)?,
        })
    }
}

impl SharedSubRing {
    /// Returns a ring that shows the copy, in the storage of another ring if one is given.
    pub fn restore(&self, alloc: Global, room: Option<SubRing>) -> Result<SubRing, AllocError>
        ensures { IfOk result (λ ring. ring ≡ self.now) }
    {
        let (array, slots) = match room {
            Some(ring) => ring.into_storage(),
            None => (PagedList::new(alloc), PagedList::new(alloc)),
        };
        Ok(SubRing {
            head: self.head,
            tail: self.tail,
            flags: self.flags,
            dropped: self.dropped,
            array: self.array.restore(array)?,
            slots: self.slots.restore(slots)?,
        })
    }
}

impl ComRing {
    /// Returns a copy that shares the pages. Only those that were written since the last such copy
    /// are copied.
    pub fn share(&mut self, alloc: Global) -> Result<SharedComRing, AllocError>
        ensures ok { IfOk result (λ copy. copy ≡ self.old) }
        ensures same { self.new ≡ self.old }
    {
        Ok(SharedComRing {
            head: self.head,
            tail: self.tail,
            slots: self.slots.share(alloc)?,
        })
    }
}

impl SharedComRing {
    /// Returns a ring that shows the copy, in the storage of another ring if one is given.
    pub fn restore(&self, alloc: Global, room: Option<ComRing>) -> Result<ComRing, AllocError>
        ensures { IfOk result (λ ring. ring ≡ self.now) }
    {
        let slots = match room {
            Some(ring) => ring.into_storage(),
            None => PagedList::new(alloc),
        };
        Ok(ComRing {
            head: self.head,
            tail: self.tail,
            slots: self.slots.restore(slots)?,
        })
    }
}
