//! The completion ring.
ghost use Rattle.std.specs.Prelude.{◌≡◌, ◌==◌, ◌↔◌, ◌+◌, ◌%◌, ◌^◌, ◌<◌, ◌≤◌, ◌⊎◌, ◌∷◌, ◌++◌, [], length, slice_get, slice_set, IfOk, IsFalse, None};
ghost use Rattle.std.specs.Int.{IsNextPowerOfTwo};
ghost use Rattle.places.specs.declared.place.Place.{Place};
ghost use Rattle.places.specs.View.{Keeps, named};
ghost use Rattle.ring_words.specs.Rings.{waiting, com_list, com_owns, com_seen, com_start, ComFormed};

use crate::noting::{note_slot, note_word};
use crate::refusal::RingRefusal;
use crate::size::size_for;
use entries::Cqe;
use places::{At, Part, Place, Recorder, Value};
use shared_pages::PagedList;
use std::alloc::{AllocError, Global};
use std::marker::Model;

/// The number of slots that share a page: 2 KB.
pub(crate) const SLOTS: usize = 128;

/// The completion ring: the kernel posts at the tail, and the application reaps at the head.
pub struct ComRing {
    pub(crate) head: u32,
    pub(crate) tail: u32,
    pub(crate) slots: PagedList<Cqe, SLOTS>,
}

// Written by hand, so that dropping it is one step of a proof.
impl Drop for ComRing {
    fn drop(self) {
        let ComRing {
            head: _,
            tail: _,
            slots: _,
        } = self;
    }
}

impl Model for ComRing {
    ghost use Rattle.ring_words.specs.Rings.{ComWords, ComFormed};

    ghost Value = { ComWords };

    ghost view = { λ a. record { head = a.head; tail = a.tail; slots = a.slots } };

    ghost invariant = { λ a. ComFormed
        (record { head = a.head; tail = a.tail; slots = a.slots }) };
}

impl At for ComRing {
    ghost seen = { com_seen };

    fn at(&self, place: Place) -> Option<Value> {
        match place {
            Place::CompletionHead => Some(Value::Number(self.head as u64)),
            Place::CompletionTail => Some(Value::Number(self.tail as u64)),
            Place::Completion(i) => match self.slots.get(i as usize) {
                Some(c) => Some(Value::Completed(*c)),
                None => None,
            },
            _ => None,
        }
    }

    fn number_at(&self, place: Place) -> Option<u64> {
        match place {
            Place::CompletionHead => Some(self.head as u64),
            Place::CompletionTail => Some(self.tail as u64),
            _ => None,
        }
    }

    fn completion_at(&self, slot: u32) -> Option<&Cqe> {
        self.slots.get(slot as usize)
    }
}

impl Part for ComRing {
    ghost use Rattle.ring_words.specs.Rings.{com_can_put};
    ghost use Rattle.places.specs.View.{put_at};

    ghost owns = { com_owns };

    ghost can_put = { com_can_put };

    fn put(&mut self, place: Place, value: Option<Value>)
        requires { com_can_put self.old place value }
        ensures put { (q : Place) → com_seen self.new q ≡ put_at (com_seen self.old) place value q }
        ensures size { length self.new.slots ≡ length self.old.slots }
    {
        match (place, value) {
            (Place::CompletionHead, Some(Value::Number(n))) => self.head = n as u32,
            (Place::CompletionTail, Some(Value::Number(n))) => self.tail = n as u32,
            (Place::Completion(i), Some(Value::Completed(c))) => self.slots.set(i as usize, c),
            // `can_put` allows no other place, and any would be left alone.
            _ => {}
        }
    }
}

impl ComRing {
    /// Returns an empty ring with room for `entries` completions, 1 to 8,192, rounded up to a power
    /// of two. Head and tail start at `base`.
    pub fn new(alloc: Global, entries: u32, base: u32) -> Result<ComRing, RingRefusal>
        ensures ok { IfOk result (λ r. r ≡ com_start entries base) }
        ensures power { IfOk result (λ r. IsNextPowerOfTwo entries (length r.slots)) }
        ensures size { result ≡ Err RingRefusal.Size ↔ ((entries ≡ 0) ⊎ (8192 < entries)) }
    {
        if entries == 0 || entries > 8192 {
            return Err(RingRefusal::Size);
        }
        let empty = Cqe {
            user_data: 0,
            res: 0,
            flags: 0,
        };
        let mut slots = PagedList::new(alloc);
        match slots.grow(size_for(entries), empty) {
            Ok(()) => Ok(ComRing {
                head: base,
                tail: base,
                slots,
            }),
            Err(_) => Err(RingRefusal::Memory),
        }
    }

    /// Returns a copy.
    pub fn copy(&self, alloc: Global) -> Result<ComRing, AllocError>
        ensures { IfOk result (λ r. r ≡ self.now) }
    {
        Ok(ComRing {
            head: self.head,
            tail: self.tail,
            slots: self.slots.copy(alloc)?,
        })
    }

    /// Returns the number of slots.
    pub fn size(&self) -> u32
        ensures value { result ≡ length self.now.slots }
        ensures formed { ComFormed self.now }
    {
        self.slots.len() as u32
    }

    /// Returns the head, which the application advances.
    pub fn head(&self) -> u32
        ensures { result ≡ self.now.head }
    {
        self.head
    }

    /// Returns the tail, which the kernel advances.
    pub fn tail(&self) -> u32
        ensures { result ≡ self.now.tail }
    {
        self.tail
    }

    /// Returns how many completions are pending.
    pub fn waiting(&self) -> u32
        ensures { result ≡ waiting self.now.head self.now.tail }
    {
        self.tail.wrapping_sub(self.head)
    }

    /// Returns whether no completion is pending.
    pub fn is_empty(&self) -> bool
        ensures { result ≡ (waiting self.now.head self.now.tail == 0) }
    {
        self.waiting() == 0
    }

    /// Returns whether no slot is free.
    pub fn is_full(&self) -> bool
        ensures { IsFalse result ↔ (waiting self.now.head self.now.tail < length self.now.slots) }
    {
        self.waiting() >= self.size()
    }

    /// Appends a completion.
    pub fn post(&mut self, completion: Cqe, notes: &mut Recorder)
        requires free { waiting self.old.head self.old.tail < length self.old.slots }
        requires numbers { 0 < notes.old.numbers }
        requires completions { 0 < notes.old.completions }
        ensures next { self.new ≡ record self.old {
          tail =
              (self.old.tail + 1) % 2 ^ 32;
          slots = slice_set self.old.slots
              (self.old.tail % length self.old.slots) completion;
        } }
        ensures list { com_list self.new ≡ com_list self.old ++ completion ∷ [] }
        ensures keeps { Keeps com_owns (com_seen self.old)
            (com_seen self.new) notes.old.made notes.new.made }
        ensures named { (p : Place) → named notes.new.made p ≡ None
            → named notes.old.made p ≡ None }
        ensures spends_numbers { notes.old.numbers ≤ notes.new.numbers + 1 }
        ensures spends_completions { notes.old.completions ≤ notes.new.completions + 1 }
        ensures spends_others { notes.old.others ≤ notes.new.others }
    {
        let at = self.tail as usize % self.slots.len();
        note_slot(notes, at as u32, self.slots[at]);
        self.slots.set(at, completion);
        note_word(notes, Place::CompletionTail, self.tail);
        self.tail = self.tail.wrapping_add(1);
    }

    /// Removes the oldest completion and returns it.
    pub fn reap(&mut self, notes: &mut Recorder) -> Cqe
        requires some { 0 < waiting self.old.head self.old.tail }
        requires numbers { 0 < notes.old.numbers }
        ensures next { self.new ≡ record self.old { head = (self.old.head + 1) % 2 ^ 32 } }
        ensures value { slice_get self.old.slots (self.old.head % length self.old.slots)
            ≡ Some result }
        ensures list { com_list self.old ≡ result ∷ com_list self.new }
        ensures keeps { Keeps com_owns (com_seen self.old)
            (com_seen self.new) notes.old.made notes.new.made }
        ensures spends_numbers { notes.old.numbers ≤ notes.new.numbers + 1 }
        ensures spends_completions { notes.old.completions ≤ notes.new.completions }
        ensures spends_others { notes.old.others ≤ notes.new.others }
    {
        let completion = self.slots[self.head as usize % self.slots.len()];
        note_word(notes, Place::CompletionHead, self.head);
        self.head = self.head.wrapping_add(1);
        completion
    }

    /// Returns its storage.
    pub(crate) fn into_storage(self) -> PagedList<Cqe, SLOTS> {
        let ComRing {
            head: _,
            tail: _,
            slots,
        } = self;
        slots
    }
}
