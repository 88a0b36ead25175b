//! The submission ring.
ghost use Rattle.std.specs.Prelude.{◌≡◌, ◌==◌, ◌↔◌, ◌+◌, ◌%◌, ◌^◌, ◌<◌, ◌≤◌, ◌⊎◌, ◌∷◌, ◌++◌, [], length, drop, slice_get, slice_set, IfOk, IsFalse, None};
ghost use Rattle.std.proofs.Math.ListN.{replicate};
ghost use Rattle.std.specs.Int.{IsNextPowerOfTwo};
ghost use Rattle.places.specs.declared.place.Place.{Place};
ghost use Rattle.places.specs.View.{Keeps, named};
ghost use Rattle.ring_words.specs.Rings.{waiting, sub_list, sub_owns, sub_seen, sub_start, front_word, taken_of, dropped_after, has_flag, with_flag, zero_entry, IsSize, SubFormed};

use crate::flag::RingFlag;
use crate::noting::note_word;
use crate::refusal::RingRefusal;
use crate::size::size_for;
use crate::taken::Taken;
use entries::Sqe;
use places::{At, Part, Place, Recorder, Value};
use shared_pages::PagedList;
use std::alloc::{AllocError, Global};
use std::marker::Model;

/// The number of words of the index array that share a page: 1 KB.
pub(crate) const WORDS: usize = 256;

/// The number of entry slots that share a page: 2 KB.
pub(crate) const SLOTS: usize = 32;

/// The submission ring: the application pushes indexes of entry slots at the tail, and the kernel
/// takes them at the head. It has as many entry slots as words in the index array.
pub struct SubRing {
    pub(crate) head: u32,
    pub(crate) tail: u32,
    pub(crate) flags: u32,
    pub(crate) dropped: u32,
    pub(crate) array: PagedList<u32, WORDS>,
    pub(crate) slots: PagedList<Sqe, SLOTS>,
}

// Written by hand, so that dropping it is one step of a proof.
impl Drop for SubRing {
    fn drop(self) {
        let SubRing {
            head: _,
            tail: _,
            flags: _,
            dropped: _,
            array: _,
            slots: _,
        } = self;
    }
}

impl Model for SubRing {
    ghost use Rattle.ring_words.specs.Rings.{SubWords, SubFormed};

    ghost Value = { SubWords };

    ghost view = { λ a. record {
      head = a.head;
      tail = a.tail;
      flags = a.flags;
      dropped = a.dropped;
      array = a.array;
      slots = a.slots;
    } };

    ghost invariant = { λ a. SubFormed
        (record {
          head = a.head;
          tail = a.tail;
          flags = a.flags;
          dropped = a.dropped;
          array =
              a.array;
          slots = a.slots;
        }) };
}

impl At for SubRing {
    ghost seen = { sub_seen };

    fn at(&self, place: Place) -> Option<Value> {
        match place {
            Place::SubmissionHead => Some(Value::Number(self.head as u64)),
            Place::SubmissionTail => Some(Value::Number(self.tail as u64)),
            Place::SubmissionFlags => Some(Value::Number(self.flags as u64)),
            Place::SubmissionDropped => Some(Value::Number(self.dropped as u64)),
            Place::Array(i) => match self.array.get(i as usize) {
                Some(index) => Some(Value::Number(*index as u64)),
                None => None,
            },
            Place::Slot(i) => match self.slots.get(i as usize) {
                Some(entry) => Some(Value::Entry(*entry)),
                None => None,
            },
            _ => None,
        }
    }

    fn number_at(&self, place: Place) -> Option<u64> {
        match place {
            Place::SubmissionHead => Some(self.head as u64),
            Place::SubmissionTail => Some(self.tail as u64),
            Place::SubmissionFlags => Some(self.flags as u64),
            Place::SubmissionDropped => Some(self.dropped as u64),
            Place::Array(i) => match self.array.get(i as usize) {
                Some(index) => Some(*index as u64),
                None => None,
            },
            _ => None,
        }
    }
}

impl Part for SubRing {
    ghost use Rattle.ring_words.specs.Rings.{sub_can_put};
    ghost use Rattle.places.specs.View.{put_at};

    ghost owns = { sub_owns };

    ghost can_put = { sub_can_put };

    fn put(&mut self, place: Place, value: Option<Value>)
        requires { sub_can_put self.old place value }
        ensures put { (q : Place) → sub_seen self.new q ≡ put_at (sub_seen self.old) place value q }
        ensures words { length self.new.array ≡ length self.old.array }
        ensures slots { length self.new.slots ≡ length self.old.slots }
    {
        match (place, value) {
            (Place::SubmissionHead, Some(Value::Number(n))) => self.head = n as u32,
            (Place::SubmissionTail, Some(Value::Number(n))) => self.tail = n as u32,
            (Place::SubmissionFlags, Some(Value::Number(n))) => self.flags = n as u32,
            (Place::SubmissionDropped, Some(Value::Number(n))) => self.dropped = n as u32,
            (Place::Array(i), Some(Value::Number(n))) => { self.array.set(i as usize, n as u32) }
            (Place::Slot(i), Some(Value::Entry(entry))) => self.slots.set(i as usize, entry),
            // `can_put` allows no other place, and any would be left alone.
            _ => {}
        }
    }
}

impl SubRing {
    /// Returns an empty ring with room for `entries` entries, 1 to 4,096, rounded up to a power of
    /// two. Head and tail start at `base`, and each slot is 64 zero bytes.
    pub fn new(alloc: Global, entries: u32, base: u32) -> Result<SubRing, RingRefusal>
        ensures ok { IfOk result (λ r. r ≡ sub_start entries base) }
        ensures power { IfOk result (λ r. IsNextPowerOfTwo entries (length r.array)) }
        ensures size { result ≡ Err RingRefusal.Size ↔ ((entries ≡ 0) ⊎ (4096 < entries)) }
    {
        if entries == 0 || entries > 4096 {
            return Err(RingRefusal::Size);
        }
        match SubRing::start(alloc, size_for(entries), base) {
            Ok(ring) => Ok(ring),
            Err(_) => Err(RingRefusal::Memory),
        }
    }

    fn start(alloc: Global, size: usize, base: u32) -> Result<SubRing, AllocError>
        requires { IsSize 4096 size }
        ensures { IfOk result (λ r. r
            ≡ record {
              head = base;
              tail = base;
              flags = 0;
              dropped = 0;
              array = replicate size 0;
              slots = replicate size zero_entry;
            }) }
    {
        let zero = Sqe {
            opcode: 0,
            flags: 0,
            ioprio: 0,
            fd: 0,
            off: 0,
            addr: 0,
            len: 0,
            operation_flags: 0,
            user_data: 0,
            buf_index: 0,
            personality: 0,
            splice_fd_in: 0,
            rest: [0; 16],
        };
        let mut array = PagedList::new(alloc);
        array.grow(size, 0)?;
        let mut slots = PagedList::new(alloc);
        slots.grow(size, zero)?;
        Ok(SubRing {
            head: base,
            tail: base,
            flags: 0,
            dropped: 0,
            array,
            slots,
        })
    }

    /// Returns a copy.
    pub fn copy(&self, alloc: Global) -> Result<SubRing, AllocError>
        ensures { IfOk result (λ r. r ≡ self.now) }
    {
        Ok(SubRing {
            head: self.head,
            tail: self.tail,
            flags: self.flags,
            dropped: self.dropped,
            array: self.array.copy(alloc)?,
            slots: self.slots.copy(alloc)?,
        })
    }

    /// Returns the length of the index array, which is also the number of entry slots.
    pub fn size(&self) -> u32
        ensures value { result ≡ length self.now.array }
        ensures formed { SubFormed self.now }
    {
        self.array.len() as u32
    }

    /// Returns the head, which the kernel advances.
    pub fn head(&self) -> u32
        ensures { result ≡ self.now.head }
    {
        self.head
    }

    /// Returns the tail, which the application advances.
    pub fn tail(&self) -> u32
        ensures { result ≡ self.now.tail }
    {
        self.tail
    }

    /// Returns the flags word.
    pub fn flags(&self) -> u32
        ensures { result ≡ self.now.flags }
    {
        self.flags
    }

    /// Returns whether a flag is set.
    pub fn has_flag(&self, flag: RingFlag) -> bool
        ensures { result ≡ has_flag self.now.flags flag }
    {
        self.flags & flag.bit() != 0
    }

    /// Returns how many words were dropped because they were not the index of a slot, modulo 2^32.
    pub fn dropped(&self) -> u32
        ensures { result ≡ self.now.dropped }
    {
        self.dropped
    }

    /// Returns how many words of the index array are pending.
    #[tactic(auto, using(crate::proofs::Laws::sub_length))]
    pub fn waiting(&self) -> u32
        ensures value { result ≡ waiting self.now.head self.now.tail }
        ensures list { result ≡ length (sub_list self.now) }
    {
        self.tail.wrapping_sub(self.head)
    }

    /// Returns whether no word is pending.
    pub fn is_empty(&self) -> bool
        ensures { result ≡ (waiting self.now.head self.now.tail == 0) }
    {
        self.waiting() == 0
    }

    /// Returns whether no word is free.
    pub fn is_full(&self) -> bool
        ensures { IsFalse result ↔ (waiting self.now.head self.now.tail < length self.now.array) }
    {
        self.waiting() >= self.size()
    }

    /// Returns the i-th pending word, counted from 0.
    pub fn word(&self, i: u32) -> u32
        requires { i < length (sub_list self.now) }
        ensures { slice_get (sub_list self.now) i ≡ Some result }
    {
        let at = self.head.wrapping_add(i) as usize % self.array.len();
        self.array[at]
    }

    /// Returns the entry in slot `index`, if there is such a slot.
    pub fn entry(&self, index: u32) -> Option<Sqe>
        ensures { result ≡ slice_get self.now.slots index }
    {
        self.slots.get(index as usize).copied()
    }

    /// Writes an entry slot, as an application does. The caller records the old entry.
    pub fn put_entry(&mut self, slot: u32, entry: Sqe)
        requires { slot < length self.old.slots }
        ensures { self.new ≡ record self.old { slots = slice_set self.old.slots slot entry } }
    {
        self.slots.set(slot as usize, entry);
    }

    /// Appends an index.
    pub fn push(&mut self, index: u32, notes: &mut Recorder)
        requires free { waiting self.old.head self.old.tail < length self.old.array }
        requires numbers { 2 ≤ notes.old.numbers }
        ensures next { self.new ≡ record self.old {
          tail =
              (self.old.tail + 1) % 2 ^ 32;
          array = slice_set self.old.array
              (self.old.tail % length self.old.array) index;
        } }
        ensures list { sub_list self.new ≡ sub_list self.old ++ index ∷ [] }
        ensures keeps { Keeps sub_owns (sub_seen self.old)
            (sub_seen self.new) notes.old.made notes.new.made }
        ensures spends_numbers { notes.old.numbers ≤ notes.new.numbers + 2 }
        ensures spends_completions { notes.old.completions ≤ notes.new.completions }
        ensures spends_others { notes.old.others ≤ notes.new.others }
    {
        let at = self.tail as usize % self.array.len();
        note_word(notes, Place::Array(at as u32), self.array[at]);
        self.array.set(at, index);
        note_word(notes, Place::SubmissionTail, self.tail);
        self.tail = self.tail.wrapping_add(1);
    }

    /// Takes the oldest word. If it is not the index of a slot, it is skipped and counted as
    /// dropped.
    pub fn take(&mut self, notes: &mut Recorder) -> Taken
        requires some { 0 < waiting self.old.head self.old.tail }
        requires numbers { 2 ≤ notes.old.numbers }
        ensures taken { result ≡ taken_of self.old }
        ensures next { self.new ≡ record self.old {
          head =
              (self.old.head + 1) % 2 ^ 32;
          dropped = dropped_after self.old.dropped result;
        } }
        ensures list { sub_list self.old ≡ front_word self.old ∷ sub_list self.new }
        ensures keeps { Keeps sub_owns (sub_seen self.old)
            (sub_seen self.new) notes.old.made notes.new.made }
        ensures spends_numbers { notes.old.numbers ≤ notes.new.numbers + 2 }
        ensures spends_completions { notes.old.completions ≤ notes.new.completions }
        ensures spends_others { notes.old.others ≤ notes.new.others }
    {
        let index = self.array[self.head as usize % self.array.len()];
        note_word(notes, Place::SubmissionHead, self.head);
        self.head = self.head.wrapping_add(1);
        if (index as usize) < self.slots.len() {
            return Taken::Entry(index);
        }
        note_word(notes, Place::SubmissionDropped, self.dropped);
        self.dropped = self.dropped.wrapping_add(1);
        Taken::Dropped
    }

    /// Takes the `count` oldest words at once, and counts `dropped` of them as dropped.
    pub fn take_first(&mut self, count: u32, dropped: u32, notes: &mut Recorder)
        requires some { count ≤ length (sub_list self.old) }
        requires numbers { 2 ≤ notes.old.numbers }
        ensures next { self.new ≡ record self.old {
          head =
              (self.old.head + count) % 2 ^ 32;
          dropped = (self.old.dropped + dropped) % 2 ^ 32;
        } }
        ensures list { sub_list self.new ≡ drop count (sub_list self.old) }
        ensures keeps { Keeps sub_owns (sub_seen self.old)
            (sub_seen self.new) notes.old.made notes.new.made }
        ensures spends_numbers { notes.old.numbers ≤ notes.new.numbers + 2 }
        ensures spends_completions { notes.old.completions ≤ notes.new.completions }
        ensures spends_others { notes.old.others ≤ notes.new.others }
    {
        note_word(notes, Place::SubmissionHead, self.head);
        self.head = self.head.wrapping_add(count);
        if dropped == 0 {
            return;
        }
        note_word(notes, Place::SubmissionDropped, self.dropped);
        self.dropped = self.dropped.wrapping_add(dropped);
    }

    /// Sets or clears a flag, and leaves the others unchanged.
    #[tactic(auto, using(crate::proofs::Flags::with_flag_same))]
    pub fn set_flag(&mut self, flag: RingFlag, on: bool, notes: &mut Recorder)
        requires { 0 < notes.old.numbers }
        ensures next { self.new ≡ record self.old { flags = with_flag self.old.flags flag on } }
        ensures keeps { Keeps sub_owns (sub_seen self.old)
            (sub_seen self.new) notes.old.made notes.new.made }
        ensures named { (p : Place) → named notes.new.made p ≡ None
            → named notes.old.made p ≡ None }
        ensures spends_numbers { notes.old.numbers ≤ notes.new.numbers + 1 }
        ensures spends_completions { notes.old.completions ≤ notes.new.completions }
        ensures spends_others { notes.old.others ≤ notes.new.others }
    {
        if self.has_flag(flag) == on {
            return;
        }
        note_word(notes, Place::SubmissionFlags, self.flags);
        if on {
            self.flags |= flag.bit();
        } else {
            self.flags &= !flag.bit();
        }
    }

    /// Returns its storage.
    pub(crate) fn into_storage(self) -> (PagedList<u32, WORDS>, PagedList<Sqe, SLOTS>) {
        let SubRing {
            head: _,
            tail: _,
            flags: _,
            dropped: _,
            array,
            slots,
        } = self;
        (array, slots)
    }
}
