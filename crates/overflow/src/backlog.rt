//! The backlog of overflowed completions.
ghost use Rattle.std.specs.Prelude.{◌≡◌, ◌==◌, ◌+◌, ◌<◌, ◌≤◌, ◌^◌, length, take, IfOk, OnOk, OnErr, OnSome, None};
ghost use Rattle.places.specs.View.{Keeps, named, put_at};
ghost use Rattle.places.specs.declared.place.Place.{Place};
ghost use Rattle.entries.specs.declared.completion.Cqe.{Cqe};
ghost use Rattle.overflow.specs.Backlogs.{kept, is_clear, backlog_start, backlog_owns, backlog_seen, backlog_can_put, backlog_with, backlog_flushed};

use entries::Cqe;
use places::{At, Part, Place, Recorder, Value};
use std::alloc::{AllocError, Global};
use std::marker::Model;

/// All completions that ever overflowed, numbered over the whole run. Those from number `front` on
/// are pending; the others have been flushed.
#[derive(Drop)]
pub struct Backlog {
    items: Vec<Cqe>,
    front: u32,
}

impl Model for Backlog {
    ghost use Rattle.overflow.specs.Backlogs.{BacklogState, BacklogFormed};

    ghost Value = { BacklogState };

    ghost view = { λ a. record { items = a.items.items; front = a.front } };

    ghost invariant = { λ a. BacklogFormed (record { items = a.items.items; front = a.front }) };
}

impl At for Backlog {
    ghost seen = { backlog_seen };

    fn at(&self, place: Place) -> Option<Value> {
        match place {
            Place::Backlog(i) => match self.items.get(i as usize) {
                Some(c) => Some(Value::Completed(*c)),
                None => None,
            },
            Place::BacklogFront => Some(Value::Number(self.front as u64)),
            _ => None,
        }
    }

    fn number_at(&self, place: Place) -> Option<u64> {
        match place {
            Place::BacklogFront => Some(self.front as u64),
            _ => None,
        }
    }
}

impl Part for Backlog {
    ghost owns = { backlog_owns };

    ghost can_put = { backlog_can_put };

    fn put(&mut self, place: Place, value: Option<Value>)
        requires { backlog_can_put self.old place value }
        ensures put { (q : Place)
            → backlog_seen self.new q ≡ put_at (backlog_seen self.old) place value q }
        ensures len { OnSome value (length self.new.items ≡ length self.old.items) }
    {
        match (place, value) {
            (Place::Backlog(i), Some(Value::Completed(c))) => self.items[i as usize] = c,
            (Place::Backlog(i), None) => self.items.truncate(i as usize),
            (Place::BacklogFront, Some(Value::Number(n))) => self.front = n as u32,
            // `can_put` allows no other place, and any would be left alone.
            _ => {}
        }
    }
}

impl Backlog {
    /// Returns an empty backlog. Allocates nothing.
    pub fn new(alloc: Global) -> Backlog
        ensures { result ≡ backlog_start }
    {
        Backlog {
            items: Vec::new(alloc),
            front: 0,
        }
    }

    /// Returns a copy.
    pub fn copy(&self, alloc: Global) -> Result<Backlog, AllocError>
        ensures { IfOk result (λ b. b ≡ self.now) }
    {
        Ok(Backlog {
            items: Vec::from_slice(alloc, &self.items)?,
            front: self.front,
        })
    }

    /// Returns how many completions ever overflowed, the flushed ones included.
    pub fn len(&self) -> usize
        ensures len { result ≡ length self.now.items }
        ensures small { result < 2 ^ 63 }
    {
        self.items.len()
    }

    /// Returns the number of the first pending completion.
    pub fn front(&self) -> u32
        ensures value { result ≡ self.now.front }
        ensures small { result < 2 ^ 32 }
    {
        self.front
    }

    /// Returns how many completions are pending.
    pub fn kept(&self) -> usize
        ensures value { result ≡ length (kept self.now) }
        ensures all { self.now.front ≤ length self.now.items
            → self.now.front + result ≡ length self.now.items }
    {
        let all = self.items.len();
        all.saturating_sub(self.front as usize)
    }

    /// Returns whether none is pending.
    pub fn is_empty(&self) -> bool
        ensures { result ≡ is_clear self.now }
    {
        self.kept() == 0
    }

    /// Removes the completions from number n on, pending or flushed. Allocates nothing.
    pub fn truncate(&mut self, n: usize)
        ensures { self.new ≡ record self.old { items = take n self.old.items } }
    {
        self.items.truncate(n);
    }

    /// Returns the first n pending completions.
    pub(crate) fn first(&self, n: usize) -> &[Cqe]
        requires { self.now.front + n ≤ length self.now.items }
        ensures { result.now ≡ take n (kept self.now) }
    {
        let front = self.front as usize;
        &self.items[front..front + n]
    }

    /// Appends completions.
    pub(crate) fn add(&mut self, list: &[Cqe], notes: &mut Recorder) -> Result<(), AllocError>
        requires { length self.old.items + length list.now ≤ 65536 }
        ensures ok { OnOk result (self.new ≡ backlog_with self.old list.now) }
        ensures err { OnErr result (self.new ≡ self.old) }
        ensures keeps { Keeps backlog_owns (backlog_seen self.old)
            (backlog_seen self.new) notes.old.made notes.new.made }
        ensures named { (p : Place) → named notes.new.made p ≡ None
            → named notes.old.made p ≡ None }
        ensures numbers { notes.old.numbers ≤ notes.new.numbers }
        ensures completions { notes.old.completions ≤ notes.new.completions }
    {
        let start = self.items.len();
        for i in 0..list.len() {
            notes.note(Place::Backlog((start + i) as u32), None)?;
        }
        self.items.extend_from_slice(list)
    }

    /// Marks the first `count` pending completions as flushed.
    pub(crate) fn pass(&mut self, count: u32, notes: &mut Recorder)
        requires kept { self.old.front + count ≤ 65536 }
        requires numbers { 0 < notes.old.numbers }
        ensures next { self.new ≡ backlog_flushed self.old count }
        ensures keeps { Keeps backlog_owns (backlog_seen self.old)
            (backlog_seen self.new) notes.old.made notes.new.made }
        ensures named { (p : Place) → named notes.new.made p ≡ None
            → named notes.old.made p ≡ None }
        ensures numbers { notes.old.numbers ≤ notes.new.numbers + 1 }
    {
        if count == 0 {
            return;
        }
        match notes.note_number(Place::BacklogFront, self.front as u64) {
            Ok(()) => self.front += count,
            // The memory is reserved already.
            Err(_) => unreachable!(),
        }
    }
}
