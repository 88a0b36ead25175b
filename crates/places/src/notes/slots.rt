//! Notes of places that have a slot number. Adding a note, at most one for each
//! place, takes constant time.
ghost use Rattle.std.specs.Prelude.{◌≡◌, ◌≢◌, ◌+◌, ◌-◌, ◌<◌, ◌≤◌, ◌∷◌, [], ℕ, length, map, slice_get, IsOk, OnOk, OnErr, MatchBool, is_some, ◌||◌, vec_len, vec_capacity};
ghost use Rattle.places.specs.declared.value.Change.{Change};
ghost use Rattle.std.specs.List.{list_any};
ghost use Rattle.places.specs.Places.{same_place};
ghost use Rattle.places.specs.View.{Noted, NamesOnce, named};
ghost use Rattle.places.specs.Closed.{KeptOf};
ghost use Rattle.places.specs.Marks.{IsMarked};
ghost use Rattle.compact_size.specs.Reading.{Puts};
ghost use Rattle.places.specs.Packed.{change_of, after_change};

use crate::part::At;
use crate::place::Place;
use crate::value::{Change, is_same};
use std::alloc::{AllocError, Global};
use std::marker::Model;
use std::mem;

/// The number of notes that the first allocation has room for.
const FIRST_NOTES: usize = 4;

/// After a step with more notes than this, their memory is freed and not reused.
const FEW_NOTES: usize = 64;

/// A note of a place that has a slot: a number that is unique among places of this kind of note.
pub trait Slotted {
    /// The slot of the place.
    ghost slot: { Self → ℕ };

    /// The place and its old value.
    ghost change: { Self → Change };

    fn slot(&self) -> usize
        ensures { result ≡ slot self.now };

    fn place(&self) -> Place
        ensures { result ≡ (change self.now).place };

    fn change(&self) -> Change
        ensures { result ≡ change self.now };

    /// Appends the note to packed bytes. Fails if an allocation fails, or if the old
    /// value has no packed form.
    fn pack(&self, out: &mut Vec<u8>) -> Result<(), AllocError>
        ensures { OnOk result
            (Puts change_of after_change out.old.items (change self.now ∷ []) out.new.items) };

    /// Returns whether the place has another value in `whole`.
    fn differs<A: At>(&self, whole: &A) -> bool
        ensures { MatchBool result ((change self.now).old
            ≢ A.seen whole.now (change self.now).place) ((change self.now).old
            ≡ A.seen whole.now (change self.now).place) };

    /// Notes with one slot have one place.
    ghost one_place: { (x y : Self) → slot x ≡ slot y → (change x).place ≡ (change y).place };

    /// Notes of one place have one slot.
    ghost one_slot: { (x y : Self) → (change x).place ≡ (change y).place → slot x ≡ slot y };
}

/// Notes, and for each slot a mark: the index of its note. A mark counts only if the note at its
/// index has that slot, so marks of earlier notes need no clearing.
#[derive(Drop)]
pub struct Slots<N: Slotted> {
    notes: Vec<N>,
    marks: Vec<usize>,
}

impl<N: Slotted> Model for Slots<N> {
    ghost use Rattle.std.specs.Prelude.{vec_len, vec_capacity, length, ◌-◌};
    ghost use Rattle.places.specs.Marks.{SlotList, SlotsOnce};

    ghost Value = { SlotList N };

    ghost view = { λ a. record {
      notes = a.notes.items;
      spare = vec_capacity a.notes - vec_len a.notes;
      reached = length
          a.marks.items;
    } };

    ghost invariant = { λ a. SlotsOnce N.slot N.change a.notes.items a.marks.items };
}

impl<N: Slotted + Copy> Slots<N> {
    /// Returns no notes. Allocates nothing.
    pub fn new(alloc: Global) -> Slots<N>
        ensures { result.notes ≡ [] }
    {
        Slots {
            notes: Vec::new(alloc),
            marks: Vec::new(alloc),
        }
    }

    /// Adds a note, unless its place has one. Allocates nothing if there is reserved memory
    /// and a mark for its slot.
    #[inline(always)]
    pub fn note(&mut self, note: N) -> Result<(), AllocError>
        ensures ok { OnOk result
            (Noted (map N.change self.old.notes) (map N.change self.new.notes) (N.change note).place
            (N.change note).old) }
        ensures err { OnErr result (self.new.notes ≡ self.old.notes) }
        ensures there { 0 < self.old.spare → N.slot note < self.old.reached → IsOk result }
        ensures spare { self.old.spare ≤ self.new.spare + 1 }
        ensures kept { OnErr result (self.old.spare ≤ self.new.spare) }
        ensures reached { self.old.reached ≤ self.new.reached }
    {
        let slot = note.slot();
        if is_marked(&self.notes, &self.marks, slot) {
            return Ok(());
        }
        let at = self.notes.len();
        reach(&mut self.marks, slot)?;
        grow(&mut self.notes)?;
        self.notes.push_reserved(note);
        self.marks[slot] = at;
        Ok(())
    }

    /// Reserves memory for the next n notes with slots below `limit`.
    pub fn room(&mut self, n: usize, limit: usize) -> Result<(), AllocError>
        ensures notes { self.new.notes ≡ self.old.notes }
        ensures room { OnOk result (n ≤ self.new.spare) }
        ensures marks { OnOk result (limit ≤ self.new.reached) }
        ensures there { n ≤ self.old.spare → limit ≤ self.old.reached → IsOk result }
        ensures spare { self.old.spare ≤ self.new.spare }
        ensures reached { self.old.reached ≤ self.new.reached }
    {
        if limit > 0 {
            reach(&mut self.marks, limit - 1)?;
        }
        self.notes.reserve_exact(n)?;
        Ok(())
    }
}

impl<N: Slotted + Copy> Slots<N> {
    /// Returns whether a place has a note.
    pub fn names(&self, place: Place) -> bool
        ensures { result ≡ is_some (named (map N.change self.now.notes) place) }
    {
        has_note(&self.notes, place)
    }

    /// Removes and returns the notes whose place has another value in `whole`, and drops the
    /// others. The memory goes with those returned.
    pub fn close<A: At>(&mut self, whole: &A) -> Vec<N>
        ensures kept { KeptOf (A.seen whole.now) (map N.change self.old.notes)
            (map N.change result.items) }
        ensures once { NamesOnce (map N.change self.old.notes) }
        ensures none { self.new.notes ≡ [] }
    {
        let mut notes = take_notes(&mut self.notes);
        drop_same_notes(&mut notes, whole);
        notes
    }

    /// Removes all notes. Their memory stays for later ones, unless it is large.
    pub fn forget(&mut self)
        ensures { self.new.notes ≡ [] }
    {
        let notes = take_notes(&mut self.notes);
        self.notes = emptied(notes);
    }

    /// Takes over the memory of returned notes for later ones, unless it is large.
    pub fn reuse(&mut self, notes: Vec<N>)
        ensures { self.new.notes ≡ [] }
    {
        self.notes = emptied(notes);
    }
}

fn has_note<N: Slotted>(notes: &[N], place: Place) -> bool
    ensures { result ≡ list_any (λ n. same_place (N.change n).place place) notes.now }
{
    notes.iter().any(|n| is_same_place(n.place(), place))
}

/// Returns whether one of the notes has this place.
pub fn names_place<N: Slotted>(notes: &[N], place: Place) -> bool
    ensures { result ≡ is_some (named (map N.change notes.now) place) }
{
    has_note(notes, place)
}

/// Returns `a || b`.
pub fn either(a: bool, b: bool) -> bool
    ensures { result ≡ (a || b) }
{
    a || b
}

/// Returns whether two places are equal.
pub fn is_same_place(a: Place, b: Place) -> bool
    ensures { result ≡ same_place a b }
{
    a.equals(&b)
}

fn drop_same_notes<N: Slotted + Copy, A: At>(notes: &mut Vec<N>, whole: &A)
    ensures { KeptOf (A.seen whole.now) (map N.change notes.old.items)
        (map N.change notes.new.items) }
{
    notes.retain(
        |n: &N| -> bool
            ensures { MatchBool result ((N.change n.now).old
                ≢ A.seen whole.entry.now (N.change n.now).place) ((N.change n.now).old
                ≡ A.seen whole.entry.now (N.change n.now).place) }
        { n.differs(whole) },
    );
}

/// Takes the notes and their memory out of the list.
fn take_notes<N: Slotted + Copy>(notes: &mut Vec<N>) -> Vec<N>
    ensures taken { result.items ≡ notes.old.items }
    ensures none { notes.new.items ≡ [] }
{
    let none = Vec::new(*notes.allocator());
    mem::replace(notes, none)
}

/// Returns an empty list, in the memory of the given notes if they are few.
fn emptied<N: Slotted + Copy>(notes: Vec<N>) -> Vec<N>
    ensures { result.items ≡ [] }
{
    let mut notes = notes;
    if notes.len() > FEW_NOTES {
        return Vec::new(*notes.allocator());
    }
    notes.clear();
    notes
}

/// Drops the changes whose place has its old value in `whole`.
pub fn drop_same<A: At>(notes: &mut Vec<Change>, whole: &A)
    ensures kept { KeptOf (A.seen whole.now) notes.old.items notes.new.items }
    ensures once { NamesOnce notes.old.items → NamesOnce notes.new.items }
{
    notes.retain(
        |c: &Change| -> bool
            ensures { MatchBool result (c.now.old ≢ A.seen whole.entry.now c.now.place) (c.now.old
                ≡ A.seen whole.entry.now c.now.place) }
        { differs(*c, whole) },
    );
}

/// Returns whether the place of a change has another value in `whole` than the old one.
pub fn differs<A: At>(change: Change, whole: &A) -> bool
    ensures { MatchBool result (change.old ≢ A.seen whole.now change.place) (change.old
        ≡ A.seen whole.now change.place) }
{
    !is_same(change.old, whole.at(change.place))
}

/// Makes room for one more note. A full list doubles, from `FIRST_NOTES` on.
fn grow<N>(notes: &mut Vec<N>) -> Result<(), AllocError>
    ensures items { notes.new.items ≡ notes.old.items }
    ensures len { vec_len notes.new ≡ vec_len notes.old }
    ensures ok { OnOk result (vec_len notes.new < vec_capacity notes.new) }
    ensures capacity { vec_capacity notes.old ≤ vec_capacity notes.new }
    ensures there { vec_len notes.old < vec_capacity notes.old → IsOk result }
{
    if notes.len() == notes.capacity() {
        notes.reserve_exact(notes.len().max(FIRST_NOTES))?;
    }
    Ok(())
}

/// Extends the marks to include a slot.
fn reach(marks: &mut Vec<usize>, slot: usize) -> Result<(), AllocError>
    ensures reached { OnOk result (slot < length marks.new.items) }
    ensures there { slot < length marks.old.items → IsOk result }
    ensures longer { length marks.old.items ≤ length marks.new.items }
    ensures kept { (i : ℕ) → i < length marks.old.items
        → slice_get marks.new.items i ≡ slice_get marks.old.items i }
{
    if slot < marks.len() {
        return Ok(());
    }
    extend_to(marks, slot)
}

/// Extends shorter marks. A function of its own, so that the test of the length is inlined.
#[inline(never)]
fn extend_to(marks: &mut Vec<usize>, slot: usize) -> Result<(), AllocError>
    requires { length marks.old.items ≤ slot }
    ensures reached { OnOk result (slot < length marks.new.items) }
    ensures longer { length marks.old.items ≤ length marks.new.items }
    ensures kept { (i : ℕ) → i < length marks.old.items
        → slice_get marks.new.items i ≡ slice_get marks.old.items i }
{
    let Some(len) = slot.checked_add(1) else {
        return Err(AllocError);
    };
    marks.resize(len, 0)
}

/// Returns whether a slot has a note.
fn is_marked<N: Slotted>(notes: &[N], marks: &[usize], slot: usize) -> bool
    ensures { MatchBool result (IsMarked N.slot notes.now marks.now slot)
        (¬ (IsMarked N.slot notes.now marks.now slot)) }
{
    if slot < marks.len() {
        let at = marks[slot];
        if at < notes.len() {
            return notes[at].slot() == slot;
        }
    }
    false
}
