//! Records old values while a step changes the state.
ghost use Rattle.std.specs.Prelude.{◌≡◌, ◌+◌, ◌<◌, ◌≤◌, ◌^◌, [], ℕ, length, None, Some, IsOk, OnOk, OnErr, option_map, true, is_some};
ghost use Rattle.places.specs.Places.{is_number, is_other, InLimits};
ghost use Rattle.places.specs.Slots.{value_of};
ghost use Rattle.places.specs.View.{Noted, Exact, named, undo};
ghost use Rattle.places.specs.Notes.{Notes, room_for, Spends, HasSameRoom};
ghost use Rattle.places.specs.Runs.{place_in, NotedBytes};
ghost use Rattle.places.specs.declared.value.Value.TheVariants.{Number, Completed, Requested};
ghost use Rattle.places.specs.declared.place.Place.TheVariants.{Completion, Request};

use crate::notes::completions::CompletionNote;
use crate::notes::numbers::NumberNote;
use crate::notes::rest::Rest;
use crate::notes::room::Room;
use crate::notes::rows::{RowNote, Small};
use crate::notes::runs::Region;
use crate::notes::slots::{Slots, either};
use crate::notes::wide::Wide;
use crate::packing::packed::Packed;
use crate::part::At;
use crate::place::Place;
use crate::record::Record;
use crate::summary::summary_of;
use crate::value::Value;
use entries::{Cqe, Row};
use std::alloc::{AllocError, Global};
use std::marker::Model;
use std::mem;

/// How many slots places can have within the limits of a setup: those of numbers, of completions,
/// and of requests and other places.
const NUMBER_SLOTS: usize = 8192;

const COMPLETION_SLOTS: usize = 8192;

const ROW_SLOTS: usize = 262144;

/// Notes of the places that a step changes, with their old values. A part of the state adds a note
/// before it writes a place.
///
/// The first note of a place counts. A caller that cannot handle an allocation failure between two
/// writes reserves room for its notes first. The methods that take a large old value are inlined:
/// each call would copy it.
pub struct Recorder {
    numbers: Slots<NumberNote>,
    completions: Slots<CompletionNote>,
    rows: Slots<RowNote>,
    rest: Rest,
    room: Room,
    /// A box for notes that cannot be packed, allocated before the first of them is added, so
    /// that closing cannot fail.
    spare: Wide,
    /// The buffer in which records are packed.
    scratch: Vec<u8>,
    alloc: Global,
}

// Written by hand, so that dropping a recorder is one step of a proof.
impl Drop for Recorder {
    fn drop(self) {
        let Recorder {
            numbers: _,
            completions: _,
            rows: _,
            rest: _,
            room: _,
            spare: _,
            scratch: _,
            alloc: _,
        } = self;
    }
}

impl Model for Recorder {
    ghost use Rattle.places.specs.Notes.{Notes};
    ghost use Rattle.places.specs.All.{all_changes, IsSound, IsReady};

    ghost Value = { Notes };

    ghost view = { λ a. record {
      made = all_changes a.numbers.notes a.completions.notes a.rows.notes a.rest;
      numbers =
          a.room.numbers;
      completions = a.room.completions;
      others = a.room.others;
    } };

    ghost invariant = { λ a. IsSound a.numbers a.completions a.rows a.rest a.room
        × IsReady a.numbers.notes a.completions.notes a.rows.notes a.room a.spare };
}

impl Recorder {
    /// Returns a recorder without notes. Allocates nothing.
    pub fn new(alloc: Global) -> Recorder
        ensures { result.made ≡ [] }
    {
        Recorder {
            numbers: Slots::new(alloc),
            completions: Slots::new(alloc),
            rows: Slots::new(alloc),
            rest: Rest::new(),
            room: Room::new(),
            spare: Wide::new(),
            scratch: Vec::new(alloc),
            alloc,
        }
    }

    /// Reserves memory for the next n notes of each kind: numbers, completion slots, and other
    /// places. The places must be within the limits of a setup.
    pub fn room(&mut self, n: usize) -> Result<(), AllocError>
        ensures made { self.new.made ≡ self.old.made }
        ensures numbers { OnOk result (n ≤ self.new.numbers) }
        ensures completions { OnOk result (n ≤ self.new.completions) }
        ensures others { OnOk result (n ≤ self.new.others) }
        ensures kept { HasSameRoom self.old self.new }
        ensures there { n ≤ self.old.numbers → n ≤ self.old.completions → n ≤ self.old.others
            → IsOk result }
    {
        self.room_for_numbers(n)?;
        self.room_for_completions(n)?;
        self.room_for_others(n)
    }

    /// Reserves memory for the next n notes of places that hold neither numbers nor
    /// completions of the ring.
    pub fn room_for_others(&mut self, n: usize) -> Result<(), AllocError>
        ensures made { self.new.made ≡ self.old.made }
        ensures room { OnOk result (n ≤ self.new.others) }
        ensures kept { HasSameRoom self.old self.new }
        ensures there { n ≤ self.old.others → IsOk result }
    {
        if n > self.room.others {
            let Some(held) = self.room.held.checked_add(n - self.room.others) else {
                return Err(AllocError);
            };
            self.spare.ready(self.alloc)?;
            self.rows.room(n, ROW_SLOTS)?;
            self.rest.room(self.alloc, held)?;
            self.room.others = n;
            self.room.held = held;
        }
        Ok(())
    }

    /// Allocates memory for n notes of requests at once, for speed only: unlike
    /// `room_for_others` it guarantees nothing.
    pub fn expect_rows(&mut self, n: usize) -> Result<(), AllocError>
        ensures made { self.new.made ≡ self.old.made }
        ensures kept { HasSameRoom self.old self.new }
    {
        self.rows.room(n, 0)
    }

    /// Reserves memory for the next n notes of numbers.
    #[inline(always)]
    pub fn room_for_numbers(&mut self, n: usize) -> Result<(), AllocError>
        ensures made { self.new.made ≡ self.old.made }
        ensures room { OnOk result (n ≤ self.new.numbers) }
        ensures kept { HasSameRoom self.old self.new }
        ensures there { n ≤ self.old.numbers → IsOk result }
    {
        if n > self.room.numbers {
            let Some(held) = self.room.held.checked_add(n - self.room.numbers) else {
                return Err(AllocError);
            };
            self.spare.ready(self.alloc)?;
            self.numbers.room(n, NUMBER_SLOTS)?;
            self.rest.room(self.alloc, held)?;
            self.room.numbers = n;
            self.room.held = held;
        }
        Ok(())
    }

    /// Reserves memory for the next n notes of completion slots.
    #[inline(always)]
    pub fn room_for_completions(&mut self, n: usize) -> Result<(), AllocError>
        ensures made { self.new.made ≡ self.old.made }
        ensures room { OnOk result (n ≤ self.new.completions) }
        ensures kept { HasSameRoom self.old self.new }
        ensures there { n ≤ self.old.completions → IsOk result }
    {
        if n > self.room.completions {
            let Some(held) = self.room.held.checked_add(n - self.room.completions) else {
                return Err(AllocError);
            };
            self.spare.ready(self.alloc)?;
            self.completions.room(n, COMPLETION_SLOTS)?;
            self.rest.room(self.alloc, held)?;
            self.room.completions = n;
            self.room.held = held;
        }
        Ok(())
    }

    /// Records the value of a place, unless the place is recorded already. Allocates nothing if
    /// there is room. If an allocation fails, nothing is recorded.
    ///
    /// A single byte, or a value of another type than its place holds, takes time
    /// linear in the number of notes.
    #[inline(always)]
    pub fn note(&mut self, place: Place, old: Option<Value>) -> Result<(), AllocError>
        ensures ok { OnOk result (Noted self.old.made self.new.made place old) }
        ensures err { OnErr result (self.new.made ≡ self.old.made) }
        ensures there { 0 < room_for self.old place → InLimits place → IsOk result }
        ensures spends { OnOk result (Spends self.old self.new place) }
        ensures kept { OnErr result (HasSameRoom self.old self.new) }
    {
        if let Some(Value::Number(number)) = old {
            if place.is_number() {
                return self.note_number(place, number);
            }
        }
        match (place, old) {
            (Place::Completion(slot), Some(Value::Completed(completion))) => self.note_completion(
                slot, completion,
            ),
            (Place::Request(row), Some(Value::Requested(before))) => self.note_row(
                row,
                Some(before),
            ),
            (Place::Request(row), None) => self.note_row(row, None),
            _ => self.note_rare(place, old),
        }
    }

    #[inline(always)]
    fn note_rare(&mut self, place: Place, old: Option<Value>) -> Result<(), AllocError>
        ensures ok { OnOk result (Noted self.old.made self.new.made place old) }
        ensures err { OnErr result (self.new.made ≡ self.old.made) }
        ensures there { 0 < room_for self.old place → InLimits place → IsOk result }
        ensures spends { OnOk result (Spends self.old self.new place) }
        ensures kept { OnErr result (HasSameRoom self.old self.new) }
    {
        if !place.is_other() {
            return self.note_other(place, old);
        }
        match old {
            None => self.note_small(place, None),
            Some(value) => match Small::from_value(value) {
                Some(small) => self.note_small(place, Some(small)),
                None => self.note_other(place, old),
            },
        }
    }

    /// Records the value of a place for which `is_other` holds, or that the place is absent.
    #[inline(always)]
    fn note_small(&mut self, place: Place, old: Option<Small>) -> Result<(), AllocError>
        requires { is_other place ≡ true }
        ensures ok { OnOk result
            (Noted self.old.made self.new.made place (option_map value_of old)) }
        ensures err { OnErr result (self.new.made ≡ self.old.made) }
        ensures there { 0 < self.old.others → InLimits place → IsOk result }
        ensures spends { OnOk result (Spends self.old self.new place) }
        ensures kept { OnErr result (HasSameRoom self.old self.new) }
    {
        if self.rest.names(place) {
            return Ok(());
        }
        self.spare.ready(self.alloc)?;
        self.rows.note(RowNote::of_other(place, old))?;
        self.room.spend_other();
        Ok(())
    }

    /// Records the number in a place.
    #[inline(always)]
    pub fn note_number(&mut self, place: Place, old: u64) -> Result<(), AllocError>
        requires { is_number place ≡ true }
        ensures ok { OnOk result (Noted self.old.made self.new.made place (Some (Number old))) }
        ensures err { OnErr result (self.new.made ≡ self.old.made) }
        ensures there { 0 < self.old.numbers → InLimits place → IsOk result }
        ensures spends { OnOk result (Spends self.old self.new place) }
        ensures kept { OnErr result (HasSameRoom self.old self.new) }
    {
        if self.rest.names(place) {
            return Ok(());
        }
        self.spare.ready(self.alloc)?;
        self.numbers.note(NumberNote::new(place, old))?;
        self.room.spend_number();
        Ok(())
    }

    /// Records the completion in a slot of the completion ring.
    #[inline(always)]
    pub fn note_completion(&mut self, slot: u32, old: Cqe) -> Result<(), AllocError>
        ensures ok { OnOk result
            (Noted self.old.made self.new.made (Completion slot) (Some (Completed old))) }
        ensures err { OnErr result (self.new.made ≡ self.old.made) }
        ensures there { 0 < self.old.completions → slot < 8192 → IsOk result }
        ensures spends { OnOk result (Spends self.old self.new (Completion slot)) }
        ensures kept { OnErr result (HasSameRoom self.old self.new) }
    {
        if self.rest.names(Place::Completion(slot)) {
            return Ok(());
        }
        self.spare.ready(self.alloc)?;
        self.completions.note(CompletionNote { slot, old })?;
        self.room.spend_completion();
        Ok(())
    }

    /// Records a request, or that it is absent.
    #[inline(always)]
    pub fn note_row(&mut self, row: u32, old: Option<Row>) -> Result<(), AllocError>
        ensures ok { OnOk result
            (Noted self.old.made self.new.made (Request row) (option_map Requested old)) }
        ensures err { OnErr result (self.new.made ≡ self.old.made) }
        ensures there { 0 < self.old.others → row < 65536 → IsOk result }
        ensures spends { OnOk result (Spends self.old self.new (Request row)) }
        ensures kept { OnErr result (HasSameRoom self.old self.new) }
    {
        if self.rest.names(Place::Request(row)) {
            return Ok(());
        }
        self.spare.ready(self.alloc)?;
        self.rows.note(RowNote::new(row, old))?;
        self.room.spend_other();
        Ok(())
    }

    /// Records the bytes of a region from `start` on, none of which is recorded.
    pub fn note_bytes(&mut self, region: Region, start: u32, old: &[u8]) -> Result<(), AllocError>
        requires fresh { (i : ℕ) → i < length old.now
            → named self.old.made (place_in region (start + i)) ≡ None }
        requires within { start + length old.now ≤ 2 ^ 32 }
        ensures ok { OnOk result (NotedBytes self.old.made self.new.made region start old.now) }
        ensures err { OnErr result (self.new.made ≡ self.old.made) }
        ensures room { HasSameRoom self.old self.new }
    {
        self.rest.note_bytes(self.alloc, region, start, old)?;
        Ok(())
    }

    // Records a place and its value as a single note, after a search through all notes.
    fn note_other(&mut self, place: Place, old: Option<Value>) -> Result<(), AllocError>
        ensures ok { OnOk result (Noted self.old.made self.new.made place old) }
        ensures err { OnErr result (self.new.made ≡ self.old.made) }
        ensures there { 0 < room_for self.old place → IsOk result }
        ensures spends { OnOk result (Spends self.old self.new place) }
        ensures kept { OnErr result (HasSameRoom self.old self.new) }
    {
        if self.is_noted(place) {
            return Ok(());
        }
        let mut room = self.room;
        room.spend(place);
        let Some(held) = room.held.checked_add(1) else {
            return Err(AllocError);
        };
        self.rest.room(self.alloc, held)?;
        self.rest.push(place, old);
        self.room = room;
        Ok(())
    }

    // Returns whether a place is recorded, by a search through all notes.
    fn is_noted(&self, place: Place) -> bool
        ensures { result ≡ is_some (named self.now.made place) }
    {
        let by_slot = either(self.completions.names(place), self.rows.names(place));
        let by_kind = either(
            self.rest.covers(place),
            either(self.numbers.names(place), by_slot),
        );
        either(self.rest.names(place), by_kind)
    }

    /// Removes all notes. Keeps their memory for the next ones, that of rows, numbers and
    /// completions only if it is small. Allocates nothing.
    pub fn forget(&mut self)
        ensures { self.new.made ≡ [] }
    {
        self.numbers.forget();
        self.completions.forget();
        self.rows.forget();
        self.rest.forget();
        self.room = Room::new();
    }

    /// Returns the undo record: the notes whose place has another value in `whole`. It cannot fail.
    /// If there is no memory to pack the notes, the record takes them with their memory.
    pub fn close<A: At>(self, whole: &A) -> Record
        ensures { Exact (undo (A.seen whole.now) self.made) (A.seen whole.now) result }
    {
        let mut notes = self;
        notes.finish(whole)
    }

    /// The same, but the recorder stays and takes the next notes. It keeps its marks, and the
    /// memory of the notes if it is small.
    pub fn finish<A: At>(&mut self, whole: &A) -> Record
        ensures exact { Exact (undo (A.seen whole.now) self.old.made) (A.seen whole.now) result }
        ensures none { self.new.made ≡ [] }
    {
        let numbers = self.numbers.close(whole);
        let completions = self.completions.close(whole);
        let rows = self.rows.close(whole);
        let rest = self.rest.close(whole);
        self.room = Room::new();
        let summary = summary_of(&numbers, &completions, &rows, &rest);
        match Packed::from_parts(&numbers, &completions, &rows, &mut self.scratch) {
            Ok(packed) => {
                self.numbers.reuse(numbers);
                self.completions.reuse(completions);
                self.rows.reuse(rows);
                Record::from_parts(packed, Wide::new(), rest, summary)
            }
            Err(_) => {
                let spare = mem::replace(&mut self.spare, Wide::new());
                let wide = spare.with(numbers, completions, rows);
                Record::from_parts(Packed::new(), wide, rest, summary)
            }
        }
    }
}
