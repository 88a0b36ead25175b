//! Notes of bytes, one slice at a time.
ghost use Rattle.std.specs.Prelude.{◌≡◌, ◌≢◌, ◌+◌, ◌*◌, ◌<◌, ◌≤◌, ◌^◌, ◌++◌, [], ℕ, length, Some, None, OnOk, OnErr, MatchBool, is_some, true};
ghost use Rattle.std.specs.List.{list_any};
ghost use Rattle.places.specs.View.{named, NamesOnce};
ghost use Rattle.places.specs.Closed.{KeptOf};
ghost use Rattle.places.specs.Runs.{place_in, is_in, offset_in, covers, run_changes, run_total, RunsFit, NotedBytes, AllKept};
ghost use Rattle.places.specs.Masked.{is_kept, marks_from, masked, MaskedOnce};

use crate::notes::byte_changes::{ByteChanges, Stretches};
use crate::notes::clearing::clear_runs;
use crate::notes::marks::{is_any_kept, make_room, trim};
use crate::part::At;
use crate::place::Place;
use std::alloc::{AllocError, Global};
use std::marker::Model;

/// A sequence of byte places: the memory, or the bytes of an object by its number.
#[derive(Clone, Copy)]
pub enum Region {
    Memory,
    File(u32),
    /// The durable contents of a file.
    Durable(u32),
    Pipe(u32),
}

impl Region {
    /// Returns the place of byte `index`.
    pub fn place(&self, index: u32) -> Place
        ensures { result ≡ place_in self.now index }
    {
        match self {
            Region::Memory => Place::MemoryByte(index),
            Region::File(object) => Place::FileByte(*object, index),
            Region::Durable(object) => Place::DurableByte(*object, index),
            Region::Pipe(object) => Place::PipeByte(*object, index),
        }
    }

    // Returns whether a place is a byte of the region.
    pub(crate) fn has(&self, place: Place) -> bool
        ensures { result ≡ is_in self.now place }
    {
        let kind = place.kind();
        let index = place.index();
        match self {
            Region::Memory => 9 == kind,
            Region::File(object) => 10 == kind && *object == index,
            Region::Durable(object) => 11 == kind && *object == index,
            Region::Pipe(object) => 16 == kind && *object == index,
        }
    }

    // Returns the index of a byte of the region.
    pub(crate) fn offset(&self, place: Place) -> u32
        ensures { result ≡ offset_in self.now place }
    {
        match self {
            Region::Memory => place.index(),
            Region::File(_) | Region::Durable(_) | Region::Pipe(_) => place.second(),
        }
    }
}

/// Consecutive bytes of a region.
#[derive(Clone, Copy)]
pub struct Run {
    pub region: Region,
    pub start: u32,
    pub len: usize,
}

/// Runs, their old bytes in one list, and a bit for each byte that was dropped. Closing drops each
/// byte that has its old value again.
#[derive(Drop)]
pub struct ByteNotes {
    runs: Vec<Run>,
    olds: Vec<u8>,
    gone: Vec<u64>,
}

impl Model for ByteNotes {
    ghost use Rattle.std.specs.Prelude.{◌*◌, length, nat_le};
    ghost use Rattle.places.specs.Runs.{ByteList};
    ghost use Rattle.places.specs.Masked.{marks_from, masked, MaskedOnce};

    ghost Value = { ByteList };

    ghost view = { λ a. record {
      runs = a.runs.items;
      olds = masked a.olds.items (marks_from a.gone.items 0 (length a.olds.items));
      is_open = nat_le (length a.olds.items) (64 * length a.gone.items);
    } };

    ghost invariant = { λ a. MaskedOnce a.runs.items a.olds.items a.gone.items };
}

impl ByteNotes {
    /// Returns no notes. Allocates nothing.
    pub fn new(alloc: Global) -> ByteNotes
        ensures runs { result.runs ≡ [] }
        ensures olds { result.olds ≡ [] }
        ensures open { result.is_open ≡ true }
    {
        ByteNotes {
            runs: Vec::new(alloc),
            olds: Vec::new(alloc),
            gone: Vec::new(alloc),
        }
    }

    /// Records a run of old bytes, none of which is recorded. If an allocation
    /// fails, nothing is recorded.
    pub fn note(&mut self, region: Region, start: u32, old: &[u8]) -> Result<(), AllocError>
        requires fresh { (i : ℕ) → i < length old.now
            → named (run_changes self.old.runs self.old.olds) (place_in region (start + i)) ≡ None }
        requires within { start + length old.now ≤ 2 ^ 32 }
        ensures ok { OnOk result
            (NotedBytes (run_changes self.old.runs self.old.olds)
            (run_changes self.new.runs self.new.olds) region start old.now) }
        ensures err { OnErr result (self.new ≡ self.old) }
        ensures open { OnOk result (self.new.is_open ≡ true) }
        ensures kept { AllKept self.old.olds → AllKept self.new.olds }
    {
        let len = old.len();
        self.runs.reserve(1)?;
        append(&mut self.olds, &mut self.gone, old)?;
        self.runs.push_reserved(Run { region, start, len });
        Ok(())
    }

    /// Returns whether a place is a byte in a run.
    pub fn covers(&self, place: Place) -> bool
        ensures { AllKept self.now.olds
            → result ≡ is_some (named (run_changes self.now.runs self.now.olds) place) }
    {
        is_covered(&self.runs, place)
    }

    /// Drops the old bytes that equal those in `whole`, and the runs if no byte remains.
    pub fn close<A: At>(&mut self, whole: &A)
        requires { self.old.is_open ≡ true }
        ensures open { self.new.is_open ≡ true }
        ensures kept { KeptOf (A.seen whole.now) (run_changes self.old.runs self.old.olds)
            (run_changes self.new.runs self.new.olds) }
        ensures once { NamesOnce (run_changes self.old.runs self.old.olds) }
    {
        close_runs(&mut self.runs, &mut self.olds, &mut self.gone, whole);
    }

    /// Frees the memory that no note uses. After this no byte can be dropped.
    pub fn shrink(&mut self)
        ensures runs { self.new.runs ≡ self.old.runs }
        ensures olds { self.new.olds ≡ self.old.olds }
    {
        self.runs.shrink_to_fit();
        self.olds.shrink_to_fit();
        trim(&mut self.gone);
    }

    /// Removes all notes, and keeps the memory for later ones.
    pub fn clear(&mut self)
        ensures runs { self.new.runs ≡ [] }
        ensures olds { self.new.olds ≡ [] }
        ensures open { self.new.is_open ≡ true }
    {
        self.runs.clear();
        self.olds.clear();
        self.gone.clear();
    }

    /// Returns whether there are no runs.
    pub fn is_empty(&self) -> bool
        ensures { MatchBool result (self.now.runs ≡ []) (self.now.runs ≢ []) }
    {
        self.runs.is_empty()
    }

    /// Returns an iterator over the old bytes.
    pub fn changes(&self) -> ByteChanges<'_>
        ensures value { result.left ≡ run_changes self.now.runs self.now.olds }
        ensures once { NamesOnce (run_changes self.now.runs self.now.olds) }
    {
        ByteChanges::new(&self.runs, &self.olds, &self.gone)
    }

    /// Returns an iterator over the runs.
    pub fn stretches(&self) -> Stretches<'_>
        ensures { result.left ≡ run_changes self.now.runs self.now.olds }
    {
        Stretches::new(&self.runs, &self.olds, &self.gone)
    }

    /// Returns how many bytes of memory the notes take, besides this struct.
    pub fn kept_bytes(&self) -> usize {
        size_of::<Run>()
            .saturating_mul(self.runs.capacity())
            .saturating_add(self.olds.capacity())
            .saturating_add(size_of::<u64>().saturating_mul(self.gone.capacity()))
    }
}

/// Drops the old bytes that equal the current ones, and all runs if no byte remains.
fn close_runs<A: At>(runs: &mut Vec<Run>, olds: &mut Vec<u8>, gone: &mut Vec<u64>, whole: &A)
    requires once { MaskedOnce runs.old.items olds.old.items gone.old.items }
    requires room { length olds.old.items ≤ 64 * length gone.old.items }
    ensures once { MaskedOnce runs.new.items olds.new.items gone.new.items }
    ensures room { length olds.new.items ≤ 64 * length gone.new.items }
    ensures kept { KeptOf (A.seen whole.now)
        (run_changes runs.old.items
        (masked olds.old.items (marks_from gone.old.items 0 (length olds.old.items))))
        (run_changes runs.new.items
        (masked olds.new.items (marks_from gone.new.items 0 (length olds.new.items)))) }
{
    clear_marks(runs, olds, gone, whole);
    if is_any_kept(gone, olds.len()) {
        return;
    }
    runs.clear();
    olds.clear();
    gone.clear();
}

/// Drops the old bytes that equal the current ones.
fn clear_marks<A: At>(runs: &[Run], olds: &[u8], gone: &mut Vec<u64>, whole: &A)
    requires room { length olds.now ≤ 64 * length gone.old.items }
    requires fits { run_total runs.now ≡ length olds.now }
    requires within { RunsFit runs.now }
    ensures len { length gone.new.items ≡ length gone.old.items }
    ensures others { (i : ℕ) → length olds.now ≤ i
        → is_kept gone.new.items i ≡ is_kept gone.old.items i }
    ensures kept { KeptOf (A.seen whole.now)
        (run_changes runs.now (masked olds.now (marks_from gone.old.items 0 (length olds.now))))
        (run_changes runs.now (masked olds.now (marks_from gone.new.items 0 (length olds.now)))) }
{
    clear_runs(runs, olds, gone, 0, whole);
}

fn is_covered(runs: &[Run], place: Place) -> bool
    ensures { result ≡ list_any (λ r. covers r place) runs.now }
{
    runs.iter().any(|run| covers_place(*run, place))
}

fn covers_place(run: Run, place: Place) -> bool
    ensures { result ≡ covers run place }
{
    let offset = run.region.offset(place) as usize;
    let start = run.start as usize;
    run.region.has(place) && (start <= offset && offset - start < run.len)
}

/// Appends old bytes, and reserves their bits. If an allocation fails, both lists are unchanged.
fn append(olds: &mut Vec<u8>, gone: &mut Vec<u64>, bytes: &[u8]) -> Result<(), AllocError>
    ensures olds { OnOk result (olds.new.items ≡ olds.old.items ++ bytes.now) }
    ensures room { OnOk result (length olds.new.items ≤ 64 * length gone.new.items) }
    ensures kept { (i : ℕ) → is_kept gone.new.items i ≡ is_kept gone.old.items i }
    ensures err { OnErr result (olds.new.items ≡ olds.old.items) }
    ensures err_gone { OnErr result (gone.new.items ≡ gone.old.items) }
{
    olds.reserve(bytes.len())?;
    let Some(len) = olds.len().checked_add(bytes.len()) else {
        return Err(AllocError);
    };
    make_room(gone, len)?;
    match olds.extend_from_slice(bytes) {
        Ok(()) => Ok(()),
        // The memory is reserved above.
        Err(_) => unreachable!(),
    }
}
