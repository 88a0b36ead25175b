//! Packed changes. A change is a head, an index and its old value. The head is the kind of the place
//! plus 30 times the shape of the value.
ghost use Rattle.std.specs.Prelude.{◌≡◌, ◌+◌, ◌*◌, ◌^◌, ◌<◌, ◌≤◌, ◌∷◌, [], None, Some, OnOk, MatchOption, is_some};
ghost use Rattle.places.specs.declared.listed.Listed.TheVariants.{Requests, Overflowed};
ghost use Rattle.places.specs.declared.value.Value.TheVariants.{Number};
ghost use Rattle.places.specs.Places.{kind_of, same_place};
ghost use Rattle.places.specs.View.{named};
ghost use Rattle.places.specs.Notes.{left};
ghost use Rattle.places.specs.PlaceNumbers.{place_of};
ghost use Rattle.places.specs.Heads.{IsHead, IsFirst, number_was};
ghost use Rattle.compact_size.specs.Reading.{read_all, Puts};
ghost use Rattle.compact_size.specs.CompactSizes.{number_of, after, after_many};
ghost use Rattle.places.specs.declared.value.Value.{Value};
ghost use Rattle.places.specs.Packed.{Spells, framed_value, value_of_shape, after_value, change_of, after_change, packed};

use crate::listed::Listed;
use crate::notes::leaving::left_without;
use crate::notes::slots::is_same_place;
use crate::packing::values::{read_completion, read_entry, read_reaped, read_row, read_stage};
use crate::place::Place;
use crate::value::{Change, Value};
use compact_size::{CompactSizes, put_frame, put_numbers};
use std::alloc::AllocError;
use std::marker::Model;

/// The number of kinds of places.
const KINDS: u64 = 30;

/// The shapes of old values. `NOTHING` means that the place was absent. From `SIGNED` on, the
/// numbers of the value are in a frame.
pub const NOTHING: u64 = 0;

pub const NUMBER: u64 = 1;

pub const SIGNED: u64 = 2;

pub const ENTRY: u64 = 3;

pub const COMPLETION: u64 = 4;

pub const ROW: u64 = 5;

pub const STAGE: u64 = 6;

pub const REAPED: u64 = 7;

pub const AWAKE: u64 = 8;

fn head_of(place: Place, shape: u64) -> u64
    requires { shape ≤ 8 }
    ensures { result ≡ kind_of place + 30 * shape }
{
    place.kind() as u64 + KINDS * shape
}

/// Appends a head and an index.
fn put_place(out: &mut Vec<u8>, place: Place, index: u32, shape: u64) -> Result<(), AllocError>
    requires { shape ≤ 8 }
    ensures put { OnOk result (Puts number_of after out.old.items
        ((kind_of place + 30 * shape) ∷ index ∷ []) out.new.items) }
    ensures fits { index < 2 ^ 32 }
{
    put_numbers(out, &[head_of(place, shape), index as u64])?;
    Ok(())
}

/// Appends the change of a place that held a number.
#[inline(always)]
pub fn put_number_change(
    out: &mut Vec<u8>,
    place: Place,
    index: u32,
    old: u64,
) -> Result<(), AllocError>
    requires { place_of (kind_of place) index 0 ≡ place }
    ensures { OnOk result (Puts change_of after_change out.old.items
        (record { place = place; old = Some (Number old) } ∷ []) out.new.items) }
{
    put_numbers(out, &[head_of(place, NUMBER), index as u64, old])?;
    Ok(())
}

/// Appends the change of a place that was absent.
pub fn put_absence(out: &mut Vec<u8>, place: Place, index: u32) -> Result<(), AllocError>
    requires { place_of (kind_of place) index 0 ≡ place }
    ensures { OnOk result (Puts change_of after_change out.old.items
        (record { place = place; old = None } ∷ []) out.new.items) }
{
    put_place(out, place, index, NOTHING)?;
    Ok(())
}

/// Appends the change of a place that held the value with these numbers.
pub fn put_framed(
    out: &mut Vec<u8>,
    place: Place,
    index: u32,
    shape: u64,
    numbers: &[u64],
) -> Result<(), AllocError>
    requires again { place_of (kind_of place) index 0 ≡ place }
    requires framed { 2 ≤ shape }
    requires shape { shape ≤ 8 }
    ensures { OnOk result ((v : Value) → Spells shape numbers.now v
        → Puts change_of after_change out.old.items
        (record { place = place; old = Some v } ∷ []) out.new.items) }
{
    put_place(out, place, index, shape)?;
    put_frame(out, numbers)?;
    Ok(())
}

/// Reads an old value by its shape.
#[tactic(auto, unfolding(crate::specs::Packed::value_of_shape, crate::specs::Packed::after_value))]
fn read_value(bytes: &mut CompactSizes<'_>, shape: u64) -> Option<Value>
    ensures value { result ≡ value_of_shape shape bytes.old }
    ensures left { bytes.new ≡ after_value shape bytes.old }
{
    match shape {
        NOTHING => None,
        NUMBER => Some(Value::Number(bytes.number())),
        _ => {
            let mut frame = bytes.frame();
            Some(read_framed(&mut frame, shape))
        }
    }
}

/// Reads the value in a frame by its shape.
#[tactic(auto, unfolding(crate::specs::Packed::framed_value))]
fn read_framed(frame: &mut CompactSizes<'_>, shape: u64) -> Value
    ensures { result ≡ framed_value shape frame.old }
{
    match shape {
        SIGNED => Value::Signed(frame.long()),
        ENTRY => Value::Entry(read_entry(frame)),
        COMPLETION => Value::Completed(read_completion(frame)),
        ROW => Value::Requested(read_row(frame)),
        STAGE => Value::Staged(read_stage(frame)),
        REAPED => Value::Reaped(read_reaped(frame)),
        _ => Value::Awake(frame.number() == 1),
    }
}

/// Returns the place with this kind and index. A packed place has no second index.
#[tactic(auto, unfolding(crate::specs::PlaceNumbers::place_of))]
fn place_of(kind: u8, index: u32) -> Place
    ensures { result ≡ place_of kind index 0 }
{
    match kind {
        0 => Place::SubmissionHead,
        1 => Place::SubmissionTail,
        2 => Place::SubmissionFlags,
        3 => Place::SubmissionDropped,
        4 => Place::CompletionHead,
        5 => Place::CompletionTail,
        6 => Place::Array(index),
        7 => Place::Slot(index),
        8 => Place::Completion(index),
        9 => Place::MemoryByte(index),
        10 => Place::FileByte(index, 0),
        11 => Place::DurableByte(index, 0),
        12 => Place::FileLength(index),
        13 => Place::DurableLength(index),
        14 => Place::Position(index),
        15 => Place::OpenMark(index),
        16 => Place::PipeByte(index, 0),
        17 => Place::PutCount(index),
        18 => Place::TakenCount(index),
        19 => Place::EventCount(index),
        20 => Place::Request(index),
        21 => Place::Backlog(index),
        22 => Place::BacklogFront,
        23 => Place::Clock,
        24 => Place::Counted,
        25 => Place::PollerStage,
        26 => Place::ProgramCounter(index),
        27 => Place::ThreadStage(index),
        28 => Place::Last(index),
        _ => Place::Got(index),
    }
}

/// Reads a change.
#[tactic(auto, unfolding(crate::specs::Packed::change_of, crate::specs::Packed::after_change))]
fn read_change(bytes: &mut CompactSizes<'_>) -> Change
    ensures value { result ≡ change_of bytes.old }
    ensures left { bytes.new ≡ after_change bytes.old }
{
    let head = bytes.number();
    let index = bytes.word();
    let old = read_value(bytes, head / KINDS);
    Change {
        place: place_of((head % KINDS) as u8, index),
        old,
    }
}

/// The place of a packed change, as its kind and index, and whether it had an old value.
#[derive(Clone, Copy)]
pub struct Head {
    kind: u8,
    index: u32,
    was_there: bool,
}

/// Skips an old value.
#[tactic(auto, unfolding(crate::specs::Packed::after_value))]
fn skip_value(bytes: &mut CompactSizes<'_>, shape: u64)
    ensures { bytes.new ≡ after_value shape bytes.old }
{
    match shape {
        NOTHING => {}
        NUMBER => {
            let _number = bytes.number();
        }
        _ => bytes.skip_frame(),
    }
}

/// Reads the head and index of a change, and skips its old value.
#[tactic(auto, unfolding(crate::specs::Packed::change_of, crate::specs::Packed::after_change))]
fn read_head(bytes: &mut CompactSizes<'_>) -> Head
    ensures value { IsHead result (change_of bytes.old) }
    ensures left { bytes.new ≡ after_change bytes.old }
{
    let head = bytes.number();
    let index = bytes.word();
    let shape = head / KINDS;
    skip_value(bytes, shape);
    Head {
        kind: (head % KINDS) as u8,
        index,
        was_there: shape != NOTHING,
    }
}

/// Reads a change if its old value is a number. Otherwise it reads nothing.
fn read_number(bytes: &mut CompactSizes<'_>) -> Option<(Place, u64)>
    ensures { MatchOption result (bytes.new ≡ bytes.old)
        (λ n. (change_of bytes.old ≡ number_was n.0 n.1) × (after_change bytes.old ≡ bytes.new)) }
{
    let head = bytes.first();
    if head / KINDS != NUMBER {
        return None;
    }
    let _head = bytes.number();
    let index = bytes.word();
    let number = bytes.number();
    Some((place_of((head % KINDS) as u8, index), number))
}

/// Returns whether a head has this place.
fn is_of(head: Head, place: Place) -> bool
    requires { head.kind < 30 }
    ensures { result ≡ same_place (place_of head.kind head.index 0) place }
{
    head.kind == place.kind() && is_same_place(place_of(head.kind, head.index), place)
}

/// An iterator over packed changes.
#[derive(Drop)]
pub struct PackedChanges<'a> {
    left: u64,
    bytes: CompactSizes<'a>,
}

impl<'a> Model for PackedChanges<'a> {
    ghost use Rattle.std.specs.Prelude.{List};
    ghost use Rattle.places.specs.declared.value.Change.{Change};
    ghost use Rattle.compact_size.specs.Reading.{read_all};
    ghost use Rattle.places.specs.Packed.{change_of, after_change};

    ghost Value = { List Change };

    ghost view = { λ a. read_all change_of after_change a.left a.bytes };
}

impl<'a> PackedChanges<'a> {
    /// Returns an iterator over bytes that begin with twice the number of changes, or 1 more.
    pub fn new(bytes: &'a [u8]) -> PackedChanges<'a>
        ensures { result ≡ packed bytes.now }
    {
        let mut numbers = CompactSizes::new(bytes);
        let left = numbers.number() / 2;
        PackedChanges {
            left,
            bytes: numbers,
        }
    }

    /// Returns an iterator over no changes.
    #[tactic(auto, unfolding(compact_size::specs::CompactSizes::number_of))]
    pub fn none() -> PackedChanges<'a>
        ensures { result ≡ [] }
    {
        PackedChanges {
            left: 0,
            bytes: CompactSizes::new(&[]),
        }
    }

    /// Returns the next change.
    pub fn next(&mut self) -> Option<Change>
        ensures yields { MatchOption result (self.old ≡ []) (λ c. self.old ≡ c ∷ self.new) }
        ensures none { result ≡ None → self.new ≡ [] }
    {
        if self.left == 0 {
            return None;
        }
        self.left -= 1;
        Some(read_change(&mut self.bytes))
    }

    /// Returns the place and old number of the next change, if its old value is a number.
    /// Otherwise it consumes nothing.
    pub fn next_number(&mut self) -> Option<(Place, u64)>
        ensures { MatchOption result (self.new ≡ self.old)
            (λ n. self.old ≡ number_was n.0 n.1 ∷ self.new) }
    {
        let left = self.left.checked_sub(1)?;
        let (place, number) = read_number(&mut self.bytes)?;
        self.left = left;
        Some((place, number))
    }

    /// Returns the head of the next change.
    fn next_head(&mut self) -> Option<Head>
        ensures { MatchOption result (self.old ≡ []) (λ h. IsFirst h self.old self.new) }
    {
        self.left = self.left.checked_sub(1)?;
        Some(read_head(&mut self.bytes))
    }

    /// Returns whether one of the remaining changes has this place. It
    /// consumes those that it looks at.
    pub fn names(&mut self, place: Place) -> bool
        ensures { result ≡ is_some (named self.old place) }
    {
        while let Some(head) = self.next_head() {
            if is_of(head, place) {
                return true;
            }
        }
        false
    }

    /// Returns how many of `rows` requests and of `backlog` overflowed completions remain after
    /// undoing the remaining changes. An element that was absent is removed with all after it.
    pub fn lengths_left(&mut self, rows: usize, backlog: usize) -> (usize, usize)
        ensures rows { result.0 ≡ left Requests self.old rows }
        ensures backlog { result.1 ≡ left Overflowed self.old backlog }
    {
        let mut rows_left = rows;
        let mut backlog_left = backlog;
        while let Some(head) = self.next_head() {
            if !head.was_there {
                let place = place_of(head.kind, head.index);
                rows_left = left_without(Listed::Requests, place, rows_left);
                backlog_left = left_without(Listed::Overflowed, place, backlog_left);
            }
        }
        (rows_left, backlog_left)
    }
}
