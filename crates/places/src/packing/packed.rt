//! Packs notes into one string of bytes.
ghost use Rattle.std.specs.Prelude.{◌≡◌, ◌+◌, ◌/◌, ◌%◌, ◌++◌, [], map, not, is_some, false, OnOk, IfOk, IfSome};
ghost use Rattle.std.specs.List.{list_any};
ghost use Rattle.places.specs.declared.listed.Listed.TheVariants.{Requests, Overflowed};
ghost use Rattle.places.specs.Notes.{left, ShortensNothing};
ghost use Rattle.places.specs.Slots.{number_change, completion_change, row_change};
ghost use Rattle.compact_size.specs.Reading.{Puts};
ghost use Rattle.places.specs.Packed.{change_of, after_change};

use crate::notes::completions::CompletionNote;
use crate::notes::numbers::NumberNote;
use crate::notes::rows::RowNote;
use crate::notes::slots::Slotted;
use crate::packing::changes::PackedChanges;
use crate::packing::short_bytes::ShortBytes;
use compact_size::{CompactSizes, put_number};
use std::alloc::AllocError;
use std::marker::Model;

/// Packed changes: twice their number, plus 1 if undoing them may shorten a list, and then each
/// change.
#[derive(Drop)]
pub struct Packed {
    bytes: ShortBytes,
}

impl Model for Packed {
    ghost use Rattle.std.specs.Prelude.{List};
    ghost use Rattle.places.specs.declared.value.Change.{Change};
    ghost use Rattle.places.specs.Packed.{packed};
    ghost use Rattle.std.specs.Prelude.{◌≡◌, ◌%◌};
    ghost use Rattle.compact_size.specs.CompactSizes.{number_of};
    ghost use Rattle.places.specs.Notes.{ShortensNothing};

    ghost Value = { List Change };

    ghost view = { λ a. packed a.bytes };

    ghost invariant = { λ a. number_of a.bytes % 2 ≡ 0
        → ShortensNothing (packed a.bytes) };
}

impl Packed {
    /// Returns no changes. Allocates nothing.
    #[tactic(auto, unfolding(compact_size::specs::CompactSizes::number_of))]
    pub fn new() -> Packed
        ensures { result ≡ [] }
    {
        Packed {
            bytes: ShortBytes::new(),
        }
    }

    /// Packs notes. It builds the bytes in `scratch`, whose memory is reused, and copies them.
    /// Fails if an allocation fails, or if an old value has no packed form.
    pub fn from_parts(
        numbers: &[NumberNote],
        completions: &[CompletionNote],
        rows: &[RowNote],
        scratch: &mut Vec<u8>,
    ) -> Result<Packed, AllocError>
        ensures { IfOk result (λ p. p ≡ map number_change numbers.now
            ++ (map completion_change completions.now ++ map row_change rows.now)) }
    {
        let Some(count) = sum_of(numbers.len(), completions.len(), rows.len()) else {
            return Err(AllocError);
        };
        if count == 0 {
            return Ok(Packed::new());
        }
        let Some(first) = first_number(count, may_shorten(rows)) else {
            return Err(AllocError);
        };
        scratch.clear();
        put_number(scratch, first)?;
        put_notes(scratch, numbers)?;
        put_notes(scratch, completions)?;
        put_notes(scratch, rows)?;
        let bytes = ShortBytes::from_slice(*scratch.allocator(), scratch)?;
        Ok(Packed { bytes })
    }

    /// Returns an iterator over the changes.
    pub fn changes(&self) -> PackedChanges<'_>
        ensures { result ≡ self.now }
    {
        PackedChanges::new(self.bytes.as_slice())
    }

    /// Returns how many of `rows` requests and of `backlog` overflowed completions remain after
    /// undoing the changes. Reads them only if one may remove an element.
    pub fn lengths_left(&self, rows: usize, backlog: usize) -> (usize, usize)
        ensures rows { result.0 ≡ left Requests self.now rows }
        ensures backlog { result.1 ≡ left Overflowed self.now backlog }
    {
        let first = CompactSizes::new(self.bytes.as_slice()).number();
        if first % 2 == 0 {
            return (rows, backlog);
        }
        let mut changes = self.changes();
        changes.lengths_left(rows, backlog)
    }

    /// Returns how many bytes of memory the changes take.
    pub fn kept_bytes(&self) -> usize {
        self.bytes.kept_bytes()
    }
}

fn sum_of(a: usize, b: usize, c: usize) -> Option<usize>
    ensures { IfSome result (λ n. n ≡ a + (b + c)) }
{
    a.checked_add(b.checked_add(c)?)
}

fn first_number(count: usize, may_shorten: bool) -> Option<u64>
    ensures count { IfSome result (λ n. n / 2 ≡ count) }
    ensures even { IfSome result (λ n. n % 2 ≡ 0 → may_shorten ≡ false) }
{
    let twice = (count as u64).checked_mul(2)?;
    Some(if may_shorten { twice + 1 } else { twice })
}

/// Returns whether a place was absent, so that undoing its note may remove an element.
fn may_shorten(rows: &[RowNote]) -> bool
    ensures { result ≡ list_any (λ n. not (is_some (row_change n).old)) rows.now }
{
    rows.iter().any(|note| note.is_absence())
}

fn put_notes<N: Slotted>(out: &mut Vec<u8>, notes: &[N]) -> Result<(), AllocError>
    ensures { OnOk result
        (Puts change_of after_change out.old.items (map N.change notes.now) out.new.items) }
{
    for note in notes {
        note.pack(out)?;
    }
    Ok(())
}
