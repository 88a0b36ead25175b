//! Summaries of records: 64 bits, of which each place has one, and a request two. A record names no
//! place of which a bit is clear, so a search passes most records by one test.
ghost use Rattle.std.specs.Prelude.{◌≡◌, ◌<◌, ◌&&◌, ◌==◌, ◌++◌, map};
ghost use Rattle.std.specs.Int.{bit_at};
ghost use Rattle.places.specs.All.{all_changes};
ghost use Rattle.places.specs.Runs.{run_changes};
ghost use Rattle.places.specs.Summaries.{bit_of, group_bit_of, HasAll, HasBits, Summed};

use crate::notes::completions::CompletionNote;
use crate::notes::kept::Kept;
use crate::notes::numbers::NumberNote;
use crate::notes::rows::RowNote;
use crate::notes::slots::Slotted;
use crate::place::Place;

/// The bit of all bytes.
const BYTES: u32 = 63;

/// How many successive requests share their second bit: as many as the largest batch has.
const GROUP: u32 = 4096;

/// Returns the numbers of a place's bits.
#[tactic(auto, unfolding(crate::specs::Summaries::bit_of, crate::specs::Summaries::group_bit_of))]
fn bits_of(place: Place) -> (u32, u32)
    ensures first { result.0 ≡ bit_of place }
    ensures second { result.1 ≡ group_bit_of place }
    ensures small { result.0 < 64 }
    ensures small_second { result.1 < 64 }
{
    match place.kind() {
        20 => (place.index() % 16, 16 + place.index() / GROUP % 16),
        9 | 10 | 11 | 16 => (BYTES, BYTES),
        kind => {
            let bit = 32 + ((u64::from(kind) + u64::from(place.index())) % 31) as u32;
            (bit, bit)
        }
    }
}

/// Returns whether the summary has the bits of a place.
pub fn has_place(summary: u64, place: Place) -> bool
    ensures { result ≡ (bit_at summary (bit_of place) == 1)
        && (bit_at summary (group_bit_of place) == 1) }
{
    let (first, second) = bits_of(place);
    has_bit(summary, first) && has_bit(summary, second)
}

fn has_bit(summary: u64, bit: u32) -> bool
    requires { bit < 64 }
    ensures { result ≡ (bit_at summary bit == 1) }
{
    summary & (1 << bit) != 0
}

// Adds the bits of a place.
fn with_place(summary: u64, place: Place) -> u64
    ensures set { HasBits result place }
    ensures kept { HasAll summary result }
{
    let (first, second) = bits_of(place);
    with_bit(with_bit(summary, first), second)
}

// Adds a bit.
fn with_bit(summary: u64, bit: u32) -> u64
    requires { bit < 64 }
    ensures set { bit_at result bit ≡ 1 }
    ensures kept { HasAll summary result }
{
    summary | 1 << bit
}

// Adds the bits of the places of notes.
fn with_notes<N: Slotted>(bits: u64, notes: &[N]) -> u64
    ensures set { Summed result (map N.change notes.now) }
    ensures kept { HasAll bits result }
{
    let mut all = bits;
    for note in notes {
        all = with_place(all, note.place());
    }
    all
}

// Returns the bits of the places of the rarer kinds of notes: all bits, if there are single places.
fn of_rest(rest: &Kept) -> u64
    ensures { Summed result (run_changes rest.now.runs rest.now.olds ++ rest.now.odd) }
{
    if !rest.has_no_odd() {
        return u64::MAX;
    }
    if rest.has_no_bytes() { 0 } else { 1 << BYTES }
}

/// Returns the summary of notes.
pub fn summary_of(
    numbers: &[NumberNote],
    completions: &[CompletionNote],
    rows: &[RowNote],
    rest: &Kept,
) -> u64
    ensures { Summed result (all_changes numbers.now completions.now rows.now rest.now) }
{
    let with_rest = of_rest(rest);
    let with_numbers = with_notes(with_rest, numbers);
    let with_completions = with_notes(with_numbers, completions);
    with_notes(with_completions, rows)
}
