//! Recording of the bytes that a write changes, in spans that skip longer unchanged parts.
ghost use Rattle.std.specs.Prelude.{◌≡◌, ◌+◌, ◌-◌, ◌<◌, ◌≤◌, ◌↔◌, ℕ, IsTrue, MatchOption, OnOk, None, length};
ghost use Rattle.places.specs.Notes.{HasSameRoom};
ghost use Rattle.places.specs.Runs.{place_in};
ghost use Rattle.places.specs.View.{named};
ghost use Rattle.model_files.specs.Differing.{Alike, DifferAt, IsFirst, IsSpanEnd, NotedAmong, NamesDiffering, Spares};

use places::{Recorder, Region};
use std::alloc::AllocError;

/// A span ends at this many consecutive unchanged bytes. Recording them would take more memory than
/// the header of another run.
const GAP: usize = 16;

/// How many bytes are compared at once until a difference is found.
const STRIDE: usize = 1024;

/// A span of bytes. The first and the last one differ.
#[derive(Clone, Copy)]
struct Span {
    from: usize,
    end: usize,
}

/// Records the old bytes of a region, from index `start` on, that differ from the new ones. None of
/// them may have a note yet. Unchanged bytes between two changed ones are recorded too, if they are
/// fewer than 16.
pub(crate) fn note_differing(
    region: Region,
    start: u32,
    old: &[u8],
    others: &[u8],
    notes: &mut Recorder,
) -> Result<(), AllocError>
    requires len { length others.now ≡ length old.now }
    requires fits { start + length old.now ≤ 65536 }
    requires fresh { (i : ℕ) → i < length old.now
        → named notes.old.made (place_in region (start + i)) ≡ None }
    ensures noted { OnOk result (NamesDiffering notes.new.made region start old.now others.now) }
    ensures spared { Spares notes.new.made region start old.now others.now }
    ensures among { NotedAmong notes.old.made notes.new.made region start old.now }
    ensures room { HasSameRoom notes.old notes.new }
{
    let mut done = 0;
    while let Some(span) = next_span(old, others, done) {
        let changed = &old[span.from..span.end];
        notes.note_bytes(region, start + span.from as u32, changed)?;
        done = span.end;
    }
    Ok(())
}

/// Returns the next span of changed bytes from index `done` on.
fn next_span(old: &[u8], others: &[u8], done: usize) -> Option<Span>
    requires len { length others.now ≡ length old.now }
    requires within { done ≤ length old.now }
    ensures { MatchOption result (Alike old.now others.now done (length old.now))
        (λ s. IsFirst old.now others.now done s.from × IsSpanEnd old.now others.now s.from s.end) }
{
    let from = first_difference(old, others, done)?;
    let end = span_end(old, others, from);
    Some(Span { from, end })
}

/// Returns the first index from `done` on at which the lists differ.
fn first_difference(old: &[u8], others: &[u8], done: usize) -> Option<usize>
    requires len { length others.now ≡ length old.now }
    requires within { done ≤ length old.now }
    ensures { MatchOption result (Alike old.now others.now done (length old.now))
        (λ at. IsFirst old.now others.now done at) }
{
    let near = skip_alike(old, others, done, STRIDE);
    let from = skip_alike(old, others, near, GAP);
    for at in from..old.len() {
        if old[at] != others[at] {
            return Some(at);
        }
    }
    None
}

/// Returns the index up to which the lists agree, in whole steps from `from` on.
fn skip_alike(old: &[u8], others: &[u8], from: usize, step: usize) -> usize
    requires some { 0 < step }
    requires len { length others.now ≡ length old.now }
    requires within { from ≤ length old.now }
    ensures from { from ≤ result }
    ensures within { result ≤ length old.now }
    ensures alike { Alike old.now others.now from result }
    ensures stops { result + step ≤ length old.now
        → ¬ Alike old.now others.now result (result + step) }
{
    let mut at = from;
    while step <= old.len() - at && are_alike(old, others, at, at + step) {
        at += step;
    }
    at
}

/// Returns the end, exclusive, of the span that begins at `from`.
fn span_end(old: &[u8], others: &[u8], from: usize) -> usize
    requires len { length others.now ≡ length old.now }
    requires within { from < length old.now }
    requires differs { DifferAt old.now others.now from }
    ensures { IsSpanEnd old.now others.now from result }
{
    let mut end = skip_changed(old, others, from);
    loop {
        let next = last_end(old, others, end, old.len().min(end + GAP));
        if next == end {
            return end;
        }
        end = next;
    }
}

/// Returns an index in the span that begins at `from`, or its end. One byte in 16 is looked at.
fn skip_changed(old: &[u8], others: &[u8], from: usize) -> usize
    requires len { length others.now ≡ length old.now }
    requires within { from < length old.now }
    requires differs { DifferAt old.now others.now from }
    ensures some { from < result }
    ensures within { result ≤ length old.now }
    ensures last { DifferAt old.now others.now (result - 1) }
    ensures inner { (i : ℕ) → from ≤ i → i + 16 ≤ result → ¬ Alike old.now others.now i (i + 16) }
{
    let mut end = from + 1;
    while GAP <= old.len() - end && old[end + GAP - 1] != others[end + GAP - 1] {
        end += GAP;
    }
    end
}

/// Returns the index after the last byte that differs in a range, or `from` if none does.
fn last_end(old: &[u8], others: &[u8], from: usize, to: usize) -> usize
    requires len { length others.now ≡ length old.now }
    requires order { from ≤ to }
    requires within { to ≤ length old.now }
    ensures from { from ≤ result }
    ensures within { result ≤ to }
    ensures last { from < result → DifferAt old.now others.now (result - 1) }
    ensures rest_alike { Alike old.now others.now result to }
{
    let mut end = to;
    while from < end && old[end - 1] == others[end - 1] {
        end -= 1;
    }
    end
}

/// Returns whether two lists of bytes agree in a range.
fn are_alike(old: &[u8], others: &[u8], from: usize, to: usize) -> bool
    requires order { from ≤ to }
    requires old { to ≤ length old.now }
    requires others { to ≤ length others.now }
    ensures { IsTrue result ↔ Alike old.now others.now from to }
{
    old[from..to] == others[from..to]
}
