//! A fault or a note, and how the end of a run decides which: by whether a WRITE is lost, fsync(2).
ghost use Rattle.std.specs.Prelude.{◌≡◌, ◌+◌};
ghost use Rattle.finding_rules.specs.{list_any, has, fault_if, has_byte, has_byte_of, judged_kind, is_marked, numbers_below};

use crate::writes::Written;
use bit_sets::BitSet;
use finding_kinds::{ConflictKind, Kind, Verdict};

/// Returns a fault if the test is true, else a note.
pub fn fault_if(test: bool) -> Verdict
    ensures { result ≡ fault_if test }
{
    if test { Verdict::Fault } else { Verdict::Note }
}

/// Returns whether a set has one of `count` numbers from `first` on.
pub fn has_between(bytes: &BitSet, first: u64, count: u64) -> bool
    ensures { result ≡ list_any (λ k. has bytes.now (first + k)) (numbers_below count) }
{
    match bytes.next(first as usize) {
        Some(byte) => byte as u64 - first < count,
        None => false,
    }
}

// Returns whether a WRITE moved a byte of these sets.
fn has_byte(sets: &[BitSet], written: &Written) -> bool
    ensures { result ≡ has_byte (is_marked sets.now) written.now }
{
    match sets.get(written.file as usize) {
        Some(bytes) => has_between(bytes, written.first, written.count),
        None => false,
    }
}

// Returns whether a request is one of these WRITEs, and moved such a byte.
fn has_byte_of(sets: &[BitSet], writes: &[Written], row: u32) -> bool
    ensures { result ≡ has_byte_of (is_marked sets.now) writes.now row }
{
    writes
        .iter()
        .any(|written| written.row == row && has_byte(sets, written))
}

/// Returns the kind of a finding, given the bytes that are not durable at the end.
pub fn judged_kind(sets: &[BitSet], writes: &[Written], kind: Kind, row: u32) -> Kind
    ensures { result ≡ judged_kind (has_byte_of (is_marked sets.now) writes.now) kind row }
{
    match kind {
        Kind::Conflict(ConflictKind::FsyncEarly(_)) => Kind::Conflict(ConflictKind::FsyncEarly(
            fault_if(has_byte_of(sets, writes, row)),
        )),
        _ => kind,
    }
}
