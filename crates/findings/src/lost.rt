//! The WRITEs whose bytes aren't durable at the end of a run (fsync(2)).

use crate::marking::mark_volatile;
use crate::record::Added;
use crate::suspects::forget;
use bit_sets::BitSet;
use finding_kinds::{Finding, Kind, LeftKind, Lost};
use finding_rules::{Written, has_between};
use machine::State;

// Removes the bytes that a WRITE moved from a set, and returns whether there were some.
fn takes(bytes: &mut BitSet, written: &Written) -> bool {
    let has_some = has_between(bytes, written.first, written.count);
    forget(bytes, written.first, written.count);
    has_some
}

// Returns the first WRITE of a file that was the last one to move some byte of a set, and empties
// the set of them.
fn first_lost(bytes: &mut BitSet, writes: &[Written], file: u32) -> Option<u32> {
    let mut first = None;
    for written in writes.iter().rev() {
        if written.file == file && takes(bytes, written) {
            first = Some(written.row);
        }
    }
    first
}

// Records the first WRITE of a file whose bytes aren't durable, if there is one.
fn note_file(lost: &mut Vec<Lost>, state: &State, writes: &[Written], file: u32) -> Added {
    let mut bytes = BitSet::new(*lost.allocator());
    mark_volatile(&mut bytes, state, file)?;
    if let Some(row) = first_lost(&mut bytes, writes, file) {
        lost.push(Lost { file, row })?;
    }
    Ok(())
}

/// Records the first WRITE whose bytes aren't durable, for each finding about such a file, if the
/// search keeps the history.
pub(crate) fn note_lost(
    keeps_history: bool,
    lost: &mut Vec<Lost>,
    found: &[Finding],
    state: &State,
    writes: &[Written],
) -> Added {
    if !keeps_history {
        return Ok(());
    }
    for finding in found {
        if let Kind::Left(LeftKind::NotDurable(_)) = finding.kind {
            note_file(lost, state, writes, finding.subject)?;
        }
    }
    Ok(())
}
