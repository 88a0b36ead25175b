//! Files with written bytes that are not durable at the end of a run (fsync(2)).
ghost use Rattle.std.specs.Prelude.{◌≡◌, ℕ, ◌<◌, ◌≤◌, true, false, MatchBool};
ghost use Rattle.finding_rules.specs.{FileByte, DurableByte, view, byte_in, differ, syncs, has_fsync, has_unsynced};

use crate::files::file_of;
use crate::requests::row_at;
use entries::Row;
use finding_kinds::{MOST_ROWS, differs_at, number_at};
use machine::{Setup, State};
use opcodes::Op;
use places::Place;

// Returns whether one of the first `len` bytes of a file isn't durable.
fn differs_below(state: &State, object: u32, len: u64) -> bool
    requires { len ≤ 65536 }
    ensures { MatchBool result
        ((i : ℕ) × (i < len) × (differ (byte_in (view state.now (FileByte object i)))
        (byte_in (view state.now (DurableByte object i))) ≡ true))
        ((i : ℕ) → i < len → differ (byte_in (view state.now (FileByte object i)))
        (byte_in (view state.now (DurableByte object i))) ≡ false) }
{
    for at in 0..len {
        if differs_at(state, object, at as u32) {
            return true;
        }
    }
    false
}

/// Returns whether an object is a file with written bytes that aren't durable.
pub fn has_unsynced(state: &State, object: u32) -> bool
    ensures { result ≡ has_unsynced state.now.world object }
{
    let Some(len) = number_at(state, Place::FileLength(object)) else {
        return false;
    };
    let Some(durable) = number_at(state, Place::DurableLength(object)) else {
        return false;
    };
    if len != durable {
        return true;
    }
    differs_below(state, object, len)
}

// Returns whether a request is an FSYNC of the file.
fn syncs(setup: &Setup, object: u32, row: &Row) -> bool
    ensures { result ≡ syncs setup.now object row.now }
{
    row.entry.opcode == Op::Fsync as u8
        && matches!(file_of(setup, row.entry.fd), Some(file) if file == object)
}

/// Returns whether an FSYNC of the file was submitted.
pub fn has_fsync(setup: &Setup, state: &State, object: u32) -> bool
    ensures { result ≡ has_fsync setup.now state.now.table object }
{
    let _first = row_at(state, 0);
    for number in 0..MOST_ROWS {
        match row_at(state, number) {
            Some(row) => {
                if syncs(setup, object, &row) {
                    return true;
                }
            }
            None => return false,
        }
    }
    false
}
