//! Bytes of files that are not durable, as sets (fsync(2)).
ghost use Rattle.std.specs.Prelude.{◌≡◌, ℕ, ◌≤◌, ◌&&◌, ◌||◌, nat_lt, nat_le, OnOk};
ghost use Rattle.findings.specs.{has, FileByte, DurableByte, view, byte_in, differ, is_volatile_at};

use crate::record::Added;
use bit_sets::BitSet;
use finding_kinds::{differs_at, number_at};
use machine::State;
use places::Place;

// Returns whether a byte of a file is in a set or isn't durable: it is after the end of the durable
// contents, or differs from its durable value.
fn is_in_or_volatile(bytes: &BitSet, state: &State, object: u32, durable: u64, at: u32) -> bool
    ensures { result ≡ (has bytes.now at || (nat_le durable at
        || differ (byte_in (view state.now (FileByte object at)))
        (byte_in (view state.now (DurableByte object at))))) }
{
    bytes.contains(at as usize) || (durable <= at as u64 || differs_at(state, object, at))
}

// Adds the bytes that are not durable to a set, given the two lengths of the file.
fn mark_below(bytes: &mut BitSet, state: &State, object: u32, len: u64, durable: u64) -> Added
    requires { len ≤ 65536 }
    ensures { OnOk result ((k : ℕ) → has bytes.new k ≡ (has bytes.old k || (nat_lt k len
        && (nat_le durable k || differ (byte_in (view state.now (FileByte object k)))
        (byte_in (view state.now (DurableByte object k))))))) }
{
    for at in 0..len {
        bytes.make_room(at as usize)?;
        let member = is_in_or_volatile(bytes, state, object, durable, at as u32);
        bytes.write(at as usize, member);
    }
    Ok(())
}

/// Adds the bytes of a file that are not durable to a set.
pub(crate) fn mark_volatile(bytes: &mut BitSet, state: &State, object: u32) -> Added
    ensures { OnOk result ((k : ℕ) →
        has bytes.new k ≡ (has bytes.old k || is_volatile_at state.now object k)) }
{
    let Some(len) = number_at(state, Place::FileLength(object)) else {
        return Ok(());
    };
    let Some(durable) = number_at(state, Place::DurableLength(object)) else {
        return Ok(());
    };
    mark_below(bytes, state, object, len, durable)
}
