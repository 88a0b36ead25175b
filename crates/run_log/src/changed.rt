//! The changes of a step, in the order of places.
ghost use Rattle.std.specs.Prelude.{◌≡◌, map, IfOk, OnOk};
ghost use Rattle.run_log.specs.{NamesOnce, view, rank, changed_to, IsListing};

use machine::State;
use places::{Change, Place, Record, Value};
use std::alloc::{AllocError, Global};

/// 2^32, the number of 32-bit indexes.
const INDEXES: u128 = 4294967296;

/// A place that a step changed, with its values before and after the step. `None` means absent.
#[derive(Clone, Copy)]
pub struct Changed {
    pub place: Place,
    pub old: Option<Value>,
    pub new: Option<Value>,
}

// Returns a key for the order of places: by kind, then by object or index, then by the index within
// the object.
fn rank(place: Place) -> u128
    ensures { result ≡ rank place }
{
    (u128::from(place.kind()) * INDEXES + u128::from(place.index())) * INDEXES
        + u128::from(place.second())
}

fn changed_to(change: Change, state: &State) -> Changed
    ensures { result ≡ changed_to (view state.now) change }
{
    Changed {
        place: change.place,
        old: change.old,
        new: state.value(change.place),
    }
}

// Returns the changes of an undo record, together with the current values.
fn gathered(alloc: Global, past: &Record, state: &State) -> Result<Vec<Changed>, AllocError>
    ensures listed { IfOk result (λ list. list.items ≡ map (changed_to (view state.now)) past.now) }
    ensures once { OnOk result (NamesOnce past.now) }
{
    let mut list = Vec::new(alloc);
    let mut rest = past.changes();
    while let Some(change) = rest.next() {
        list.push(changed_to(change, state))?;
    }
    Ok(list)
}

/// Returns the changes of a step in the order of places. `past` is its undo record, and `state` the
/// state after it.
pub fn changes_of(alloc: Global, past: &Record, state: &State) -> Result<Vec<Changed>, AllocError>
    ensures listing { IfOk result (λ list. IsListing (view state.now) past.now list.items) }
    ensures once { OnOk result (NamesOnce past.now) }
{
    let mut list = gathered(alloc, past, state)?;
    list.sort_unstable_by_key(|changed| rank(changed.place));
    Ok(list)
}
