//! Undoing an addition to a list: how many elements remain.
ghost use Rattle.std.specs.Prelude.{◌≡◌, None};
ghost use Rattle.places.specs.declared.listed.Listed.TheVariants.{Requests, Overflowed};
ghost use Rattle.places.specs.Notes.{after_change, number_in};

use crate::listed::Listed;
use crate::place::Place;
use crate::value::Change;

/// Returns how many of `left` elements remain after undoing one change. An element that was absent
/// is removed with all after it.
pub fn left_after(list: Listed, change: Change, left: usize) -> usize
    ensures { result ≡ after_change list change.place change.old left }
{
    match change.old {
        None => left_without(list, change.place, left),
        Some(_) => left,
    }
}

/// Returns how many of `left` elements remain without the element in a place and all after it.
pub fn left_without(list: Listed, place: Place, left: usize) -> usize
    ensures { result ≡ after_change list place None left }
{
    match number_in(list, place) {
        Some(i) => left.min(i as usize),
        None => left,
    }
}

fn number_in(list: Listed, place: Place) -> Option<u32>
    ensures { result ≡ number_in list place }
{
    match (list, place) {
        (Listed::Requests, Place::Request(i)) => Some(i),
        (Listed::Overflowed, Place::Backlog(i)) => Some(i),
        _ => None,
    }
}
