//! Joins changes of consecutive bytes into one line.
ghost use Rattle.std.specs.Prelude.{◌≡◌, ◌<◌, ◌≤◌, ◌∷◌, take, drop, length};
ghost use Rattle.run_log.specs.{is_next, next_byte, rows};

use crate::changed::Changed;
use places::Place;

// Returns the next byte of the same kind and object.
fn next_byte(place: Place) -> Option<Place>
    ensures { result ≡ next_byte place }
{
    match place {
        Place::MemoryByte(index) => Some(Place::MemoryByte(index.checked_add(1)?)),
        Place::FileByte(object, index) => Some(Place::FileByte(object, index.checked_add(1)?)),
        Place::DurableByte(object, index) => Some(Place::DurableByte(
            object,
            index.checked_add(1)?,
        )),
        Place::PipeByte(object, index) => Some(Place::PipeByte(object, index.checked_add(1)?)),
        _ => None,
    }
}

fn is_next(first: Place, second: Place) -> bool
    ensures { result ≡ is_next first second }
{
    matches!(next_byte(first), Some(next) if next.equals(&second))
}

// Returns how many further changes belong to the first one's line: the consecutive bytes after it.
fn following(first: &Changed, rest: &[Changed]) -> usize
    ensures within { result ≤ length rest.now }
    ensures parted { rows (first.now ∷ rest.now) ≡ (first.now ∷ take result rest.now)
        ∷ rows (drop result rest.now) }
{
    let mut last = first.place;
    let mut count = 0;
    for changed in rest {
        if !is_next(last, changed.place) {
            return count;
        }
        last = changed.place;
        count += 1;
    }
    count
}

/// Returns the number of changes on the first line: one change, or consecutive bytes.
pub fn first_row(changes: &[Changed]) -> usize
    requires { 0 < length changes.now }
    ensures some { 0 < result }
    ensures within { result ≤ length changes.now }
    ensures parted { rows changes.now ≡ take result changes.now ∷ rows (drop result changes.now) }
{
    1 + following(&changes[0], &changes[1..])
}
