//! Recording of ring words, into memory that is already reserved.
ghost use Rattle.std.specs.Prelude.{◌≡◌, ◌+◌, ◌<◌, ◌≤◌, Some, true};
ghost use Rattle.places.specs.Places.{is_number, InLimits};
ghost use Rattle.places.specs.View.{Noted};
ghost use Rattle.places.specs.declared.place.Place.TheVariants.{Completion};
ghost use Rattle.places.specs.declared.value.Value.TheVariants.{Number, Completed};

use entries::Cqe;
use places::{Place, Recorder};

/// Records a ring word. There must be room for the note, so this cannot fail.
#[inline(always)]
pub(crate) fn note_word(notes: &mut Recorder, place: Place, old: u32)
    requires kind { is_number place ≡ true }
    requires limits { InLimits place }
    requires room { 0 < notes.old.numbers }
    ensures noted { Noted notes.old.made notes.new.made place (Some (Number old)) }
    ensures numbers { notes.old.numbers ≤ notes.new.numbers + 1 }
    ensures completions { notes.old.completions ≤ notes.new.completions }
    ensures others { notes.old.others ≤ notes.new.others }
{
    match notes.note_number(place, old as u64) {
        Ok(()) => {}
        // The memory is reserved already.
        Err(_) => unreachable!(),
    }
}

/// Records a completion slot. There must be room for the note, so this cannot fail.
pub(crate) fn note_slot(notes: &mut Recorder, slot: u32, old: Cqe)
    requires limits { slot < 8192 }
    requires room { 0 < notes.old.completions }
    ensures noted { Noted notes.old.made notes.new.made (Completion slot) (Some (Completed old)) }
    ensures numbers { notes.old.numbers ≤ notes.new.numbers }
    ensures completions { notes.old.completions ≤ notes.new.completions + 1 }
    ensures others { notes.old.others ≤ notes.new.others }
{
    match notes.note_completion(slot, old) {
        Ok(()) => {}
        // The memory is reserved already.
        Err(_) => unreachable!(),
    }
}
