//! Recording of the poller's state, into memory that is already reserved.
ghost use Rattle.std.specs.Prelude.{◌+◌, ◌<◌, ◌≤◌, Some};
ghost use Rattle.places.specs.View.{Noted};
ghost use Rattle.places.specs.declared.place.Place.TheVariants.{PollerStage};
ghost use Rattle.places.specs.declared.value.Value.TheVariants.{Awake};

use places::{Place, Recorder, Value};

/// Records whether the poller is awake. There must be room for the note, so this cannot fail.
pub(crate) fn note_stage(notes: &mut Recorder, awake: bool)
    requires { 0 < notes.old.others }
    ensures noted { Noted notes.old.made notes.new.made PollerStage (Some (Awake awake)) }
    ensures numbers { notes.old.numbers ≤ notes.new.numbers }
    ensures completions { notes.old.completions ≤ notes.new.completions }
    ensures others { notes.old.others ≤ notes.new.others + 1 }
{
    match notes.note(Place::PollerStage, Some(Value::Awake(awake))) {
        Ok(()) => {}
        // The memory is reserved already.
        Err(_) => unreachable!(),
    }
}
