//! Writing to pipes, with the old values recorded (pipe(7)).
ghost use Rattle.std.specs.Prelude.{◌≡◌, ◌+◌, ◌<◌, ◌≤◌, ℕ, OnOk, OnErr, None, length, slice_get};
ghost use Rattle.places.specs.Notes.{HasSameRoom};
ghost use Rattle.places.specs.View.{Keeps, named};
ghost use Rattle.places.specs.declared.place.Place.{Place};
ghost use Rattle.places.specs.declared.place.Place.TheVariants.{PipeByte};
ghost use Rattle.places.specs.declared.notes.runs.Region.TheVariants.{Pipe};
ghost use Rattle.model_files.specs.Differing.{NotedAmong, NamesDiffering};
ghost use Rattle.model_files.specs.Files.{part};
ghost use Rattle.model_files.specs.Objects.{object_owns, NamesChanges};
ghost use Rattle.model_files.specs.Pipes.{pipe_seen, put_in, slots_with, TakesIn};

use crate::differing::note_differing;
use crate::pipe::PipeBuffer;
use places::{Place, Recorder, Region};
use std::alloc::AllocError;

impl PipeBuffer {
    /// Writes bytes to the pipe (pipe(7)). If an allocation fails, the pipe is unchanged.
    pub(crate) fn put_noted(
        &mut self,
        object: u32,
        others: &[u8],
        notes: &mut Recorder,
    ) -> Result<(), AllocError>
        requires room { TakesIn (length others.now) self.old }
        requires fresh { (i : ℕ) → i < 65536 → named notes.old.made (PipeByte object i) ≡ None }
        ensures ok { OnOk result (self.new ≡ put_in others.now self.old) }
        ensures err { OnErr result (self.new ≡ self.old) }
        ensures keeps { Keeps (object_owns object) (pipe_seen self.old)
            (pipe_seen self.new) notes.old.made notes.new.made }
        ensures named { (p : Place) → named notes.new.made p ≡ None
            → named notes.old.made p ≡ None }
        ensures numbers { notes.old.numbers ≤ notes.new.numbers + 1 }
        ensures completions { notes.old.completions ≤ notes.new.completions }
        ensures others { notes.old.others ≤ notes.new.others }
    {
        self.note_put(object, others, notes)?;
        self.push(others);
        Ok(())
    }

    fn note_put(&self, object: u32, others: &[u8], notes: &mut Recorder) -> Result<(), AllocError>
        requires room { TakesIn (length others.now) self.now }
        requires fresh { (i : ℕ) → i < 65536 → named notes.old.made (PipeByte object i) ≡ None }
        ensures keeps { Keeps (object_owns object) (pipe_seen self.now)
            (pipe_seen self.now) notes.old.made notes.new.made }
        ensures noted { OnOk result
            (NamesChanges (object_owns object) (pipe_seen self.now)
            (pipe_seen (put_in others.now self.now)) notes.new.made) }
        ensures named { (p : Place) → named notes.new.made p ≡ None
            → named notes.old.made p ≡ None }
        ensures numbers { notes.old.numbers ≤ notes.new.numbers + 1 }
        ensures completions { notes.old.completions ≤ notes.new.completions }
        ensures others { notes.old.others ≤ notes.new.others }
    {
        self.note_slots(object, others, notes)?;
        notes.note_number(Place::PutCount(object), self.put_count())?;
        Ok(())
    }

    /// Records the slots that change when the bytes are stored: those up to the last slot, then
    /// those from the first slot on.
    fn note_slots(&self, object: u32, others: &[u8], notes: &mut Recorder) -> Result<(), AllocError>
        requires room { TakesIn (length others.now) self.now }
        requires fresh { (i : ℕ) → i < 65536 → named notes.old.made (PipeByte object i) ≡ None }
        ensures keeps { Keeps (object_owns object) (pipe_seen self.now)
            (pipe_seen self.now) notes.old.made notes.new.made }
        ensures noted { OnOk result ((i : ℕ) → named notes.new.made (PipeByte object i) ≡ None
            → slice_get (slots_with self.now.slots self.now.put others.now) i
            ≡ slice_get self.now.slots i) }
        ensures named { (p : Place) → named notes.new.made p ≡ None
            → named notes.old.made p ≡ None }
        ensures room { HasSameRoom notes.old notes.new }
    {
        let size = self.slots().len();
        let at = (self.put_count() % size as u64) as usize;
        let (first, second) = others.split_at(others.len().min(size - at));
        self.note_part(object, at, first, notes)?;
        self.note_part(object, 0, second, notes)
    }

    /// Records the slots that change when bytes are stored from slot `at` on.
    fn note_part(
        &self,
        object: u32,
        at: usize,
        others: &[u8],
        notes: &mut Recorder,
    ) -> Result<(), AllocError>
        requires most { length self.now.slots ≤ 65536 }
        requires within { at + length others.now ≤ length self.now.slots }
        requires fresh { (i : ℕ) → i < length others.now
            → named notes.old.made (PipeByte object (at + i)) ≡ None }
        ensures noted { OnOk result
            (NamesDiffering notes.new.made (Pipe object) at
            (part self.now.slots at (length others.now)) others.now) }
        ensures among { NotedAmong notes.old.made notes.new.made (Pipe object) at
            (part self.now.slots at (length others.now)) }
        ensures room { HasSameRoom notes.old notes.new }
    {
        let old = &self.slots()[at..at + others.len()];
        note_differing(Region::Pipe(object), at as u32, old, others, notes)
    }
}
