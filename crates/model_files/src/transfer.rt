//! Writing files and making them durable, with the old values recorded.
ghost use Rattle.std.specs.Prelude.{◌≡◌, ◌+◌, ◌*◌, ◌<◌, ◌≤◌, ℕ, OnOk, OnErr, None, length};
ghost use Rattle.places.specs.View.{Keeps, named};
ghost use Rattle.places.specs.declared.place.Place.{Place};
ghost use Rattle.places.specs.declared.place.Place.TheVariants.{FileByte, DurableByte};
ghost use Rattle.model_files.specs.Objects.{object_owns, NamesChanges};
ghost use Rattle.model_files.specs.Pages.{NamesUpTo};
ghost use Rattle.places.specs.Notes.{HasSameRoom};
ghost use Rattle.model_files.specs.Files.{file_seen, synced, written, FileFormed};

use crate::differing::note_differing;
use crate::file::RegularFile;
use crate::pages::{PAGE, PAGES};
use places::{Place, Recorder, Region};
use std::alloc::AllocError;

impl RegularFile {
    /// Writes bytes at an offset (write(2)). If an allocation fails, the file is unchanged.
    pub fn write_at(
        &mut self,
        object: u32,
        offset: u32,
        others: &[u8],
        notes: &mut Recorder,
    ) -> Result<(), AllocError>
        requires formed { FileFormed self.old }
        requires within { offset + length others.now ≤ 65536 }
        requires fresh { (i : ℕ) → i < length others.now
            → named notes.old.made (FileByte object (offset + i)) ≡ None }
        ensures ok { OnOk result (self.new ≡ written others.now offset self.old) }
        ensures err { OnErr result (self.new ≡ self.old) }
        ensures keeps { Keeps (object_owns object) (file_seen self.old)
            (file_seen self.new) notes.old.made notes.new.made }
        ensures named { (p : Place) → named notes.new.made p ≡ None
            → named notes.old.made p ≡ None }
        ensures numbers { notes.old.numbers ≤ notes.new.numbers + 1 }
        ensures completions { notes.old.completions ≤ notes.new.completions }
        ensures others { notes.old.others ≤ notes.new.others }
    {
        if others.is_empty() {
            return Ok(());
        }
        self.note_write(object, offset, others, notes)?;
        self.write(offset as usize, others);
        Ok(())
    }

    fn note_write(
        &self,
        object: u32,
        offset: u32,
        others: &[u8],
        notes: &mut Recorder,
    ) -> Result<(), AllocError>
        requires formed { FileFormed self.now }
        requires some { 0 < length others.now }
        requires within { offset + length others.now ≤ 65536 }
        requires fresh { (i : ℕ) → i < length others.now
            → named notes.old.made (FileByte object (offset + i)) ≡ None }
        ensures keeps { Keeps (object_owns object) (file_seen self.now)
            (file_seen self.now) notes.old.made notes.new.made }
        ensures noted { OnOk result
            (NamesChanges (object_owns object) (file_seen self.now)
            (file_seen (written others.now offset self.now)) notes.new.made) }
        ensures named { (p : Place) → named notes.new.made p ≡ None
            → named notes.old.made p ≡ None }
        ensures numbers { notes.old.numbers ≤ notes.new.numbers + 1 }
        ensures completions { notes.old.completions ≤ notes.new.completions }
        ensures others { notes.old.others ≤ notes.new.others }
    {
        let start = offset as usize;
        let end = start + others.len();
        let old = &self.bytes()[start..end];
        note_differing(Region::File(object), offset, old, others, notes)?;
        if end <= self.len() as usize {
            return Ok(());
        }
        notes.note_number(Place::FileLength(object), self.len() as u64)?;
        Ok(())
    }

    /// Makes the whole file durable (fsync(2)). If an allocation fails, the file is unchanged.
    pub fn sync_noted(&mut self, object: u32, notes: &mut Recorder) -> Result<(), AllocError>
        requires fresh { (i : ℕ) → i < 65536 → named notes.old.made (DurableByte object i) ≡ None }
        ensures ok { OnOk result (self.new ≡ synced self.old) }
        ensures err { OnErr result (self.new ≡ self.old) }
        ensures keeps { Keeps (object_owns object) (file_seen self.old)
            (file_seen self.new) notes.old.made notes.new.made }
        ensures named { (p : Place) → named notes.new.made p ≡ None
            → named notes.old.made p ≡ None }
        ensures numbers { notes.old.numbers ≤ notes.new.numbers + 1 }
        ensures completions { notes.old.completions ≤ notes.new.completions }
        ensures others { notes.old.others ≤ notes.new.others }
    {
        self.note_sync(object, notes)?;
        self.sync();
        Ok(())
    }

    fn note_sync(&self, object: u32, notes: &mut Recorder) -> Result<(), AllocError>
        requires fresh { (i : ℕ) → i < 65536 → named notes.old.made (DurableByte object i) ≡ None }
        ensures keeps { Keeps (object_owns object) (file_seen self.now)
            (file_seen self.now) notes.old.made notes.new.made }
        ensures noted { OnOk result
            (NamesChanges (object_owns object) (file_seen self.now)
            (file_seen (synced self.now)) notes.new.made) }
        ensures named { (p : Place) → named notes.new.made p ≡ None
            → named notes.old.made p ≡ None }
        ensures numbers { notes.old.numbers ≤ notes.new.numbers + 1 }
        ensures completions { notes.old.completions ≤ notes.new.completions }
        ensures others { notes.old.others ≤ notes.new.others }
    {
        self.note_pages(object, notes)?;
        notes.note_number(Place::DurableLength(object), self.durable_len() as u64)?;
        Ok(())
    }

    /// Records the durable bytes that change, in each marked page.
    fn note_pages(&self, object: u32, notes: &mut Recorder) -> Result<(), AllocError>
        requires fresh { (i : ℕ) → i < 65536 → named notes.old.made (DurableByte object i) ≡ None }
        ensures keeps { Keeps (object_owns object) (file_seen self.now)
            (file_seen self.now) notes.old.made notes.new.made }
        ensures noted { OnOk result (NamesUpTo object self.now notes.new.made 65536) }
        ensures named { (p : Place) → named notes.new.made p ≡ None
            → named notes.old.made p ≡ None }
        ensures room { HasSameRoom notes.old notes.new }
    {
        for page in 0..PAGES as u32 {
            self.note_page(object, page, notes)?;
        }
        Ok(())
    }

    fn note_page(&self, object: u32, page: u32, notes: &mut Recorder) -> Result<(), AllocError>
        requires page { page < 16 }
        requires fresh { (i : ℕ) → page * 4096 ≤ i → i < 65536
            → named notes.old.made (DurableByte object i) ≡ None }
        ensures keeps { Keeps (object_owns object) (file_seen self.now)
            (file_seen self.now) notes.old.made notes.new.made }
        ensures noted { OnOk result (NamesUpTo object self.now notes.old.made (page * 4096)
            → NamesUpTo object self.now notes.new.made (page * 4096 + 4096)) }
        ensures named { (p : Place) → named notes.new.made p ≡ None
            → named notes.old.made p ≡ None }
        ensures fresh { (i : ℕ) → page * 4096 + 4096 ≤ i → i < 65536
            → named notes.new.made (DurableByte object i) ≡ None }
        ensures room { HasSameRoom notes.old notes.new }
    {
        if !self.is_dirty(page) {
            return Ok(());
        }
        let start = page as usize * PAGE;
        let old = &self.durable()[start..start + PAGE];
        let others = &self.bytes()[start..start + PAGE];
        note_differing(Region::Durable(object), start as u32, old, others, notes)?;
        Ok(())
    }
}
