//! Regular files.
ghost use Rattle.std.specs.Prelude.{◌≡◌, ◌+◌, ◌*◌, ◌≤◌, ◌<◌, ℕ, false, slice_get, IfOk, length};
ghost use Rattle.places.specs.Masked.{BytesPresent};
ghost use Rattle.places.specs.Stretched.{kept_of, CanCount};
ghost use Rattle.model_files.specs.Objects.{CanPut, PutsIn, PutsBack};
ghost use Rattle.model_files.specs.Files.{file_seen, file_start, synced, written, FileFormed, FileSized};

use crate::bytes::{overwrite, pad, put_over};
use crate::pages::Pages;
use places::{At, Place, Region, Stretch, Value};
use shared_pages::Page;
use std::alloc::{AllocError, Global};
use std::marker::Model;
use std::sync::Arc;

/// A regular file: its current contents, which a program reads and writes, and its durable
/// contents.
#[derive(Drop)]
pub struct RegularFile {
    bytes: Page<u8>,
    len: u32,
    durable: Page<u8>,
    durable_len: u32,
    /// The pages in which the two contents may differ.
    dirty: Pages,
}

impl Model for RegularFile {
    ghost use Rattle.model_files.specs.Files.{FileState};
    ghost use Rattle.model_files.specs.Pages.{FileTracked};

    ghost Value = { FileState };

    ghost view = { λ a. record {
      bytes = a.bytes;
      len = a.len;
      durable = a.durable;
      durable_len = a.durable_len;
    } };

    ghost invariant = { λ a. FileTracked
        (record {
          bytes = a.bytes;
          len = a.len;
          durable = a.durable;
          durable_len =
              a.durable_len;
        }) a.dirty.marks };
}

/// A copy of a file that shares its bytes.
#[derive(Drop)]
pub struct SharedFile {
    bytes: Arc<Vec<u8>>,
    len: u32,
    durable: Arc<Vec<u8>>,
    durable_len: u32,
    dirty: Pages,
}

impl Model for SharedFile {
    ghost use Rattle.model_files.specs.Files.{FileState};
    ghost use Rattle.model_files.specs.Pages.{FileTracked};

    ghost Value = { FileState };

    ghost view = { λ a. record {
      bytes = a.bytes.value.items;
      len = a.len;
      durable = a.durable.value.items;
      durable_len = a.durable_len;
    } };

    ghost invariant = { λ a. FileTracked
        (record {
          bytes = a.bytes.value.items;
          len = a.len;
          durable = a.durable.value.items;
          durable_len =
              a.durable_len;
        }) a.dirty.marks };
}

impl SharedFile {
    /// Returns the file, in the storage of `room` if there is one.
    pub(crate) fn restore(
        &self,
        alloc: Global,
        room: Option<RegularFile>,
    ) -> Result<RegularFile, AllocError>
        ensures { IfOk result (λ f. f ≡ self.now) }
    {
        let (bytes, durable) = match room {
            Some(
                RegularFile {
                    bytes,
                    len: _,
                    durable,
                    durable_len: _,
                    dirty: _,
                },
            ) => (Some(bytes), Some(durable)),
            None => (None, None),
        };
        Ok(RegularFile {
            bytes: Page::restore(alloc, &self.bytes, bytes)?,
            len: self.len,
            durable: Page::restore(alloc, &self.durable, durable)?,
            durable_len: self.durable_len,
            dirty: self.dirty,
        })
    }
}

impl At for RegularFile {
    ghost seen = { file_seen };

    fn at(&self, place: Place) -> Option<Value> {
        match place {
            Place::FileByte(_, i) => match self.bytes.as_slice().get(i as usize) {
                Some(byte) => Some(Value::Byte(*byte)),
                None => None,
            },
            Place::DurableByte(_, i) => match self.durable.as_slice().get(i as usize) {
                Some(byte) => Some(Value::Byte(*byte)),
                None => None,
            },
            Place::FileLength(_) => Some(Value::Number(self.len as u64)),
            Place::DurableLength(_) => Some(Value::Number(self.durable_len as u64)),
            _ => None,
        }
    }

    fn bytes_in(&self, region: Region) -> Option<&[u8]> {
        match region {
            Region::File(_) => Some(self.bytes.as_slice()),
            Region::Durable(_) => Some(self.durable.as_slice()),
            _ => None,
        }
    }
}

impl RegularFile {
    /// Returns a file with these bytes, all of them durable.
    pub fn new(alloc: Global, bytes: &[u8]) -> Result<RegularFile, AllocError>
        requires { length bytes.now ≤ 65536 }
        ensures { IfOk result (λ f. f ≡ file_start bytes.now) }
    {
        let len = bytes.len() as u32;
        Ok(RegularFile {
            bytes: pad(alloc, bytes)?,
            len,
            durable: pad(alloc, bytes)?,
            durable_len: len,
            dirty: Pages::none(),
        })
    }

    /// Returns a copy.
    pub fn copy(&self, alloc: Global) -> Result<RegularFile, AllocError>
        ensures { IfOk result (λ f. f ≡ self.now) }
    {
        Ok(RegularFile {
            bytes: self.bytes.copy(alloc)?,
            len: self.len,
            durable: self.durable.copy(alloc)?,
            durable_len: self.durable_len,
            dirty: self.dirty,
        })
    }

    /// Returns a copy that shares the bytes. Copies only bytes that were written since the last
    /// shared copy.
    pub(crate) fn share(&mut self, alloc: Global) -> Result<SharedFile, AllocError>
        ensures ok { IfOk result (λ f. f ≡ self.old) }
        ensures same { self.new ≡ self.old }
    {
        Ok(SharedFile {
            bytes: self.bytes.keep(alloc)?,
            len: self.len,
            durable: self.durable.keep(alloc)?,
            durable_len: self.durable_len,
            dirty: self.dirty,
        })
    }

    /// Returns the stored bytes: the contents, padded with zeros to 65,536.
    pub fn bytes(&self) -> &[u8]
        ensures value { result.now ≡ self.now.bytes }
        ensures len { length result.now ≡ 65536 }
    {
        self.bytes.as_slice()
    }

    /// Returns the length of the file in bytes.
    pub fn len(&self) -> u32
        ensures value { result ≡ self.now.len }
        ensures most { result ≤ 65536 }
    {
        self.len
    }

    pub(crate) fn durable(&self) -> &[u8]
        ensures value { result.now ≡ self.now.durable }
        ensures len { length result.now ≡ 65536 }
        ensures sized { FileSized self.now }
    {
        self.durable.as_slice()
    }

    /// Returns whether the durable contents may differ in a page.
    pub(crate) fn is_dirty(&self, page: u32) -> bool
        requires { page < 16 }
        ensures { result ≡ false → (i : ℕ) → page * 4096 ≤ i → i < page * 4096 + 4096
            → slice_get self.now.bytes i ≡ slice_get self.now.durable i }
    {
        self.dirty.is_marked(page as usize)
    }

    pub(crate) fn durable_len(&self) -> u32
        ensures value { result ≡ self.now.durable_len }
        ensures sized { FileSized self.now }
    {
        self.durable_len
    }

    /// Sets the value of one of its places.
    pub(crate) fn set(&mut self, place: Place, value: Value)
        requires { CanPut (file_seen self.old) place value }
        ensures put { PutsIn (file_seen self.old) (file_seen self.new) place value }
        ensures bytes { length self.new.bytes ≡ length self.old.bytes }
        ensures durable { length self.new.durable ≡ length self.old.durable }
    {
        match (place, value) {
            (Place::FileByte(_, i), Value::Byte(byte)) => {
                self.dirty.mark(i as usize, 1);
                self.bytes.set(i as usize, byte)
            }
            (Place::DurableByte(_, i), Value::Byte(byte)) => {
                self.dirty.mark(i as usize, 1);
                self.durable.set(i as usize, byte)
            }
            (Place::FileLength(_), Value::Number(n)) => self.len = n as u32,
            (Place::DurableLength(_), Value::Number(n)) => self.durable_len = n as u32,
            // No other place can be set, so any is left alone.
            _ => {}
        }
    }

    /// Restores the recorded bytes of a stretch.
    pub(crate) fn put_back(&mut self, stretch: Stretch<'_>)
        requires count { CanCount stretch }
        requires present { BytesPresent (file_seen self.old) stretch.region stretch.start
            (kept_of stretch) }
        ensures put { PutsBack (file_seen self.old)
            (file_seen self.new) stretch.entry.region stretch.entry.start
            (kept_of stretch.entry) }
        ensures bytes { length self.new.bytes ≡ length self.old.bytes }
        ensures durable { length self.new.durable ≡ length self.old.durable }
    {
        let start = stretch.start as usize;
        let len = stretch.olds.len();
        match stretch.region {
            Region::File(_) => {
                self.dirty.mark_within(start, len);
                put_over(&mut self.bytes, &stretch);
            }
            Region::Durable(_) => {
                self.dirty.mark_within(start, len);
                put_over(&mut self.durable, &stretch);
            }
            Region::Memory | Region::Pipe(_) => {}
        }
    }

    /// Writes bytes at an offset.
    pub(crate) fn write(&mut self, at: usize, others: &[u8])
        requires formed { FileFormed self.old }
        requires some { 0 < length others.now }
        requires within { at + length others.now ≤ 65536 }
        ensures { self.new ≡ written others.now at self.old }
    {
        self.dirty.mark(at, others.len());
        overwrite(&mut self.bytes, at, others);
        let end = (at + others.len()) as u32;
        if end > self.len {
            self.len = end;
        }
    }

    /// Makes the whole file durable.
    pub(crate) fn sync(&mut self)
        ensures { self.new ≡ synced self.old }
    {
        self.dirty
            .sync_into(self.bytes.as_slice(), &mut self.durable);
        self.durable_len = self.len;
        self.dirty = Pages::none();
    }
}
