//! The memory, the objects and the descriptors.
ghost use Rattle.std.specs.Prelude.{◌≡◌, ◌+◌, ◌<◌, ◌≤◌, ◌^◌, ℕ, IsSome, IfOk, IfSome, IsSomeAnd, None, OnErr, OnOk, IsOk, Some, length, option_map, slice_get};
ghost use Rattle.places.specs.View.{Keeps, named, put_at, undo};
ghost use Rattle.places.specs.Runs.{place_in, old_bytes};
ghost use Rattle.places.specs.Masked.{BytesPresent};
ghost use Rattle.places.specs.Stretched.{kept_of, CanCount};
ghost use Rattle.places.specs.declared.place.Place.{Place};
ghost use Rattle.places.specs.declared.place.Place.TheVariants.{MemoryByte, FileByte, DurableByte, PipeByte, Position};
ghost use Rattle.places.specs.declared.notes.runs.Region.TheVariants.{Memory};
ghost use Rattle.places.specs.Notes.{HasSameRoom};
ghost use Rattle.places.specs.declared.object.Object.{Object};
ghost use Rattle.model_files.specs.Differing.{NotedAmong, NamesDiffering};
ghost use Rattle.model_files.specs.Files.{part, FileFormed};
ghost use Rattle.model_files.specs.Objects.{object_in, NamesChanges};
ghost use Rattle.model_files.specs.Pipes.{GivesOut, TakesIn};
ghost use Rattle.model_files.specs.Worlds.{world_owns, world_seen, world_can_put, descriptor_of, descriptor_at, file_of, mark_of, world_read, world_written, world_synced, world_at, world_closed, world_stored, world_taken, world_put, world_added, world_cleared, world_start, oldest, number_at, pipe_of, counter_of, stock_of, StockFits, ContentsFit, OneSetup};

mod sharing;

use crate::body::Body;
use crate::bytes::{overwrite, pad, put_over};
use crate::descriptor::DescriptorState;
use crate::differing::note_differing;
use crate::start::{copy_objects, start_descriptors, start_objects};
use crate::stock::Stock;
use places::{At, Descriptor, Object, Part, Place, Recorder, Region, Stretch, Value};
use shared_pages::Page;
pub use sharing::SharedWorld;
use std::alloc::{AllocError, Global};
use std::marker::Model;

/// The memory, the objects and the descriptors. A transfer needs an object of its own kind, and with
/// any other it changes nothing.
pub struct World {
    memory: Page<u8>,
    objects: Vec<Body>,
    descriptors: Vec<DescriptorState>,
}

// Written by hand, so that dropping it is one step of a proof.
impl Drop for World {
    fn drop(self) {
        let World {
            memory: _,
            objects: _,
            descriptors: _,
        } = self;
    }
}

impl Model for World {
    ghost use Rattle.model_files.specs.Worlds.{WorldState};

    ghost Value = { WorldState };

    ghost view = { λ a. record
        { memory = a.memory; objects = a.objects.items; descriptors = a.descriptors.items } };

    ghost use Rattle.std.specs.Prelude.{◌≡◌, length};

    ghost invariant = { λ a. length a.memory ≡ 65536 };
}

impl At for World {
    ghost seen = { world_seen };

    fn at(&self, place: Place) -> Option<Value> {
        match place {
            Place::MemoryByte(address) => match self.memory.as_slice().get(address as usize) {
                Some(byte) => Some(Value::Byte(*byte)),
                None => None,
            },
            Place::FileByte(object, _)
            | Place::DurableByte(object, _)
            | Place::FileLength(object)
            | Place::DurableLength(object)
            | Place::PipeByte(object, _)
            | Place::PutCount(object)
            | Place::TakenCount(object)
            | Place::EventCount(object) => match self.objects.get(object as usize) {
                Some(body) => body.at(place),
                None => None,
            },
            Place::Position(fd) => match self.descriptor(fd) {
                Some(descriptor) => match descriptor.position {
                    Some(position) => Some(Value::Number(position)),
                    None => None,
                },
                None => None,
            },
            Place::OpenMark(fd) => match self.descriptor(fd) {
                Some(descriptor) => Some(Value::Number(descriptor.is_open as u64)),
                None => None,
            },
            _ => None,
        }
    }

    fn bytes_in(&self, region: Region) -> Option<&[u8]> {
        match region {
            Region::Memory => Some(self.memory.as_slice()),
            Region::File(object) | Region::Durable(object) | Region::Pipe(object) => {
                match self.objects.get(object as usize) {
                    Some(body) => body.bytes_in(region),
                    None => None,
                }
            }
        }
    }
}

impl Part for World {
    ghost owns = { world_owns };

    ghost can_put = { world_can_put };

    fn put(&mut self, place: Place, value: Option<Value>)
        requires { world_can_put self.old place value }
        ensures put { (q : Place)
            → world_seen self.new q ≡ put_at (world_seen self.old) place value q }
        ensures setup { OneSetup self.old self.new }
    {
        // No place can be made absent, and no other place can be set: both change nothing.
        let Some(value) = value else { return };
        if let Some(object) = object_in(place) {
            self.objects[object as usize].set(place, value);
            return;
        }
        match (place, value) {
            (Place::MemoryByte(address), Value::Byte(byte)) => {
                self.memory.set(address as usize, byte)
            }
            (Place::Position(fd), Value::Number(n)) => {
                self.descriptors[(fd - 3) as usize].position = Some(n)
            }
            (Place::OpenMark(fd), Value::Number(n)) => {
                self.descriptors[(fd - 3) as usize].is_open = n == 1
            }
            _ => {}
        }
    }
}

impl World {
    /// Returns the world at the start of a run.
    pub fn new(
        alloc: Global,
        memory: &[u8],
        objects: &[Object],
        descriptors: &[Descriptor],
    ) -> Result<World, AllocError>
        requires memory { length memory.now ≤ 65536 }
        requires files { (i : ℕ) (o : Object) → slice_get objects.now i ≡ Some o
            → ContentsFit o.contents }
        ensures { IfOk result (λ world. world
            ≡ world_start memory.now objects.now descriptors.now) }
    {
        Ok(World {
            memory: pad(alloc, memory)?,
            objects: start_objects(alloc, objects)?,
            descriptors: start_descriptors(alloc, objects, descriptors)?,
        })
    }

    /// Returns a copy.
    pub fn copy(&self, alloc: Global) -> Result<World, AllocError>
        ensures { IfOk result (λ world. world ≡ self.now) }
    {
        Ok(World {
            memory: self.memory.copy(alloc)?,
            objects: copy_objects(alloc, &self.objects)?,
            descriptors: Vec::from_slice(alloc, &self.descriptors)?,
        })
    }

    /// Restores the recorded bytes of a stretch. Allocates nothing.
    pub fn put_back(&mut self, stretch: Stretch<'_>)
        requires count { CanCount stretch }
        requires present { BytesPresent (world_seen self.old) stretch.region stretch.start
            (kept_of stretch) }
        ensures put { (q : Place)
            → world_seen self.new q
            ≡ undo (world_seen self.old)
            (old_bytes stretch.entry.region stretch.entry.start
            (kept_of stretch.entry)) q }
        ensures setup { OneSetup self.old self.new }
    {
        if let Some(object) = object_in(stretch.region.place(stretch.start)) {
            self.put_object_back(object, stretch);
            return;
        }
        put_over(&mut self.memory, &stretch);
    }

    // Restores the recorded bytes of a stretch of an object, if there is such an object.
    fn put_object_back(&mut self, object: u32, stretch: Stretch<'_>)
        requires its { object_in (place_in stretch.region stretch.start) ≡ Some object }
        requires count { CanCount stretch }
        requires present { BytesPresent (world_seen self.old) stretch.region stretch.start
            (kept_of stretch) }
        ensures put { (q : Place)
            → world_seen self.new q
            ≡ undo (world_seen self.old)
            (old_bytes stretch.entry.region stretch.entry.start
            (kept_of stretch.entry)) q }
        ensures setup { OneSetup self.old self.new }
    {
        let index = object as usize;
        if index < self.objects.len() {
            self.objects[index].put_back(stretch);
        }
    }

    /// Returns the descriptor with a number, open or closed.
    pub fn descriptor(&self, fd: u32) -> Option<DescriptorState>
        ensures { result ≡ descriptor_of self.now fd }
    {
        if fd < 3 {
            return None;
        }
        self.descriptors.get((fd - 3) as usize).copied()
    }

    /// Returns the descriptor in an entry's field `fd`, open or closed. A negative number is none.
    pub fn descriptor_at(&self, fd: i32) -> Option<DescriptorState>
        ensures { result ≡ descriptor_at self.now fd }
    {
        if fd < 0 {
            return None;
        }
        self.descriptor(fd as u32)
    }

    /// Returns how much an object holds, or `None` if there is no such object.
    pub fn stock(&self, object: u32) -> Option<Stock>
        ensures value { result ≡ stock_of self.now object }
        ensures fits { IfSome result StockFits }
    {
        match self.objects.get(object as usize) {
            Some(body) => Some(body.stock()),
            None => None,
        }
    }

    pub(crate) fn body(&self, object: u32) -> Option<&Body>
        ensures { option_map (λ b. b.now) result ≡ slice_get self.now.objects object }
    {
        self.objects.get(object as usize)
    }

    pub(crate) fn descriptors(&self) -> &[DescriptorState]
        ensures { result.now ≡ self.now.descriptors }
    {
        &self.descriptors
    }

    /// Returns the 64-bit number at an address, in little-endian order.
    pub fn number_at(&self, address: u32) -> u64
        requires { address + 8 ≤ 65536 }
        ensures { result ≡ number_at self.now address }
    {
        match self.memory.as_slice()[address as usize..].first_chunk::<8>() {
            Some(bytes) => u64::from_le_bytes(*bytes),
            // The address leaves eight bytes of the memory.
            None => unreachable!(),
        }
    }

    /// Returns the memory, 65,536 bytes.
    pub fn memory(&self) -> &[u8]
        ensures value { result.now ≡ self.now.memory }
        ensures size { length result.now ≡ 65536 }
    {
        self.memory.as_slice()
    }

    /// Stores bytes in memory. If an allocation fails, the world is unchanged.
    pub fn store(
        &mut self,
        address: u32,
        bytes: &[u8],
        notes: &mut Recorder,
    ) -> Result<(), AllocError>
        requires in_memory { address + length bytes.now ≤ 65536 }
        requires fresh { (i : ℕ) → i < length bytes.now
            → named notes.old.made (MemoryByte (address + i)) ≡ None }
        ensures ok { OnOk result (self.new ≡ world_stored address bytes.now self.old) }
        ensures err { OnErr result (self.new ≡ self.old) }
        ensures keeps { Keeps world_owns (world_seen self.old)
            (world_seen self.new) notes.old.made notes.new.made }
        ensures named { (p : Place) → named notes.new.made p ≡ None
            → named notes.old.made p ≡ None }
        ensures numbers { notes.old.numbers ≤ notes.new.numbers }
        ensures completions { notes.old.completions ≤ notes.new.completions }
        ensures others { notes.old.others ≤ notes.new.others }
    {
        let to = address as usize;
        let old = &self.memory.as_slice()[to..to + bytes.len()];
        note_differing(Region::Memory, address, old, bytes, notes)?;
        overwrite(&mut self.memory, to, bytes);
        Ok(())
    }

    /// Reads `count` bytes of a file from an offset into memory (read(2)). If an allocation fails,
    /// the world is unchanged.
    pub fn read_at(
        &mut self,
        object: u32,
        offset: u32,
        count: u32,
        address: u32,
        notes: &mut Recorder,
    ) -> Result<(), AllocError>
        requires file { IsSome (file_of self.old object) }
        requires in_file { offset + count ≤ 65536 }
        requires in_memory { address + count ≤ 65536 }
        requires fresh { (i : ℕ) → i < count
            → named notes.old.made (MemoryByte (address + i)) ≡ None }
        ensures ok { OnOk result (self.new ≡ world_read object offset count address self.old) }
        ensures err { OnErr result (self.new ≡ self.old) }
        ensures keeps { Keeps world_owns (world_seen self.old)
            (world_seen self.new) notes.old.made notes.new.made }
        ensures named { (p : Place) → named notes.new.made p ≡ None
            → named notes.old.made p ≡ None }
        ensures numbers { notes.old.numbers ≤ notes.new.numbers }
        ensures completions { notes.old.completions ≤ notes.new.completions }
        ensures others { notes.old.others ≤ notes.new.others }
    {
        let (from, to, count) = (offset as usize, address as usize, count as usize);
        let Body::File(file) = &self.objects[object as usize] else {
            return Ok(());
        };
        let others = &file.bytes()[from..from + count];
        let old = &self.memory.as_slice()[to..to + count];
        note_differing(Region::Memory, address, old, others, notes)?;
        overwrite(&mut self.memory, to, others);
        Ok(())
    }

    /// Writes `count` bytes of memory to a file at an offset (write(2)). If an allocation fails,
    /// the world is unchanged.
    pub fn write_at(
        &mut self,
        object: u32,
        offset: u32,
        count: u32,
        address: u32,
        notes: &mut Recorder,
    ) -> Result<(), AllocError>
        requires file { IsSomeAnd (file_of self.old object) FileFormed }
        requires in_file { offset + count ≤ 65536 }
        requires in_memory { address + count ≤ 65536 }
        requires fresh { (i : ℕ) → i < count
            → named notes.old.made (FileByte object (offset + i)) ≡ None }
        ensures ok { OnOk result (self.new ≡ world_written object offset count address self.old) }
        ensures err { OnErr result (self.new ≡ self.old) }
        ensures keeps { Keeps world_owns (world_seen self.old)
            (world_seen self.new) notes.old.made notes.new.made }
        ensures named { (p : Place) → named notes.new.made p ≡ None
            → named notes.old.made p ≡ None }
        ensures numbers { notes.old.numbers ≤ notes.new.numbers + 1 }
        ensures completions { notes.old.completions ≤ notes.new.completions }
        ensures others { notes.old.others ≤ notes.new.others }
    {
        let from = address as usize;
        let others = &self.memory.as_slice()[from..from + count as usize];
        let Body::File(file) = &mut self.objects[object as usize] else {
            return Ok(());
        };
        file.write_at(object, offset, others, notes)
    }

    /// Makes the whole file durable (fsync(2)). If an allocation fails, the world is unchanged.
    pub fn sync(&mut self, object: u32, notes: &mut Recorder) -> Result<(), AllocError>
        requires file { IsSome (file_of self.old object) }
        requires fresh { (i : ℕ) → i < 65536 → named notes.old.made (DurableByte object i) ≡ None }
        ensures ok { OnOk result (self.new ≡ world_synced object self.old) }
        ensures err { OnErr result (self.new ≡ self.old) }
        ensures keeps { Keeps world_owns (world_seen self.old)
            (world_seen self.new) notes.old.made notes.new.made }
        ensures named { (p : Place) → named notes.new.made p ≡ None
            → named notes.old.made p ≡ None }
        ensures numbers { notes.old.numbers ≤ notes.new.numbers + 1 }
        ensures completions { notes.old.completions ≤ notes.new.completions }
        ensures others { notes.old.others ≤ notes.new.others }
    {
        let Body::File(file) = &mut self.objects[object as usize] else {
            return Ok(());
        };
        file.sync_noted(object, notes)
    }

    /// Moves the `count` oldest bytes of a pipe into memory (pipe(7)). If an allocation fails, the
    /// world is unchanged.
    pub fn take_pipe(
        &mut self,
        object: u32,
        count: u32,
        address: u32,
        notes: &mut Recorder,
    ) -> Result<(), AllocError>
        requires there { IsSomeAnd (pipe_of self.old object) (GivesOut count) }
        requires in_memory { address + count ≤ 65536 }
        requires fresh { (i : ℕ) → i < count
            → named notes.old.made (MemoryByte (address + i)) ≡ None }
        ensures ok { OnOk result (self.new ≡ world_taken object count address self.old) }
        ensures err { OnErr result (self.new ≡ self.old) }
        ensures keeps { Keeps world_owns (world_seen self.old)
            (world_seen self.new) notes.old.made notes.new.made }
        ensures named { (p : Place) → named notes.new.made p ≡ None
            → named notes.old.made p ≡ None }
        ensures numbers { notes.old.numbers ≤ notes.new.numbers + 1 }
        ensures completions { notes.old.completions ≤ notes.new.completions }
        ensures others { notes.old.others ≤ notes.new.others }
    {
        self.note_taken(object, count, address, notes)?;
        self.copy_oldest(object, count, address);
        self.objects[object as usize].take(count);
        Ok(())
    }

    // Copies the oldest bytes of a pipe into memory.
    fn copy_oldest(&mut self, object: u32, count: u32, address: u32)
        requires there { IsSomeAnd (pipe_of self.old object) (GivesOut count) }
        requires in_memory { address + count ≤ 65536 }
        ensures { self.new ≡ world_stored address
            (oldest count (pipe_of self.old object)) self.old }
    {
        let Body::Pipe(pipe) = &self.objects[object as usize] else {
            return;
        };
        let (first, second) = pipe.oldest(count as usize);
        let to = address as usize;
        overwrite(&mut self.memory, to, first);
        overwrite(&mut self.memory, to + first.len(), second);
    }

    fn note_taken(
        &self,
        object: u32,
        count: u32,
        address: u32,
        notes: &mut Recorder,
    ) -> Result<(), AllocError>
        requires there { IsSomeAnd (pipe_of self.now object) (GivesOut count) }
        requires in_memory { address + count ≤ 65536 }
        requires fresh { (i : ℕ) → i < count
            → named notes.old.made (MemoryByte (address + i)) ≡ None }
        ensures keeps { Keeps world_owns (world_seen self.now)
            (world_seen self.now) notes.old.made notes.new.made }
        ensures noted { OnOk result
            (NamesChanges world_owns (world_seen self.now)
            (world_seen (world_taken object count address self.now)) notes.new.made) }
        ensures named { (p : Place) → named notes.new.made p ≡ None
            → named notes.old.made p ≡ None }
        ensures numbers { notes.old.numbers ≤ notes.new.numbers + 1 }
        ensures completions { notes.old.completions ≤ notes.new.completions }
        ensures others { notes.old.others ≤ notes.new.others }
    {
        let Body::Pipe(pipe) = &self.objects[object as usize] else {
            return Ok(());
        };
        let (first, second) = pipe.oldest(count as usize);
        self.note_memory(address, first, notes)?;
        self.note_memory(address + first.len() as u32, second, notes)?;
        notes.note_number(Place::TakenCount(object), pipe.taken())?;
        Ok(())
    }

    // Records the bytes of memory that change when the new bytes are stored.
    fn note_memory(
        &self,
        address: u32,
        others: &[u8],
        notes: &mut Recorder,
    ) -> Result<(), AllocError>
        requires in_memory { address + length others.now ≤ 65536 }
        requires fresh { (i : ℕ) → i < length others.now
            → named notes.old.made (MemoryByte (address + i)) ≡ None }
        ensures noted { OnOk result
            (NamesDiffering notes.new.made Memory address
            (part self.now.memory address (length others.now)) others.now) }
        ensures among { NotedAmong notes.old.made notes.new.made Memory address
            (part self.now.memory address (length others.now)) }
        ensures room { HasSameRoom notes.old notes.new }
    {
        let at = address as usize;
        let old = &self.memory.as_slice()[at..at + others.len()];
        note_differing(Region::Memory, address, old, others, notes)
    }

    /// Writes `count` bytes of memory to a pipe (pipe(7)). If an allocation fails, the world is
    /// unchanged.
    pub fn put_pipe(
        &mut self,
        object: u32,
        count: u32,
        address: u32,
        notes: &mut Recorder,
    ) -> Result<(), AllocError>
        requires room { IsSomeAnd (pipe_of self.old object) (TakesIn count) }
        requires in_memory { address + count ≤ 65536 }
        requires fresh { (i : ℕ) → i < 65536 → named notes.old.made (PipeByte object i) ≡ None }
        ensures ok { OnOk result (self.new ≡ world_put object count address self.old) }
        ensures err { OnErr result (self.new ≡ self.old) }
        ensures keeps { Keeps world_owns (world_seen self.old)
            (world_seen self.new) notes.old.made notes.new.made }
        ensures named { (p : Place) → named notes.new.made p ≡ None
            → named notes.old.made p ≡ None }
        ensures numbers { notes.old.numbers ≤ notes.new.numbers + 1 }
        ensures completions { notes.old.completions ≤ notes.new.completions }
        ensures others { notes.old.others ≤ notes.new.others }
    {
        let start = address as usize;
        let bytes = &self.memory.as_slice()[start..start + count as usize];
        let Body::Pipe(pipe) = &mut self.objects[object as usize] else {
            return Ok(());
        };
        pipe.put_noted(object, bytes, notes)
    }

    /// Adds a number to the counter of an eventfd (eventfd(2)). If an allocation fails, the counter
    /// is unchanged.
    pub fn add_event(
        &mut self,
        object: u32,
        number: u64,
        notes: &mut Recorder,
    ) -> Result<(), AllocError>
        requires room { IsSomeAnd (counter_of self.old object) (λ n. n + number < 2 ^ 64) }
        ensures ok { OnOk result (self.new ≡ world_added object number self.old) }
        ensures err { OnErr result (self.new ≡ self.old) }
        ensures keeps { Keeps world_owns (world_seen self.old)
            (world_seen self.new) notes.old.made notes.new.made }
        ensures named { (p : Place) → named notes.new.made p ≡ None
            → named notes.old.made p ≡ None }
        ensures numbers { notes.old.numbers ≤ notes.new.numbers + 1 }
        ensures completions { notes.old.completions ≤ notes.new.completions }
        ensures others { notes.old.others ≤ notes.new.others }
    {
        let Body::EventFd(counter) = &mut self.objects[object as usize] else {
            return Ok(());
        };
        notes.note_number(Place::EventCount(object), *counter)?;
        *counter += number;
        Ok(())
    }

    /// Stores the eight bytes of an eventfd's counter in memory, in little-endian order, and resets
    /// the counter to 0 (eventfd(2)). If an allocation fails, the world is unchanged.
    pub fn clear_event(
        &mut self,
        object: u32,
        address: u32,
        notes: &mut Recorder,
    ) -> Result<(), AllocError>
        requires counter { IsSome (counter_of self.old object) }
        requires in_memory { address + 8 ≤ 65536 }
        requires fresh { (i : ℕ) → i < 8 → named notes.old.made (MemoryByte (address + i)) ≡ None }
        ensures ok { OnOk result (self.new ≡ world_cleared object address self.old) }
        ensures err { OnErr result (self.new ≡ self.old) }
        ensures keeps { Keeps world_owns (world_seen self.old)
            (world_seen self.new) notes.old.made notes.new.made }
        ensures named { (p : Place) → named notes.new.made p ≡ None
            → named notes.old.made p ≡ None }
        ensures numbers { notes.old.numbers ≤ notes.new.numbers + 1 }
        ensures completions { notes.old.completions ≤ notes.new.completions }
        ensures others { notes.old.others ≤ notes.new.others }
    {
        let Body::EventFd(counter) = self.objects[object as usize] else {
            return Ok(());
        };
        let bytes = counter.to_le_bytes();
        self.note_memory(address, &bytes, notes)?;
        notes.note_number(Place::EventCount(object), counter)?;
        self.objects[object as usize] = Body::EventFd(0);
        overwrite(&mut self.memory, address as usize, &bytes);
        Ok(())
    }

    /// Sets the position of a file descriptor (lseek(2)). If an allocation fails, it is unchanged.
    pub fn set_position(
        &mut self,
        fd: u32,
        position: u64,
        notes: &mut Recorder,
    ) -> Result<(), AllocError>
        requires { IsSome (world_seen self.old (Position fd)) }
        ensures ok { OnOk result (self.new ≡ world_at fd position self.old) }
        ensures err { OnErr result (self.new ≡ self.old) }
        ensures there { 0 < notes.old.numbers → fd < 67 → IsOk result }
        ensures keeps { Keeps world_owns (world_seen self.old)
            (world_seen self.new) notes.old.made notes.new.made }
        ensures named { (p : Place) → named notes.new.made p ≡ None
            → named notes.old.made p ≡ None }
        ensures numbers { notes.old.numbers ≤ notes.new.numbers + 1 }
        ensures completions { notes.old.completions ≤ notes.new.completions }
        ensures others { notes.old.others ≤ notes.new.others }
    {
        let index = (fd - 3) as usize;
        let Some(old) = self.descriptors[index].position else {
            return Ok(());
        };
        notes.note_number(Place::Position(fd), old)?;
        self.descriptors[index].position = Some(position);
        Ok(())
    }

    /// Closes a descriptor (close(2)). If an allocation fails, it stays open.
    pub fn close(&mut self, fd: u32, notes: &mut Recorder) -> Result<(), AllocError>
        requires { IsSome (descriptor_of self.old fd) }
        ensures ok { OnOk result (self.new ≡ world_closed fd self.old) }
        ensures err { OnErr result (self.new ≡ self.old) }
        ensures keeps { Keeps world_owns (world_seen self.old)
            (world_seen self.new) notes.old.made notes.new.made }
        ensures named { (p : Place) → named notes.new.made p ≡ None
            → named notes.old.made p ≡ None }
        ensures numbers { notes.old.numbers ≤ notes.new.numbers + 1 }
        ensures completions { notes.old.completions ≤ notes.new.completions }
        ensures others { notes.old.others ≤ notes.new.others }
    {
        let index = (fd - 3) as usize;
        let is_open = self.descriptors[index].is_open;
        notes.note_number(Place::OpenMark(fd), mark_number(is_open))?;
        self.descriptors[index].is_open = false;
        Ok(())
    }
}

/// Returns the number of the object that a place belongs to, if any.
fn object_in(place: Place) -> Option<u32>
    ensures { result ≡ object_in place }
{
    match place {
        Place::FileByte(object, _)
        | Place::DurableByte(object, _)
        | Place::FileLength(object)
        | Place::DurableLength(object)
        | Place::PipeByte(object, _)
        | Place::PutCount(object)
        | Place::TakenCount(object)
        | Place::EventCount(object) => Some(object),
        _ => None,
    }
}

/// Returns the value of the place `OpenMark`.
fn mark_number(is_open: bool) -> u64
    ensures { result ≡ mark_of is_open }
{
    is_open as u64
}
