//! Pipes.
ghost use Rattle.std.specs.Prelude.{◌≡◌, ◌+◌, ◌-◌, ◌%◌, ◌<◌, ◌≤◌, ◌^◌, ◌++◌, min, IfOk, Some, length, take};
ghost use Rattle.places.specs.Masked.{BytesPresent};
ghost use Rattle.places.specs.Stretched.{kept_of, CanCount};
ghost use Rattle.model_files.specs.Objects.{CanPut, PutsIn, PutsBack};
ghost use Rattle.model_files.specs.Pipes.{pipe_seen, pipe_start, bytes_from, filled, put_in, taken_out, GivesOut};

use crate::bytes::{overwrite, put_over};
use places::{At, Place, Region, Stretch, Value};
use shared_pages::Page;
use std::alloc::{AllocError, Global};
use std::marker::Model;
use std::sync::Arc;

/// A pipe (pipe(7)). Bytes are numbered from 0 over the whole run, and byte n is in slot n modulo
/// the capacity.
#[derive(Drop)]
pub struct PipeBuffer {
    /// A ring buffer; its length is the capacity.
    slots: Page<u8>,
    /// How many bytes have been written.
    put: u64,
    /// How many bytes have been read.
    taken: u64,
}

impl Model for PipeBuffer {
    ghost use Rattle.model_files.specs.Pipes.{PipeState};

    ghost Value = { PipeState };

    ghost view = { λ a. record { slots = a.slots; put = a.put; taken = a.taken } };
}

/// A copy of a pipe that shares its bytes.
#[derive(Drop)]
pub struct SharedPipe {
    slots: Arc<Vec<u8>>,
    put: u64,
    taken: u64,
}

impl Model for SharedPipe {
    ghost use Rattle.model_files.specs.Pipes.{PipeState};

    ghost Value = { PipeState };

    ghost view = { λ a. record { slots = a.slots.value.items; put = a.put; taken = a.taken } };
}

impl SharedPipe {
    /// Returns the pipe, in the storage of `room` if there is one of the same capacity.
    pub(crate) fn restore(
        &self,
        alloc: Global,
        room: Option<PipeBuffer>,
    ) -> Result<PipeBuffer, AllocError>
        ensures { IfOk result (λ pipe. pipe ≡ self.now) }
    {
        let slots = match room {
            Some(
                PipeBuffer {
                    slots,
                    put: _,
                    taken: _,
                },
            ) => Some(slots),
            None => None,
        };
        Ok(PipeBuffer {
            slots: Page::restore(alloc, &self.slots, slots)?,
            put: self.put,
            taken: self.taken,
        })
    }
}

impl At for PipeBuffer {
    ghost seen = { pipe_seen };

    fn at(&self, place: Place) -> Option<Value> {
        match place {
            Place::PipeByte(_, i) => match self.slots.as_slice().get(i as usize) {
                Some(byte) => Some(Value::Byte(*byte)),
                None => None,
            },
            Place::PutCount(_) => Some(Value::Number(self.put)),
            Place::TakenCount(_) => Some(Value::Number(self.taken)),
            _ => None,
        }
    }

    fn bytes_in(&self, region: Region) -> Option<&[u8]> {
        match region {
            Region::Pipe(_) => Some(self.slots.as_slice()),
            _ => None,
        }
    }
}

impl PipeBuffer {
    /// Returns an empty pipe.
    pub fn new(alloc: Global, capacity: usize) -> Result<PipeBuffer, AllocError>
        ensures { IfOk result (λ pipe. pipe ≡ pipe_start capacity) }
    {
        Ok(PipeBuffer {
            slots: Page::new(vec![in alloc; 0; capacity]?),
            put: 0,
            taken: 0,
        })
    }

    /// Returns a copy.
    pub fn copy(&self, alloc: Global) -> Result<PipeBuffer, AllocError>
        ensures { IfOk result (λ pipe. pipe ≡ self.now) }
    {
        Ok(PipeBuffer {
            slots: self.slots.copy(alloc)?,
            put: self.put,
            taken: self.taken,
        })
    }

    /// Returns a copy that shares the bytes. Copies only bytes that were written since the last
    /// shared copy.
    pub(crate) fn share(&mut self, alloc: Global) -> Result<SharedPipe, AllocError>
        ensures ok { IfOk result (λ pipe. pipe ≡ self.old) }
        ensures same { self.new ≡ self.old }
    {
        Ok(SharedPipe {
            slots: self.slots.keep(alloc)?,
            put: self.put,
            taken: self.taken,
        })
    }

    /// Returns how many bytes are in the pipe.
    pub(crate) fn filled(&self) -> u64
        ensures { result ≡ filled self.now }
    {
        self.put.saturating_sub(self.taken)
    }

    /// Returns the capacity in bytes.
    pub(crate) fn capacity(&self) -> u64
        ensures { result ≡ length self.now.slots }
    {
        self.slots.len() as u64
    }

    /// Returns how many bytes have been written.
    pub(crate) fn put_count(&self) -> u64
        ensures { result ≡ self.now.put }
    {
        self.put
    }

    /// Returns how many bytes have been read.
    pub(crate) fn taken(&self) -> u64
        ensures { result ≡ self.now.taken }
    {
        self.taken
    }

    pub(crate) fn slots(&self) -> &[u8]
        ensures { result.now ≡ self.now.slots }
    {
        self.slots.as_slice()
    }

    /// Returns the `count` oldest bytes in two parts: those up to the last slot, and those from the
    /// first slot on.
    pub(crate) fn oldest(&self, count: usize) -> (&[u8], &[u8])
        requires some { 0 < length self.now.slots }
        requires within { count ≤ length self.now.slots }
        ensures bytes { result.0.now ++ result.1.now
            ≡ bytes_from self.now.slots self.now.taken count }
        ensures len { length result.0.now + length result.1.now ≡ count }
    {
        let slots = self.slots.as_slice();
        let at = (self.taken % slots.len() as u64) as usize;
        let first = count.min(slots.len() - at);
        (&slots[at..at + first], &slots[..count - first])
    }

    /// Removes the `count` oldest bytes.
    pub(crate) fn take(&mut self, count: u32)
        requires { GivesOut count self.old }
        ensures { self.new ≡ taken_out count self.old }
    {
        let _most = self.put;
        self.taken += count as u64;
    }

    /// Appends bytes.
    pub(crate) fn push(&mut self, others: &[u8])
        requires some { 0 < length self.old.slots }
        requires room { length others.now ≤ length self.old.slots }
        requires count { self.old.put + length others.now < 2 ^ 64 }
        ensures { self.new ≡ put_in others.now self.old }
    {
        let at = (self.put % self.slots.len() as u64) as usize;
        let (first, second) = others.split_at(others.len().min(self.slots.len() - at));
        overwrite(&mut self.slots, at, first);
        overwrite(&mut self.slots, 0, second);
        self.put += others.len() as u64;
    }

    /// Restores the recorded bytes of a stretch.
    pub(crate) fn put_back(&mut self, stretch: Stretch<'_>)
        requires count { CanCount stretch }
        requires present { BytesPresent (pipe_seen self.old) stretch.region stretch.start
            (kept_of stretch) }
        ensures put { PutsBack (pipe_seen self.old)
            (pipe_seen self.new) stretch.entry.region stretch.entry.start
            (kept_of stretch.entry) }
        ensures size { length self.new.slots ≡ length self.old.slots }
    {
        match stretch.region {
            Region::Pipe(_) => put_over(&mut self.slots, &stretch),
            Region::Memory | Region::File(_) | Region::Durable(_) => {}
        }
    }

    /// Sets the value of one of its places.
    pub(crate) fn set(&mut self, place: Place, value: Value)
        requires { CanPut (pipe_seen self.old) place value }
        ensures put { PutsIn (pipe_seen self.old) (pipe_seen self.new) place value }
        ensures size { length self.new.slots ≡ length self.old.slots }
    {
        match (place, value) {
            (Place::PipeByte(_, i), Value::Byte(byte)) => self.slots.set(i as usize, byte),
            (Place::PutCount(_), Value::Number(n)) => self.put = n,
            (Place::TakenCount(_), Value::Number(n)) => self.taken = n,
            // No other place can be set, so any is left alone.
            _ => {}
        }
    }
}
