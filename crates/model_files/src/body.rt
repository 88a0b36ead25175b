//! The contents of an object: a file, a pipe or an eventfd.
ghost use Rattle.std.specs.Prelude.{◌≡◌, IfOk, IsSomeAnd};
ghost use Rattle.places.specs.Masked.{BytesPresent};
ghost use Rattle.places.specs.Stretched.{kept_of, CanCount};
ghost use Rattle.model_files.specs.Objects.{CanPut, PutsIn, PutsBack};
ghost use Rattle.model_files.specs.Pipes.{taken_out, GivesOut};

use crate::file::RegularFile;
use crate::pipe::PipeBuffer;
use crate::stock::Stock;
use places::{At, Place, Region, Stretch, Value};
use std::alloc::{AllocError, Global};

/// The contents of an object.
#[derive(Drop)]
pub enum Body {
    /// A regular file.
    File(RegularFile),
    Pipe(PipeBuffer),
    /// An eventfd: its counter (eventfd(2)).
    EventFd(u64),
}

impl At for Body {
    ghost use Rattle.model_files.specs.Worlds.{body_seen};

    ghost seen = { body_seen };

    fn at(&self, place: Place) -> Option<Value> {
        match self {
            Body::File(file) => file.at(place),
            Body::Pipe(pipe) => pipe.at(place),
            Body::EventFd(counter) => match place {
                Place::EventCount(_) => Some(Value::Number(*counter)),
                _ => None,
            },
        }
    }

    fn bytes_in(&self, region: Region) -> Option<&[u8]> {
        match self {
            Body::File(file) => file.bytes_in(region),
            Body::Pipe(pipe) => pipe.bytes_in(region),
            Body::EventFd(_) => None,
        }
    }
}

impl Body {
    ghost use Rattle.model_files.specs.Worlds.{body_seen, pipe_in, stock_in, StockFits, kind_of_body, on_pipe};

    /// Returns a copy.
    pub fn copy(&self, alloc: Global) -> Result<Body, AllocError>
        ensures { IfOk result (λ body. body ≡ self.now) }
    {
        Ok(match self {
            Body::File(file) => Body::File(file.copy(alloc)?),
            Body::Pipe(pipe) => Body::Pipe(pipe.copy(alloc)?),
            Body::EventFd(counter) => Body::EventFd(*counter),
        })
    }

    /// Returns how much the object holds.
    pub(crate) fn stock(&self) -> Stock
        ensures value { result ≡ stock_in self.now }
        ensures fits { StockFits result }
    {
        match self {
            Body::File(file) => Stock::File(file.len()),
            Body::Pipe(pipe) => Stock::Pipe(pipe.filled(), pipe.capacity()),
            Body::EventFd(counter) => Stock::EventFd(*counter),
        }
    }

    /// Sets the value of one of its places.
    pub(crate) fn set(&mut self, place: Place, value: Value)
        requires { CanPut (body_seen self.old) place value }
        ensures put { PutsIn (body_seen self.old) (body_seen self.new) place value }
        ensures kind { kind_of_body self.new ≡ kind_of_body self.old }
    {
        match self {
            Body::File(file) => file.set(place, value),
            Body::Pipe(pipe) => pipe.set(place, value),
            Body::EventFd(counter) => match (place, value) {
                (Place::EventCount(_), Value::Number(n)) => *counter = n,
                // No other value can be put here, so none is.
                _ => {}
            },
        }
    }

    /// Restores the recorded bytes of a stretch.
    pub(crate) fn put_back(&mut self, stretch: Stretch<'_>)
        requires count { CanCount stretch }
        requires present { BytesPresent (body_seen self.old) stretch.region stretch.start
            (kept_of stretch) }
        ensures put { PutsBack (body_seen self.old)
            (body_seen self.new) stretch.entry.region stretch.entry.start
            (kept_of stretch.entry) }
        ensures kind { kind_of_body self.new ≡ kind_of_body self.old }
    {
        match self {
            Body::File(file) => file.put_back(stretch),
            Body::Pipe(pipe) => pipe.put_back(stretch),
            Body::EventFd(_) => {}
        }
    }

    /// Removes the oldest bytes of a pipe. Another object stays as it is.
    pub(crate) fn take(&mut self, count: u32)
        requires there { IsSomeAnd (pipe_in self.old) (GivesOut count) }
        ensures { self.new ≡ on_pipe (taken_out count) self.old }
    {
        match self {
            Body::Pipe(pipe) => pipe.take(count),
            Body::File(_) | Body::EventFd(_) => {}
        }
    }
}
