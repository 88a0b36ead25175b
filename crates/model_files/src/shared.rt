//! Copies of objects that share their bytes until they are written.
ghost use Rattle.std.specs.Prelude.{◌≡◌, IfOk};
ghost use Rattle.model_files.specs.Shared.{body_of};

use crate::body::Body;
use crate::file::{RegularFile, SharedFile};
use crate::pipe::{PipeBuffer, SharedPipe};
use std::alloc::{AllocError, Global};

/// A copy of an object that shares its bytes.
#[derive(Drop)]
pub enum SharedBody {
    File(SharedFile),
    Pipe(SharedPipe),
    /// The counter of an eventfd.
    EventFd(u64),
}

impl SharedBody {
    /// Returns the object, in the storage of `room` if that has the same kind and size.
    pub(crate) fn restore(&self, alloc: Global, room: Option<Body>) -> Result<Body, AllocError>
        ensures { IfOk result (λ body. body ≡ body_of self.now) }
    {
        Ok(match self {
            SharedBody::File(file) => Body::File(file.restore(alloc, file_in(room))?),
            SharedBody::Pipe(pipe) => Body::Pipe(pipe.restore(alloc, pipe_in(room))?),
            SharedBody::EventFd(counter) => Body::EventFd(*counter),
        })
    }
}

fn file_in(room: Option<Body>) -> Option<RegularFile> {
    match room? {
        Body::File(file) => Some(file),
        Body::Pipe(_pipe) => None,
        Body::EventFd(_counter) => None,
    }
}

fn pipe_in(room: Option<Body>) -> Option<PipeBuffer> {
    match room? {
        Body::Pipe(pipe) => Some(pipe),
        Body::File(_file) => None,
        Body::EventFd(_counter) => None,
    }
}

impl Body {
    /// Returns a copy that shares the bytes. Copies only bytes that were written since the last
    /// shared copy.
    pub(crate) fn share(&mut self, alloc: Global) -> Result<SharedBody, AllocError>
        ensures ok { IfOk result (λ body. body_of body ≡ self.old) }
        ensures same { self.new ≡ self.old }
    {
        match self {
            Body::File(file) => Ok(SharedBody::File(file.share(alloc)?)),
            Body::Pipe(pipe) => Ok(SharedBody::Pipe(pipe.share(alloc)?)),
            Body::EventFd(counter) => Ok(SharedBody::EventFd(*counter)),
        }
    }
}
