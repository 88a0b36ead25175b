//! Which ends of pipes are open, and for which operations objects are ready (pipe(7), poll(2)).
ghost use Rattle.std.specs.Prelude.{◌≡◌, ◌+◌, ◌<◌, ◌≤◌, Some};
ghost use Rattle.places.specs.declared.object.End.TheVariants.{Read, Write};
ghost use Rattle.model_files.specs.Holders.{is_held};
ghost use Rattle.model_files.specs.Ends.{is_end, keeps_end, some_keeps, has_writer, has_reader, bit_if, pipe_mask, counter_mask, body_mask, ready_mask_of};

use crate::body::Body;
use crate::descriptor::DescriptorState;
use crate::held::Held;
use crate::pipe::PipeBuffer;
use crate::world::World;
use entries::{POLLERR, POLLHUP, POLLIN, POLLOUT};
use places::End;

impl World {
    /// Returns whether a pipe has a writer: a descriptor of its write end that is open or held by a
    /// request in flight.
    pub fn has_writer(&self, object: u32, held: &Held) -> bool
        ensures { result ≡ has_writer (is_held held.now) self.now object }
    {
        some_keeps(self.descriptors(), object, End::Write, held)
    }

    /// Returns whether a pipe has a reader, likewise.
    pub fn has_reader(&self, object: u32, held: &Held) -> bool
        ensures { result ≡ has_reader (is_held held.now) self.now object }
    {
        some_keeps(self.descriptors(), object, End::Read, held)
    }

    /// Returns the poll(2) events for which a descriptor's object is ready. The time is linear in
    /// the number of descriptors.
    pub fn ready_mask(&self, fd: u32, held: &Held) -> u32
        ensures mask { result ≡ ready_mask_of (is_held held.now) self.now fd }
        ensures few { result < 32 }
    {
        let Some(descriptor) = self.descriptor(fd) else {
            return 0;
        };
        let object = descriptor.object;
        let (writer, reader) = (self.has_writer(object, held), self.has_reader(object, held));
        match self.body(object) {
            Some(body) => body_mask(body, descriptor.end, writer, reader),
            None => 0,
        }
    }
}

fn body_mask(body: &Body, end: End, writer: bool, reader: bool) -> u32
    ensures mask { result ≡ body_mask end writer reader (Some body.now) }
    ensures few { result < 32 }
{
    match body {
        Body::File(_) => POLLIN | POLLOUT,
        Body::Pipe(pipe) => pipe_mask(pipe, end, writer, reader),
        Body::EventFd(counter) => counter_mask(*counter),
    }
}

fn pipe_mask(pipe: &PipeBuffer, end: End, writer: bool, reader: bool) -> u32
    ensures mask { result ≡ pipe_mask pipe.now end writer reader }
    ensures few { result < 32 }
{
    match end {
        End::Whole => 0,
        End::Read => bit_if(POLLIN, pipe.filled() > 0) + bit_if(POLLHUP, !writer),
        End::Write => {
            bit_if(POLLOUT, pipe.filled() < pipe.capacity()) + bit_if(POLLERR, !reader)
        }
    }
}

fn counter_mask(counter: u64) -> u32
    ensures mask { result ≡ counter_mask counter }
    ensures few { result < 32 }
{
    bit_if(POLLIN, counter > 0) + bit_if(POLLOUT, counter < u64::MAX - 1)
}

fn bit_if(bit: u32, is_set: bool) -> u32
    ensures bit { result ≡ bit_if bit is_set }
    ensures most { result ≤ bit }
{
    if is_set { bit } else { 0 }
}

/// Returns whether some descriptor keeps an end of an object open.
fn some_keeps(descriptors: &[DescriptorState], object: u32, end: End, held: &Held) -> bool
    ensures { result ≡ some_keeps (is_held held.now) object end 3 descriptors.now }
{
    for i in 0..descriptors.len() {
        if keeps_end(&descriptors[i], object, end, held.holds_at(i)) {
            return true;
        }
    }
    false
}

fn keeps_end(descriptor: &DescriptorState, object: u32, end: End, is_held: bool) -> bool
    ensures { result ≡ keeps_end object end is_held descriptor.now }
{
    descriptor.object == object && (is_end(end, descriptor.end) && (descriptor.is_open || is_held))
}

fn is_end(end: End, other: End) -> bool
    ensures { result ≡ is_end end other }
{
    match (end, other) {
        (End::Whole, End::Whole) | (End::Read, End::Read) | (End::Write, End::Write) => true,
        _ => false,
    }
}
