//! A reader and a writer that move one byte per call, and that can fail at a given call.
ghost use Rattle.std.specs.Prelude.{◌≡◌, IfOk};

use std::alloc::Global;
use std::io;
use std::io::{ErrorKind, Read, Write};

/// How a call fails.
#[derive(Clone, Copy)]
pub enum Failure {
    Error(ErrorKind),
    /// The call returns that it moved no bytes.
    Nothing,
}

/// When a device fails: at the call with this number, counted from 1, or never if it is 0.
#[derive(Clone, Copy)]
pub struct Plan {
    pub call: usize,
    pub failure: Failure,
}

/// The plan of a device that never fails.
pub const SOUND: Plan = Plan {
    call: 0,
    failure: Failure::Nothing,
};

/// A reader that returns one byte per call.
#[derive(Drop)]
pub struct SlowReader<'a> {
    rest: &'a [u8],
    pub calls: usize,
    plan: Plan,
}

/// A writer that accepts one byte per call.
#[derive(Drop)]
pub struct SlowWriter {
    pub written: Vec<u8>,
    pub calls: usize,
    plan: Plan,
}

impl<'a> SlowReader<'a> {
    pub fn new(bytes: &'a [u8], plan: Plan) -> SlowReader<'a> {
        SlowReader {
            rest: bytes,
            calls: 0,
            plan,
        }
    }
}

impl SlowWriter {
    pub fn new(alloc: Global, plan: Plan) -> SlowWriter {
        SlowWriter {
            written: Vec::new(alloc),
            calls: 0,
            plan,
        }
    }

    // Counts a call, and returns its failure if the plan has one.
    fn failure(&mut self) -> Option<Failure> {
        self.calls = self.calls.saturating_add(1);
        if self.calls == self.plan.call {
            Some(self.plan.failure)
        } else {
            None
        }
    }
}

impl Read for SlowReader<'_> {
    fn read(&mut self, buf: &mut [u8]) -> io::Result<usize> {
        self.calls = self.calls.saturating_add(1);
        if self.calls == self.plan.call {
            return failed(self.plan.failure);
        }
        let count = buf.len().min(self.rest.len()).min(1);
        buf[..count].copy_from_slice(&self.rest[..count]);
        self.rest = &self.rest[count..];
        Ok(count)
    }
}

impl Write for SlowWriter {
    fn write(&mut self, buf: &[u8]) -> io::Result<usize> {
        if let Some(failure) = self.failure() {
            return failed(failure);
        }
        let count = buf.len().min(1);
        self.written.extend_from_slice(&buf[..count])?;
        Ok(count)
    }

    fn flush(&mut self) -> io::Result<()> {
        match self.failure() {
            Some(Failure::Error(kind)) => Err(io::Error::from(kind)),
            _ => Ok(()),
        }
    }
}

fn failed(failure: Failure) -> io::Result<usize>
    ensures { IfOk result (λ n. n ≡ 0) }
{
    match failure {
        Failure::Error(kind) => Err(io::Error::from(kind)),
        Failure::Nothing => Ok(0),
    }
}
