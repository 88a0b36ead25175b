//! Standard output of the subcommands that report on a run or a script.

use debug_server::{Fault, RunFault, ServeFault};
use std::alloc::AllocError;
use std::io;
use std::io::{ErrorKind, Write};
use whole_files::write_out;

/// Standard output, whose reader may end before the report does (`uringwalk log RUN | head`). A
/// write to a pipe without a reader fails with EPIPE (pipe(7)); that write and all later ones are
/// discarded, so that the report ends as it would have.
#[derive(Drop)]
pub struct Output<'a, R> {
    to: &'a R,
    has_reader: bool,
}

impl<'a, R: Print> Output<'a, R> {
    pub fn new(to: &'a R) -> Output<'a, R> {
        Output {
            to,
            has_reader: true,
        }
    }

    /// Returns whether no write has failed with EPIPE.
    pub fn has_reader(&self) -> bool {
        self.has_reader
    }
}

impl<R: Print> Write for Output<'_, R> {
    fn write(&mut self, buf: &[u8]) -> io::Result<usize> {
        if !self.has_reader {
            return Ok(buf.len());
        }
        match self.to.write_some(buf) {
            Ok(count) => Ok(count),
            Err(error) if error.kind() == ErrorKind::BrokenPipe => {
                self.has_reader = false;
                Ok(buf.len())
            }
            Err(error) => Err(error),
        }
    }

    fn flush(&mut self) -> io::Result<()> {
        Ok(())
    }
}

/// Writes a text, unless an allocation failed as it was made.
pub fn write_text<R: Print>(
    output: &mut Output<'_, R>,
    text: Result<String, AllocError>,
) -> Result<(), Fault> {
    let Ok(text) = text else {
        return Err(Fault::Run(RunFault::Memory));
    };
    match write_out(output, text.as_str().as_bytes()) {
        Ok(()) => Ok(()),
        Err(_) => Err(Fault::Run(RunFault::Serve(ServeFault::Write))),
    }
}
