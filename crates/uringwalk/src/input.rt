//! The input of the subcommands that report on a run or a script.

use crate::file_fault;
use debug_server::{Fault, RunFault, ServeFault};
use std::io;
use std::io::{ErrorKind, Read};
use std::rt::Files;
use whole_files::read_file;

/// The path that names standard input.
const STANDARD_INPUT: &str = "-";

/// Returns whether a path names standard input.
pub fn is_standard_input(path: &str) -> bool {
    path == STANDARD_INPUT
}

// Reads at most `most` bytes of standard input.
fn read_stream(rt: &(impl Input + AllocGlobal), most: u64) -> io::Result<Vec<u8>> {
    let mut bytes = Vec::new(rt.alloc());
    rt.reader().take(most).read_to_end(&mut bytes)?;
    Ok(bytes)
}

/// Reads at most `most` bytes of a file, or of standard input if the path is `-`.
pub fn read_input(
    rt: &(impl Files + Input + AllocGlobal),
    path: &str,
    most: u64,
) -> Result<Vec<u8>, Fault> {
    if !is_standard_input(path) {
        return read_file(rt, path, most).map_err(file_fault);
    }
    match read_stream(rt, most) {
        Ok(bytes) => Ok(bytes),
        Err(error) if error.kind() == ErrorKind::OutOfMemory => Err(Fault::Run(RunFault::Memory)),
        Err(_) => Err(Fault::Run(RunFault::Serve(ServeFault::Read))),
    }
}
