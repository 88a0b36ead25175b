//! Reads and writes whole files, and writes all of some bytes to a writer.
#![tactic(auto)]

mod fault;
mod writing;

pub use fault::FileFault;
use fault::fault_of;
use std::alloc::Global;
use std::fs::{File, OpenFile};
use std::io::{ErrorKind, Read, Write};
use std::path::PathBuf;
use std::rt::Files;
use std::{fs, io};
pub use writing::{NotWritten, write_out};

/// The number of temporary names that are tried for a new file.
const NAMES: u32 = 100;

// Resolves a path and its symbolic links. Returns `None` if that fails for any reason but memory.
fn real_path(
    rt: &(impl Files + AllocGlobal),
    path: &str,
) -> Result<Option<PathBuf<Global>>, FileFault> {
    match fs::canonicalize(rt, path) {
        Ok(place) => Ok(Some(place)),
        Err(error) if error.kind() == ErrorKind::OutOfMemory => Err(fault_of(&error)),
        Err(_) => Ok(None),
    }
}

/// Whether two paths resolve to the same path of a file that exists (realpath(3)). Two hard links
/// to one file don't: replacing one leaves the other.
pub fn lead_to_one_file(
    rt: &(impl Files + AllocGlobal),
    one: &str,
    other: &str,
) -> Result<bool, FileFault> {
    let one = real_path(rt, one)?;
    let other = real_path(rt, other)?;
    match (&one, &other) {
        (Some(one), Some(other)) => Ok(one.as_path() == other.as_path()),
        _ => Ok(false),
    }
}

fn read_up_to(rt: &(impl Files + AllocGlobal), path: &str, most: u64) -> io::Result<Vec<u8>> {
    let mut bytes = Vec::new(rt.alloc());
    let file = fs::open(rt, path)?;
    file.take(most).read_to_end(&mut bytes)?;
    Ok(bytes)
}

/// Reads at most `most` bytes of a file. The rest isn't read.
pub fn read_file(
    rt: &(impl Files + AllocGlobal),
    path: &str,
    most: u64,
) -> Result<Vec<u8>, FileFault> {
    match read_up_to(rt, path, most) {
        Ok(bytes) => Ok(bytes),
        Err(error) => Err(fault_of(&error)),
    }
}

// Writes bytes to a file, and syncs it (fsync(2)).
fn fill(file: &mut (impl Write + OpenFile), bytes: &[u8]) -> io::Result<()> {
    file.write_all(bytes)?;
    file.sync_all()
}

// Creates a file with these bytes. Returns false if the name is in use.
fn create_free(rt: &(impl Files + AllocGlobal), path: &str, bytes: &[u8]) -> io::Result<bool> {
    let mut file = match File::create_new(rt, path) {
        Ok(file) => file,
        Err(error) if error.kind() == ErrorKind::AlreadyExists => return Ok(false),
        Err(error) => return Err(error),
    };
    match fill(&mut file, bytes) {
        Ok(()) => Ok(true),
        Err(error) => {
            fs::remove_file(rt, path)?;
            Err(error)
        }
    }
}

// Renames a new file to the path (rename(2)). If that fails, the new file is removed.
fn take_place(rt: &(impl Files + AllocGlobal), made: &str, path: &str) -> io::Result<()> {
    match fs::rename(rt, made, path) {
        Ok(()) => Ok(()),
        Err(error) => {
            fs::remove_file(rt, made)?;
            Err(error)
        }
    }
}

// Whether a path, after its symbolic links, leads to something other than a regular file, such as a
// directory, a device or a pipe.
fn is_other(rt: &(impl Files + AllocGlobal), path: &str) -> io::Result<bool> {
    match fs::metadata(rt, path) {
        Ok(found) => Ok(!found.is_file()),
        Err(error) if error.kind() == ErrorKind::NotFound => Ok(false),
        Err(error) => Err(error),
    }
}

fn replace(rt: &(impl Files + AllocGlobal), path: &str, bytes: &[u8]) -> io::Result<()> {
    if is_other(rt, path)? {
        return Err(io::Error::from(ErrorKind::AlreadyExists));
    }
    for number in 0..NAMES {
        let made = format!(in rt.alloc(); "{path}.{number}")?;
        if create_free(rt, made.as_str(), bytes)? {
            return take_place(rt, made.as_str(), path);
        }
    }
    Err(io::Error::from(ErrorKind::AlreadyExists))
}

/// Replaces a file atomically: writes and syncs a temporary file in the same directory, and renames
/// it. After an error, the old file is unchanged, and the temporary file is removed if that is
/// possible. A directory, a device or a pipe is refused, also through a symbolic link. A link to a
/// file, or a dangling link, is replaced. The directory is not fsynced.
pub fn write_file(
    rt: &(impl Files + AllocGlobal),
    path: &str,
    bytes: &[u8],
) -> Result<(), FileFault> {
    match replace(rt, path, bytes) {
        Ok(()) => Ok(()),
        Err(error) => Err(fault_of(&error)),
    }
}
