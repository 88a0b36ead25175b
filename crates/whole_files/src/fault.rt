//! Why a file couldn't be read or written.
ghost use Rattle.std.specs.Prelude.{◌≡◌};
ghost use Rattle.std.specs.IoError.{error_kind};
ghost use Rattle.whole_files.specs.Faults.{fault_as};

use std::io;
use std::io::ErrorKind;

/// Why a file couldn't be read or written.
#[derive(Clone, Copy)]
pub enum FileFault {
    /// An allocation failed.
    Memory,
    /// Any other I/O error.
    File,
}

/// Returns the fault that an I/O error is reported as.
pub fn fault_of(error: &io::Error) -> FileFault
    ensures { result ≡ fault_as (error_kind error.now) }
{
    match error.kind() {
        ErrorKind::OutOfMemory => FileFault::Memory,
        _ => FileFault::File,
    }
}
