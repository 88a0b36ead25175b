//! The lines about a script's file.

use crate::checking::MOST_BYTES;
use std::alloc::{AllocError, Global};

/// Returns the line about a file that can't be read.
pub fn unread_line(alloc: Global, name: &str) -> Result<String, AllocError> {
    format!(in alloc; "{name}: can't be read\n")
}

/// Returns the line about a file that is longer than a script may be, with its number of bytes if
/// that is known.
pub fn long_line(alloc: Global, name: &str, bytes: Option<u64>) -> Result<String, AllocError> {
    match bytes {
        Some(bytes) => format!(in alloc;
            "{name}: {bytes} bytes, but a script has at most {MOST_BYTES}\n"
        ),
        None => format!(in alloc;
            "{name}: more than {MOST_BYTES} bytes, but a script has at most {MOST_BYTES}\n"
        ),
    }
}
