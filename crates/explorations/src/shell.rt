//! Paths as words of a shell.

use std::alloc::{AllocError, Global};

// Returns whether a shell takes a character as it is.
fn is_plain(character: char) -> bool {
    character.is_ascii_alphanumeric()
        || matches!(
            character,
            '_' | '-' | '.' | '/' | ',' | ':' | '@' | '%' | '+' | '='
        )
}

/// Returns a path as one word: in single quotes where a shell needs them, and a quote in it is
/// outside of them, after a backslash. A path that begins with a hyphen gets `./`, so that it is
/// no option and not standard input.
pub(crate) fn word_of(alloc: Global, path: &str) -> Result<String, AllocError> {
    let folder = if path.starts_with('-') { "./" } else { "" };
    if path.chars().all(is_plain) {
        return format!(in alloc; "{folder}{path}");
    }
    let quoted = path.replace(alloc, '\'', "'\\''")?;
    format!(in alloc; "'{folder}{quoted}'")
}
