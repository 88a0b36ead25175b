//! Finds the value at a path of a script, and quotes it.

use crate::locating::key_word;
use script::{Key, Path};
use serde_json::Value;
use std::alloc::{AllocError, Global};

/// The most characters of a value that a sentence quotes.
const MOST_CHARACTERS: usize = 60;

/// A sentence or a part of one, unless an allocation fails.
pub(crate) type Wording = Result<String, AllocError>;

/// Returns the value at a path, if there is one.
pub(crate) fn value_at(document: &Value, path: Path) -> Option<&Value> {
    if let Key::Document = path.key {
        return Some(document);
    }
    let value = document.get(key_word(path.key))?;
    let Some(item) = path.item else {
        return Some(value);
    };
    let outer = value.get(item as usize)?;
    match path.inner {
        Some(inner) => outer.get(inner as usize),
        None => Some(outer),
    }
}

/// Returns a text. If it has more than 60 characters, it is cut there and ends in two dots.
pub(crate) fn cut(alloc: Global, text: &str) -> Wording {
    let mut out = String::new(alloc);
    for (i, character) in text.chars().enumerate() {
        if i == MOST_CHARACTERS {
            out.push_str(" ..")?;
            return Ok(out);
        }
        out.push(character)?;
    }
    Ok(out)
}

/// Returns the clause that a value isn't what is needed.
pub(crate) fn but(alloc: Global, value: &Value, needed: &str) -> Wording {
    let found = shown(alloc, value)?;
    format!(in alloc; "{found}, but {needed}")
}

/// Returns a value as JSON in one line, cut after 60 characters.
pub(crate) fn shown(alloc: Global, value: &Value) -> Wording {
    let text = value.to_string(alloc)?;
    cut(alloc, text.as_str())
}
