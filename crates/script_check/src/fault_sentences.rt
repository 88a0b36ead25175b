//! Sentences about the faults of a script: the value found, and what is allowed.

use crate::document::{Wording, but, shown, value_at};
use crate::entry_names::{odd_member, odd_value};
use crate::ranges::range;
use script::items::{is_entry_key, is_object_key, is_script_key};
use script::{Key, Path, ScriptFault};
use serde_json::Value;
use std::alloc::{AllocError, Global};

const INSTRUCTION: &str =
    "an instruction is [\"put\", slot, entry], [\"push\", slot], [\"store\", address, \"hex\"], [\"enter\", to_submit, min_complete, flags], [\"reap\"] or [\"close\", fd]";

const EVENT: &str =
    "an event is [\"step\", thread], [\"take\", n], [\"sleep\"], [\"issue\", row], [\"finish\", row], [\"finish\", row, \"short\", bytes], [\"finish\", row, \"eio\"], [\"expire\", row] or [\"tick\", nanoseconds]";

const OBJECT: &str =
    "an object is {\"name\": N, \"file\": \"hex\"}, {\"name\": N, \"pipe\": capacity} or {\"name\": N, \"eventfd\": number}";

const PIECE: &str = "a piece of memory is [address, \"hex\"], with two hex digits per byte";

const DESCRIPTOR: &str =
    "a descriptor is a string: an object's name, for a pipe followed by :r or :w";

// Returns the form of an instruction, by its first word.
fn instruction_of_word(word: &str) -> &'static str {
    match word {
        "put" => {
            "a put is [\"put\", slot, entry], where an entry is an object of whole numbers, or 128 hex digits"
        }
        "push" => "a push is [\"push\", slot]",
        "store" => "a store is [\"store\", address, \"hex\"], with two hex digits per byte",
        "enter" => "an enter is [\"enter\", to_submit, min_complete, flags]",
        "reap" => "a reap is [\"reap\"]",
        "close" => "a close is [\"close\", fd]",
        _ => INSTRUCTION,
    }
}

// Returns the form of an event, by its first word.
fn event_of_word(word: &str) -> &'static str {
    match word {
        "step" => "a step is [\"step\", thread]",
        "take" => "a take is [\"take\", n]",
        "sleep" => "a sleep is [\"sleep\"]",
        "issue" => "an issue is [\"issue\", row]",
        "finish" => {
            "a finish is [\"finish\", row], [\"finish\", row, \"short\", bytes] or [\"finish\", row, \"eio\"]"
        }
        "expire" => "an expire is [\"expire\", row]",
        "tick" => "a tick is [\"tick\", nanoseconds]",
        _ => EVENT,
    }
}

/// Returns the word with which an instruction or an event begins.
pub(crate) fn word_of(value: &Value) -> &str {
    value.get(0).and_then(|first| first.as_str()).unwrap_or("")
}

/// Returns the form of a key's value.
pub(crate) fn form_of_key(key: Key) -> &'static str {
    match key {
        Key::Document => "a script is an object",
        Key::Entries => "it must be a whole number from 1 to 4096",
        Key::Cq => "it must be a whole number from 1 to 8192",
        Key::Sqpoll | Key::SubmitAll => "it must be true or false",
        Key::Base => "it must be a whole number from 0 to 4294967295",
        Key::Memory => "it must be a list of pieces, [address, \"hex\"]",
        Key::Objects => "it must be a list of objects",
        Key::Fds => "it must be a list of names",
        Key::Threads => "it must be a list of threads, each a list of instructions",
        Key::Schedule => "it must be a list of events",
    }
}

// Returns the form of an item of the list at a key.
fn form_of_item(key: Key) -> &'static str {
    match key {
        Key::Memory => PIECE,
        Key::Objects => OBJECT,
        Key::Fds => DESCRIPTOR,
        Key::Threads => "a thread is a list of instructions",
        other => form_of_key(other),
    }
}

fn form_of(path: Path, value: &Value) -> &'static str {
    match (path.key, path.item, path.inner) {
        (_, _, Some(_)) => instruction_of_word(word_of(value)),
        (Key::Schedule, Some(_), None) => event_of_word(word_of(value)),
        (key, Some(_), None) => form_of_item(key),
        (key, None, None) => form_of_key(key),
    }
}

// Returns the first key of an object that isn't known.
fn odd_key<F: Fn(&str) -> bool>(value: &Value, is_known: F) -> Option<&str>
    requires { F.IsAlwaysCallable is_known }
{
    for key in value.as_object()?.keys() {
        if !is_known(key.as_str()) {
            return Some(key.as_str());
        }
    }
    None
}

// Returns the entry of a put.
fn entry_of(instruction: &Value) -> Option<&Value> {
    let entry = instruction.get(2)?;
    Some(entry).filter(|_| word_of(instruction) == "put")
}

// Returns the first unknown key of an item.
fn odd_key_at(path: Path, value: &Value) -> Option<&str> {
    match (path.key, path.item, path.inner) {
        (Key::Threads, _, Some(_)) => odd_key(entry_of(value)?, |key: &str| is_entry_key(key)),
        (Key::Objects, Some(_), None) => odd_key(value, |key: &str| is_object_key(key)),
        _ => None,
    }
}

/// Returns whether a script has no such key.
pub(crate) fn is_unknown(key: &Value) -> bool {
    matches!(key.as_str(), Some(word) if !is_script_key(word))
}

/// Returns the sentence about an unknown key of a script.
pub(crate) fn unknown_key(alloc: Global, key: &Value) -> Wording {
    let key = shown(alloc, key)?;
    format!(in alloc;
        "{key} is not a key of a script: its keys are entries, cq, sqpoll, submit_all, base, memory, objects, fds, threads and schedule"
    )
}

// Returns the sentence about an unknown key of an entry, or of an object.
fn unknown_inner_key(alloc: Global, path: Path, key: &str) -> Wording {
    let key = shown(alloc, &Value::String(String::from_str(alloc, key)?))?;
    match path.key {
        Key::Threads => format!(in alloc;
            "{key} is not a key of an entry: its keys are op, flags, ioprio, fd, off, addr, len, opflags and ud"
        ),
        _ => format!(in alloc;
            "{key} is not a key of an object: its keys are name, and file, pipe or eventfd"
        ),
    }
}

// Returns the first value of an entry that isn't a whole number, and its key.
fn odd_member_at(path: Path, value: &Value) -> Option<(&'static str, &Value)> {
    match (path.key, path.inner) {
        (Key::Threads, Some(_)) => odd_member(entry_of(value)?),
        _ => None,
    }
}

fn shape(alloc: Global, path: Path, value: Option<&Value>) -> Wording {
    let Some(value) = value else {
        let form = form_of_key(path.key);
        return format!(in alloc; "it is missing: {form}");
    };
    if let Some(key) = odd_key_at(path, value) {
        return unknown_inner_key(alloc, path, key);
    }
    if let Some((key, value)) = odd_member_at(path, value) {
        return odd_value(alloc, key, value);
    }
    but(alloc, value, form_of(path, value))
}

// Returns the clause that states the limit at a path.
fn most_of(path: Path) -> &'static str {
    match (path.key, path.item, path.inner) {
        (Key::Memory, _, _) => "a piece of memory has at most 65536",
        (Key::Objects, Some(_), _) => "a file has at most 65536",
        (Key::Objects, None, _) => "a script has at most 32",
        (Key::Fds, _, _) => "a script has at most 64",
        (Key::Threads, _, Some(_)) => "a store has at most 4096",
        (Key::Threads, Some(_), None) => "a thread has at most 4096",
        (Key::Threads, None, None) => "a script has at most 16",
        _ => "a script has at most 65536",
    }
}

// Returns the noun for what exceeds the limit at a path.
fn thing_of(path: Path) -> &'static str {
    match (path.key, path.item, path.inner) {
        (Key::Objects, None, _) => "objects",
        (Key::Fds, _, _) => "descriptors",
        (Key::Threads, Some(_), None) => "instructions",
        (Key::Threads, None, None) => "threads",
        (Key::Schedule, _, _) => "events",
        _ => "bytes",
    }
}

// Returns how many bytes some hex digits encode.
fn bytes_of(text: Option<&Value>) -> Option<usize> {
    Some(text?.as_str()?.len() / 2)
}

// Returns how many things exceed the limit at a path.
fn count_of(path: Path, value: &Value) -> Option<usize> {
    match (path.key, path.item, path.inner) {
        (Key::Memory, Some(_), _) => bytes_of(value.get(1)),
        (Key::Objects, Some(_), _) => bytes_of(value.get("file")),
        (Key::Threads, _, Some(_)) => bytes_of(value.get(2)),
        _ => Some(value.as_array()?.len()),
    }
}

fn limit(alloc: Global, path: Path, value: Option<&Value>) -> Wording {
    let count = value.map_or(0, |value| count_of(path, value).unwrap_or(0));
    let things = thing_of(path);
    let most = most_of(path);
    format!(in alloc; "{count} {things}, but {most}")
}

/// Returns the sentence about a fault of a script.
pub(crate) fn sentence(alloc: Global, document: &Value, fault: ScriptFault) -> Wording {
    match fault {
        ScriptFault::Shape(path) => shape(alloc, path, value_at(document, path)),
        ScriptFault::Range(path) => range(alloc, document, path),
        ScriptFault::Limit(path) => limit(alloc, path, value_at(document, path)),
        ScriptFault::NotJson => String::from_str(alloc, "it is not JSON"),
        ScriptFault::Memory => Err(AllocError),
    }
}
