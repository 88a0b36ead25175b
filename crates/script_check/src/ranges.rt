//! Sentences about numbers out of their range, and about unknown, invalid or repeated names.

use crate::document::{Wording, but, shown, value_at};
use crate::fault_sentences::{form_of_key, word_of};
use scenario::{is_name, ring_size};
use script::{Key, Path};
use sentences::Counted;
use serde_json::Value;
use std::alloc::Global;

/// The largest size of a submission ring.
const MOST_ENTRIES: u32 = 4096;

/// The range of an entry's descriptor. A negative number names no file.
const DESCRIPTORS: &str = "-2147483648 to 2147483647";

/// The largest counter of an eventfd (eventfd(2)).
const LARGEST_COUNTER: u64 = 18446744073709551614;

/// What bytes of memory need.
const WITHIN_MEMORY: &str = "its bytes must be within addresses 0 to 65535";

/// What a descriptor needs.
const NO_SUCH_OBJECT: &str =
    "there is no such object or end: write the name of a file or an eventfd, and p:r or p:w for an end of a pipe p";

/// The numbers of an object: the key, the least and the largest number, and what it is.
const OBJECT_KEYS: [(&str, u64, u64, &str); 2] = [
    ("pipe", 1, 65536, "a pipe's capacity"),
    ("eventfd", 0, LARGEST_COUNTER, "an eventfd's counter"),
];

/// The keys of an entry, each with its largest number. `fd` is not among them: it is signed.
const ENTRY_KEYS: [(&str, u64); 8] = [
    ("op", 255),
    ("flags", 255),
    ("ioprio", 65535),
    ("off", u64::MAX),
    ("addr", u64::MAX),
    ("len", 4294967295),
    ("opflags", 4294967295),
    ("ud", u64::MAX),
];

// Returns a value if it is a number from `low` to `high`.
fn number_within(value: Option<&Value>, low: u64, high: u64) -> Option<u64> {
    value?
        .as_u64()
        .filter(|number| low <= *number && *number <= high)
}

// Returns the number of entries of the submission ring, if it is in its range.
fn entries_of(document: &Value) -> Option<u32> {
    let entries = number_within(document.get("entries"), 1, 4096)?;
    u32::try_from(entries).ok()
}

fn completion_ring(alloc: Global, document: &Value, cq: &Value) -> Wording {
    match (number_within(Some(cq), 1, 8192), entries_of(document)) {
        (Some(_), Some(entries)) => {
            let value_text = shown(alloc, cq)?;
            let size = ring_size(entries);
            format!(in alloc;
                "{value_text}, but the completion ring can't be smaller than the submission ring, whose size is {size} (entries {entries})"
            )
        }
        _ => but(alloc, cq, form_of_key(Key::Cq)),
    }
}

// Returns the sentence about an object's name, which is missing, invalid or repeated.
fn name(alloc: Global, object: &Value) -> Wording {
    let Some(name) = object.get("name") else {
        return String::from_str(alloc, "it has no name");
    };
    let value_text = shown(alloc, name)?;
    if is_name(name.as_str().unwrap_or("").as_bytes()) {
        format!(in alloc; "name {value_text}, but an earlier object has that name")
    } else {
        format!(in alloc;
            "name {value_text}, but a name is 1 to 16 characters of a to z, 0 to 9 and _"
        )
    }
}

// Returns the sentence about an object's capacity, counter or name.
fn object(alloc: Global, object: &Value) -> Wording {
    for (key, least, most, what) in OBJECT_KEYS {
        if let Some(number) = object.get(key) {
            if number_within(Some(number), least, most).is_none() {
                let value_text = shown(alloc, number)?;
                return format!(in alloc; "{key} {value_text}, but {what} is {least} to {most}");
            }
        }
    }
    name(alloc, object)
}

// Returns the sentence about the first number of an entry that is out of its range.
fn entry(alloc: Global, entry: &Value) -> Wording {
    for (key, most) in ENTRY_KEYS {
        if let Some(number) = entry.get(key) {
            if number_within(Some(number), 0, most).is_none() {
                let value_text = shown(alloc, number)?;
                return format!(in alloc; "{key} {value_text}, but an entry's {key} is 0 to {most}");
            }
        }
    }
    match entry.get("fd") {
        Some(fd) => {
            let value_text = shown(alloc, fd)?;
            format!(in alloc; "fd {value_text}, but an entry's fd is {DESCRIPTORS}")
        }
        None => String::from_str(alloc, "a number of the entry is out of its range"),
    }
}

// Returns the sentence about a put's slot, or about its entry.
fn put(alloc: Global, document: &Value, slot: &Value, written: &Value) -> Wording {
    let entries = entries_of(document);
    let size = ring_size(entries.unwrap_or(MOST_ENTRIES));
    if slot.as_u64().unwrap_or(u64::MAX) < u64::from(size) {
        return entry(alloc, written);
    }
    let value_text = shown(alloc, slot)?;
    let slots = Counted::slots(u64::from(size));
    match entries {
        Some(entries) => format!(in alloc;
            "slot {value_text}, but the ring has {slots} (entries {entries})"
        ),
        None => format!(in alloc; "slot {value_text}, but a ring has at most {slots}"),
    }
}

// Returns the ranges of the numbers in an instruction or an event, by its first word.
fn range_of_word(word: &str) -> &'static str {
    match word {
        "store" => WITHIN_MEMORY,
        "close" => "a descriptor is -2147483648 to 2147483647",
        "tick" => "nanoseconds are 0 to 18446744073709551615",
        "finish" => "a row is 0 to 4294967295, and a short transfer moves 1 to 4294967295 bytes",
        _ => "its numbers are 0 to 4294967295",
    }
}

// Returns the sentence about an instruction or an event.
fn words(alloc: Global, document: &Value, value: &Value) -> Wording {
    let word = word_of(value);
    if word == "put" {
        if let (Some(slot), Some(written)) = (value.get(1), value.get(2)) {
            return put(alloc, document, slot, written);
        }
    }
    but(alloc, value, range_of_word(word))
}

/// Returns the sentence about the value at a path, which is out of its range.
pub(crate) fn range(alloc: Global, document: &Value, path: Path) -> Wording {
    let Some(value) = value_at(document, path) else {
        return String::from_str(alloc, "it is missing");
    };
    match path.key {
        Key::Cq => completion_ring(alloc, document, value),
        Key::Memory => but(alloc, value, WITHIN_MEMORY),
        Key::Objects => object(alloc, value),
        Key::Fds => but(alloc, value, NO_SUCH_OBJECT),
        Key::Threads | Key::Schedule => words(alloc, document, value),
        key => but(alloc, value, form_of_key(key)),
    }
}
