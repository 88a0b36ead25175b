//! Sentences about entries that name an opcode or a flag where a number is required.

use crate::document::{Wording, shown};
use sentences::{Unmodelled, is_modelled, opcode_of_name};
use serde_json::Value;
use std::alloc::Global;

/// The keys of an entry.
const KEYS: [&str; 9] = [
    "op", "flags", "ioprio", "fd", "off", "addr", "len", "opflags", "ud",
];

/// The flags of an entry, without the prefix IOSQE_ (io_uring_enter(2)).
const FLAGS: [(&str, u8); 7] = [
    ("FIXED_FILE", 1),
    ("IO_DRAIN", 2),
    ("IO_LINK", 4),
    ("IO_HARDLINK", 8),
    ("ASYNC", 16),
    ("BUFFER_SELECT", 32),
    ("CQE_SKIP_SUCCESS", 64),
];

fn is_whole(value: &Value) -> bool {
    value.as_u64().is_some() || value.as_i64().is_some()
}

/// Returns the first key of an entry whose value isn't a whole number, and that value.
pub(crate) fn odd_member(entry: &Value) -> Option<(&'static str, &Value)> {
    for key in KEYS {
        match entry.get(key) {
            Some(value) if !is_whole(value) => return Some((key, value)),
            _ => {}
        }
    }
    None
}

// Returns the flag with a name, in upper or lower case, with or without its prefix.
fn flag_of_name(name: &str) -> Option<u8> {
    let upper = name.strip_prefix("IOSQE_").unwrap_or(name);
    let bare = upper.strip_prefix("iosqe_").unwrap_or(upper);
    let mut flags = FLAGS.iter();
    let (_, flag) = flags.find(|(known, _)| known.eq_ignore_ascii_case(bare))?;
    Some(*flag)
}

// Returns the flags whose names are joined by `|`.
fn flags_of_names(names: &str) -> Option<u8> {
    let mut flags = 0;
    for name in names.split('|') {
        flags |= flag_of_name(name.trim())?;
    }
    Some(flags)
}

// Returns the number of the opcode, or of the flags, that a value names.
fn number_of(key: &str, value: &Value) -> Option<u8> {
    let names = value.as_str()?;
    match key {
        "op" => opcode_of_name(names),
        "flags" => flags_of_names(names),
        _ => None,
    }
}

/// Returns the sentence about a value that isn't a whole number. If the value is a name, the
/// sentence gives the number to write.
pub(crate) fn odd_value(alloc: Global, key: &str, value: &Value) -> Wording {
    let shown = shown(alloc, value)?;
    match number_of(key, value) {
        Some(opcode) if key == "op" && !is_modelled(opcode) => {
            let unmodelled = Unmodelled(opcode);
            format!(in alloc;
                "\"{key}\":{shown}, but {key} is a number: write {opcode}; {unmodelled}: it completes with EINVAL"
            )
        }
        Some(number) => {
            format!(in alloc; "\"{key}\":{shown}, but {key} is a number: write {number}")
        }
        None => format!(in alloc; "\"{key}\":{shown}, but {key} is a whole number"),
    }
}
