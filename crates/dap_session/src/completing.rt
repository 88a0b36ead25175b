//! The request `completions`.

use crate::debuggee::Debuggee;
use crate::members::{Members, object_of};
use dap_answers::{Refusal, Reply};
use dap_messages::CompletionsArguments;
use serde_json::Value;
use std::alloc::{AllocError, Global};

/// The first words of commands.
const VERBS: [&str; 10] = [
    "back", "break", "cont", "goto", "on", "rcont", "show", "unwatch", "watch", "where",
];

/// The first words of places.
const PLACES: [&str; 30] = [
    "array",
    "backlog",
    "bfront",
    "clock",
    "counted",
    "cq.head",
    "cq.tail",
    "cqe",
    "dlen",
    "durable",
    "event",
    "file",
    "got",
    "last",
    "len",
    "mem",
    "open",
    "pc",
    "pipe",
    "poller",
    "pos",
    "put",
    "row",
    "slot",
    "sq.dropped",
    "sq.flags",
    "sq.head",
    "sq.tail",
    "stage",
    "taken",
];

// Returns the number of UTF-16 code units of the character that a byte of UTF-8 begins.
fn units(byte: u8) -> usize {
    if byte < 0x80 {
        1
    } else if byte < 0xc0 {
        0
    } else if byte < 0xf0 {
        1
    } else {
        2
    }
}

// Returns the part of a text before a column. It counts UTF-16 code units, from 1.
fn before(text: &str, column: usize) -> &str {
    let mut left = column.saturating_sub(1);
    for (offset, byte) in text.as_bytes().iter().enumerate() {
        let units = units(*byte);
        if left == 0 && units > 0 {
            return text.get(..offset).unwrap_or(text);
        }
        left = left.saturating_sub(units);
    }
    text
}

// Adds the words that begin with a text.
fn add_words(
    alloc: Global,
    targets: &mut Vec<Value>,
    words: &[&str],
    begun: &str,
) -> Result<(), AllocError> {
    for word in words {
        if word.starts_with(begun) {
            targets.push(target(alloc, *word, begun.len())?)?;
        }
    }
    Ok(())
}

// Returns a word that replaces some bytes before the column.
fn target(alloc: Global, word: &str, length: usize) -> Result<Value, AllocError> {
    let mut members = Members::new(alloc);
    members.text("label", word)?;
    members.number("length", length as u64)?;
    Ok(members.finish())
}

impl Debuggee {
    /// Returns the words that complete the one before the column: first words of commands, and
    /// after them those of places.
    pub(crate) fn completions(&self, arguments: &CompletionsArguments) -> Result<Reply, Refusal> {
        let column = self.base.read_column(arguments.column);
        let text = before(arguments.text.as_str(), column);
        let mut targets = Vec::new(self.alloc);
        match text.rsplit_once(' ') {
            None => add_words(self.alloc, &mut targets, &VERBS, text)?,
            Some((_, begun)) => add_words(self.alloc, &mut targets, &PLACES, begun)?,
        }
        Ok(Reply::of(Some(object_of(self.alloc, "targets", targets)?)))
    }
}
