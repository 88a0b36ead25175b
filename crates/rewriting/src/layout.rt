//! Lays out a schedule like the text that contains it.

use crate::place::Place;
use scenario::Event;
use script::EventText;
use std::alloc::{AllocError, Global};

/// The most bytes of an indentation that the layout repeats.
const MOST_INDENTATION: usize = 32;

/// How the items of a schedule are separated.
#[derive(Clone, Copy)]
pub(crate) struct Layout<'a> {
    /// Whether a space follows each comma.
    is_spaced: bool,
    /// What ends a line. Empty if the whole schedule is on one line.
    line_end: &'a [u8],
    /// The white space before the schedule's key.
    indentation: &'a [u8],
}

impl<'a> Layout<'a> {
    /// Returns the layout for a value at a place of a text. If the text has one line, the value
    /// gets no other.
    pub fn new(text: &'a [u8], place: Place<'a>) -> Layout<'a> {
        Layout {
            is_spaced: !place.before.ends_with(b":"),
            line_end: line_end_of(text.trim_ascii()),
            indentation: indentation_of(place.before_key),
        }
    }

    // Writes what precedes an event: a comma, unless it is the first one, and white space.
    fn put_gap(self, out: &mut Vec<u8>, is_first: bool) -> Result<(), AllocError> {
        if !is_first {
            out.push(b',')?;
        }
        if self.line_end.is_empty() {
            if self.is_spaced && !is_first {
                out.push(b' ')?;
            }
            return Ok(());
        }
        self.put_line_end(out)?;
        out.extend_from_slice(self.step())
    }

    // Writes a line end and the key's indentation, or nothing if there is one line.
    fn put_line_end(self, out: &mut Vec<u8>) -> Result<(), AllocError> {
        if self.line_end.is_empty() {
            return Ok(());
        }
        out.extend_from_slice(self.line_end)?;
        out.extend_from_slice(self.indentation)
    }

    // Returns the white space before an event, after the key's indentation. The key is at depth 1,
    // so that its indentation is the text's step.
    fn step(self) -> &'a [u8] {
        if self.indentation.is_empty() {
            b"  "
        } else {
            self.indentation
        }
    }

    // Writes an event as a list of its word and its numbers.
    fn put_event(self, alloc: Global, out: &mut Vec<u8>, event: Event) -> Result<(), AllocError> {
        let text = format!(in alloc; "{}", EventText(event))?;
        out.push(b'[')?;
        for (index, word) in text.as_str().split_whitespace().enumerate() {
            if index > 0 {
                out.extend_from_slice(if self.is_spaced { b", " } else { b"," })?;
            }
            put_word(out, word.as_bytes())?;
        }
        out.push(b']')?;
        Ok(())
    }
}

// Returns how the first line ends, or nothing if there is one line.
fn line_end_of(text: &[u8]) -> &'static [u8] {
    let Some(at) = text.iter().position(|byte| *byte == b'\n') else {
        return b"";
    };
    if text[..at].ends_with(b"\r") {
        b"\r\n"
    } else {
        b"\n"
    }
}

// Returns the white space at the start of the last line.
fn indentation_of(text: &[u8]) -> &[u8] {
    let line = match text.iter().rposition(|byte| *byte == b'\n') {
        Some(at) => &text[at + 1..],
        None => text,
    };
    let is_text = |byte: &u8| !matches!(*byte, b' ' | b'\t');
    let length = line.iter().position(is_text).unwrap_or(line.len());
    &line[..length.min(MOST_INDENTATION)]
}

// Writes a number, or a word in quotes.
fn put_word(out: &mut Vec<u8>, word: &[u8]) -> Result<(), AllocError> {
    if let [b'0'..=b'9', ..] = word {
        return out.extend_from_slice(word);
    }
    out.push(b'"')?;
    out.extend_from_slice(word)?;
    out.push(b'"')?;
    Ok(())
}

/// Returns the events as the value of a script's schedule.
pub(crate) fn schedule_text(
    alloc: Global,
    layout: Layout<'_>,
    events: &[Event],
) -> Result<Vec<u8>, AllocError> {
    let mut out = Vec::new(alloc);
    out.push(b'[')?;
    for (index, event) in events.iter().enumerate() {
        layout.put_gap(&mut out, index == 0)?;
        layout.put_event(alloc, &mut out, *event)?;
    }
    if !events.is_empty() {
        layout.put_line_end(&mut out)?;
    }
    out.push(b']')?;
    Ok(out)
}
