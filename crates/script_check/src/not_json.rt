//! Explains why a text isn't JSON, for mistakes that are common in scripts written by hand.

use crate::document::Wording;
use crate::locating::{Position, offset_at, position_of};
use json_offsets::string_length;
use serde_json::Error;
use std::alloc::Global;

/// The bytes EF BB BF, with which some editors begin a UTF-8 file.
const BYTE_ORDER_MARK: [u8; 3] = [0xef, 0xbb, 0xbf];

/// The offset at which a mistake begins, and what it is.
type Mistake = (usize, &'static str);

// Returns the end of a word that begins at an offset: letters, digits, signs and points.
fn end_of_word(text: &[u8], offset: usize) -> usize {
    for at in offset..text.len() {
        if !matches!(text[at], b'a'..=b'z' | b'A'..=b'Z' | b'0'..=b'9' | b'+' | b'-' | b'.') {
            return at;
        }
    }
    text.len()
}

// Returns the end of the white space at an offset.
fn end_of_spaces(text: &[u8], offset: usize) -> usize {
    for at in offset..text.len() {
        if !text[at].is_ascii_whitespace() {
            return at;
        }
    }
    text.len()
}

// Returns the offset at which a comment may begin, given where the parser stopped. If a comment
// follows a key, a number or a literal, the parser stops at the start of that.
fn comment_at(text: &[u8], stop: usize) -> usize {
    let Some(rest) = text.get(stop..) else {
        return stop;
    };
    match rest {
        [b'"', ..] => end_of_spaces(text, stop.saturating_add(string_length(rest))),
        _ => end_of_word(text, stop),
    }
}

// Returns whether a comment begins at an offset: `//`, `/*` or `#`.
fn is_comment(text: &[u8], offset: usize) -> bool {
    matches!(
        text.get(offset..),
        Some([b'/', b'/' | b'*', ..] | [b'#', ..])
    )
}

// Returns the offset of the last byte before an offset that isn't white space.
fn last_before(text: &[u8], offset: usize) -> Option<usize> {
    let mut found = None;
    for at in 0..offset.min(text.len()) {
        if !text[at].is_ascii_whitespace() {
            found = Some(at);
        }
    }
    found
}

// Returns the comma directly before the closing bracket at an offset, as a mistake.
fn trailing_comma(text: &[u8], offset: usize) -> Option<Mistake> {
    let reason = match text.get(offset) {
        Some(b']') => "a comma before ] has no item after it",
        Some(b'}') => "a comma before } has no key after it",
        _ => return None,
    };
    let comma = last_before(text, offset)?;
    match text.get(comma) {
        Some(b',') => Some((comma, reason)),
        _ => None,
    }
}

// Returns the mistake in a text, given where the parser stopped, if it is a common one.
fn mistake_in(text: &[u8], stop: usize) -> Option<Mistake> {
    if text.starts_with(&BYTE_ORDER_MARK) {
        let reason = "a byte-order mark is at the start: save the file as UTF-8 without one";
        return Some((0, reason));
    }
    let comment = comment_at(text, stop);
    if is_comment(text, comment) {
        return Some((comment, "comments aren't JSON"));
    }
    trailing_comma(text, stop)
}

/// Returns the line that reports a text that isn't JSON, given the parser's error.
pub(crate) fn no_json(alloc: Global, name: &str, text: &[u8], error: &Error) -> Wording {
    let line = error.line();
    let column = error.column();
    if error.is_eof() {
        return format!(in alloc; "{name}:{line}:{column}: the text ends within its JSON value\n");
    }
    match mistake_in(text, offset_at(text, line, column)) {
        Some((offset, reason)) => {
            let Position { line, column } = position_of(text, offset);
            format!(in alloc; "{name}:{line}:{column}: {reason}\n")
        }
        None => format!(in alloc;
            "{name}:{line}:{column}: not JSON: a wrong character here or directly before it, a number that is too large, or lists and objects that nest more than 127 deep\n"
        ),
    }
}
