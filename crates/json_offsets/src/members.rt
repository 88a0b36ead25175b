//! Finds the members of an object, and the items of a list.
ghost use Rattle.std.specs.Prelude.{◌≤◌, ◌<◌, length, IfSome};

use crate::walk::{Begins, Walk, string_length};
use serde_json::Value;
use std::alloc::{AllocError, Global};

/// Returns the offset at which the text's value begins, after white space.
pub fn document_at(text: &[u8]) -> usize {
    for (at, byte) in text.iter().enumerate() {
        if !byte.is_ascii_whitespace() {
            return at;
        }
    }
    0
}

/// Returns the offset of an item, given the offset of its list.
pub fn item_at(text: &[u8], list: usize, number: u32) -> Option<usize> {
    let mut walk = Walk::new();
    let mut left = number;
    for at in list.saturating_add(1)..text.len() {
        match walk.read(text[at]) {
            Begins::Nothing => {}
            Begins::Part => {
                if left == 0 {
                    return Some(at);
                }
                left -= 1;
            }
            Begins::End => return None,
        }
    }
    None
}

/// Returns the offset after a list or an object, given the offset at which it begins.
pub fn end_of(text: &[u8], begin: usize) -> Option<usize>
    ensures { IfSome result (λ end. (begin < end) × (end ≤ length text.now)) }
{
    let mut walk = Walk::new();
    for at in begin.saturating_add(1)..text.len() {
        if let Begins::End = walk.read(text[at]) {
            return Some(at + 1);
        }
    }
    None
}

// Returns the key that begins at an offset, or null if there is no valid string.
fn key_at(alloc: Global, text: &[u8], at: usize) -> Result<Value, AllocError> {
    let rest = &text[at.min(text.len())..];
    match Value::from_slice(alloc, &rest[..string_length(rest)]) {
        Ok(key) => Ok(key),
        Err(e) => {
            if e.is_memory() {
                return Err(AllocError);
            }
            Ok(Value::Null)
        }
    }
}

/// A member of the document, with the offsets at which its key and its value begin.
#[derive(Drop)]
pub struct Member {
    pub key: Value,
    pub at: usize,
    pub value: usize,
}

impl Member {
    /// Returns whether the member has this key.
    pub fn has(&self, word: &str) -> bool {
        match self.key.as_str() {
            Some(key) => key == word,
            None => false,
        }
    }
}

/// Returns the members of the document, in order.
pub fn members_of(alloc: Global, text: &[u8]) -> Result<Vec<Member>, AllocError> {
    let mut members: Vec<Member> = Vec::new(alloc);
    let mut walk = Walk::new();
    let mut is_value_next = false;
    for at in document_at(text).saturating_add(1)..text.len() {
        match walk.read(text[at]) {
            Begins::Nothing => {}
            Begins::Part => {
                if is_value_next {
                    set_value(&mut members, at);
                } else {
                    let key = key_at(alloc, text, at)?;
                    members.push(Member { key, at, value: at })?;
                }
                is_value_next = !is_value_next;
            }
            Begins::End => return Ok(members),
        }
    }
    Ok(members)
}

// Sets the offset of the last member's value.
fn set_value(members: &mut Vec<Member>, at: usize) {
    if let Some(member) = members.last_mut() {
        member.value = at;
    }
}

/// Returns the last member with a key. Where a key is repeated, its last value counts.
pub fn last_member<'a>(members: &'a [Member], word: &str) -> Option<&'a Member> {
    let mut found = None;
    for member in members {
        if member.has(word) {
            found = Some(member);
        }
    }
    found
}
