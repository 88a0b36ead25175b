//! Submission entries in a script: hex digits, or JSON objects.
ghost use Rattle.std.specs.Prelude.{◌≡◌};
ghost use Rattle.serde_json.specs.View.{view};
ghost use Rattle.script.specs.Entries.{entry_numbers, object_form, entry_of_text, entry_form, entry_of_numbers, entry_in_range};

use crate::keys::is_entry_object;
use crate::number::{Whole, byte, half_word, long, signed_word, whole_or_zero, word};
use entries::Sqe;
use serde_json::Value;

/// The numbers of an entry, before their ranges are checked.
#[derive(Clone, Copy)]
pub struct EntryNumbers {
    pub op: Whole,
    pub flags: Whole,
    pub ioprio: Whole,
    pub fd: Whole,
    pub off: Whole,
    pub addr: Whole,
    pub len: Whole,
    pub opflags: Whole,
    pub ud: Whole,
}

/// An entry, before the ranges of its numbers are checked.
#[derive(Clone, Copy)]
pub enum EntryForm {
    /// All 64 bytes, as hex digits.
    Written(Sqe),
    Numbers(EntryNumbers),
}

// Reads the numbers at an entry's keys. A missing one is 0.
fn entry_numbers(value: &Value) -> Option<EntryNumbers>
    ensures { result ≡ entry_numbers (view value.now) }
{
    let op = whole_or_zero(value.get("op"))?;
    let flags = whole_or_zero(value.get("flags"))?;
    let ioprio = whole_or_zero(value.get("ioprio"))?;
    let fd = whole_or_zero(value.get("fd"))?;
    let off = whole_or_zero(value.get("off"))?;
    let addr = whole_or_zero(value.get("addr"))?;
    let len = whole_or_zero(value.get("len"))?;
    let opflags = whole_or_zero(value.get("opflags"))?;
    let ud = whole_or_zero(value.get("ud"))?;
    Some(EntryNumbers {
        op,
        flags,
        ioprio,
        fd,
        off,
        addr,
        len,
        opflags,
        ud,
    })
}

fn object_form(value: &Value) -> Option<EntryForm>
    ensures { result ≡ object_form (view value.now) }
{
    if is_entry_object(value) {
        Some(EntryForm::Numbers(entry_numbers(value)?))
    } else {
        None
    }
}

// Decodes an entry's 64 bytes from 128 hex digits.
fn entry_of_text(text: &str) -> Option<Sqe>
    ensures { result ≡ entry_of_text text.now }
{
    let mut bytes = [0; 64];
    match hex::decode_to_slice(text, &mut bytes) {
        Ok(()) => Some(Sqe::read(&bytes)),
        Err(_) => None,
    }
}

/// Reads an entry without checking the ranges of its numbers.
pub fn entry_form(value: &Value) -> Option<EntryForm>
    ensures { result ≡ entry_form (view value.now) }
{
    match value.as_str() {
        Some(text) => Some(EntryForm::Written(entry_of_text(text)?)),
        None => object_form(value),
    }
}

fn entry_of_numbers(numbers: &EntryNumbers) -> Option<Sqe>
    ensures { result ≡ entry_of_numbers numbers.now }
{
    Some(Sqe {
        opcode: byte(numbers.op)?,
        flags: byte(numbers.flags)?,
        ioprio: half_word(numbers.ioprio)?,
        fd: signed_word(numbers.fd)?,
        off: long(numbers.off)?,
        addr: long(numbers.addr)?,
        len: word(numbers.len)?,
        operation_flags: word(numbers.opflags)?,
        user_data: long(numbers.ud)?,
        buf_index: 0,
        personality: 0,
        splice_fd_in: 0,
        rest: [0; 16],
    })
}

/// Returns the entry if its numbers are in their ranges.
pub fn entry_in_range(form: &EntryForm) -> Option<Sqe>
    ensures { result ≡ entry_in_range form.now }
{
    match form {
        EntryForm::Written(entry) => Some(*entry),
        EntryForm::Numbers(numbers) => entry_of_numbers(numbers),
    }
}
