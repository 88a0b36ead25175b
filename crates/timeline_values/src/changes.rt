//! The changes of an event as a page contains them: whole, with bytes in base64.
ghost use Rattle.std.specs.Prelude.{◌≡◌, ◌<◌, ◌++◌, length, map, string_bytes, IfOk, OnOk};
ghost use Rattle.std.specs.List.{flat_map};
ghost use Rattle.std.specs.Str.Lossy.{utf8_lossy};
ghost use Rattle.run_log.specs.Lines.{row_place, rows, value_shown};
ghost use Rattle.timeline_values.specs.Values.{is_byte, byte_of, value_on, values_shown, change_texts, change_shown};

use crate::parts::ChangePart;
use base64::engine::general_purpose::STANDARD;
use machine::Setup;
use places::{Place, Value};
use run_log::{Changed, first_row, row_place, value_shown};
use std::alloc::{AllocError, Global};

/// One of the two values of a change.
#[derive(Clone, Copy)]
pub(crate) enum Side {
    Old,
    New,
}

impl Side {
    // Returns the value of a change on this side.
    fn value(self, changed: Changed) -> Option<Value>
        ensures { result ≡ value_on self changed }
    {
        match self {
            Side::Old => changed.old,
            Side::New => changed.new,
        }
    }
}

// Returns whether a place is a byte.
fn is_byte(place: Place) -> bool
    ensures { result ≡ is_byte place }
{
    match place {
        Place::MemoryByte(_)
        | Place::FileByte(_, _)
        | Place::DurableByte(_, _)
        | Place::PipeByte(_, _) => true,
        _ => false,
    }
}

/// Adds a value if it is a byte.
pub(crate) fn add_byte(out: &mut Vec<u8>, value: Option<Value>) -> Result<(), AllocError>
    ensures { OnOk result (out.new.items ≡ out.old.items ++ byte_of value) }
{
    if let Some(Value::Byte(byte)) = value {
        out.push(byte)?;
    }
    Ok(())
}

// Returns the bytes of a line on one side.
fn bytes_on(alloc: Global, side: Side, row: &[Changed]) -> Result<Vec<u8>, AllocError>
    ensures { IfOk result (λ bytes. bytes.items ≡ flat_map (λ d. byte_of (value_on side d)) row.now) }
{
    let mut bytes = Vec::new(alloc);
    for changed in row {
        add_byte(&mut bytes, side.value(*changed))?;
    }
    Ok(bytes)
}

/// Returns a value as text, or `absent`.
pub(crate) fn value_string(alloc: Global, value: Option<Value>) -> Result<String, AllocError>
    ensures { IfOk result (λ text. string_bytes text ≡ utf8_lossy (value_shown value)) }
{
    let text = value_shown(alloc, value)?;
    String::from_utf8_lossy(alloc, text.as_slice())
}

// Returns the values of a line on one side: bytes in base64, any other value as the log prints it.
fn values_on(alloc: Global, side: Side, row: &[Changed]) -> Result<String, AllocError>
    requires { 0 < length row.now }
    ensures { IfOk result (λ text. string_bytes text ≡ values_shown side row.now) }
{
    if is_byte(row[0].place) {
        let bytes = bytes_on(alloc, side, row)?;
        return STANDARD.encode(alloc, bytes.as_slice());
    }
    value_string(alloc, side.value(row[0]))
}

// Returns the place of a line.
fn place_of(alloc: Global, setup: &Setup, row: &[Changed]) -> Result<String, AllocError>
    requires { 0 < length row.now }
    ensures { IfOk result (λ text. string_bytes text ≡ utf8_lossy (row_place setup.now row.now)) }
{
    let text = row_place(alloc, setup, row)?;
    String::from_utf8_lossy(alloc, text.as_slice())
}

// Returns a line's changes as a page contains them.
fn change_part(alloc: Global, setup: &Setup, row: &[Changed]) -> Result<ChangePart, AllocError>
    requires { 0 < length row.now }
    ensures { IfOk result (λ part. change_texts part ≡ change_shown setup.now row.now) }
{
    let place = place_of(alloc, setup, row)?;
    let old = values_on(alloc, Side::Old, row)?;
    let new = values_on(alloc, Side::New, row)?;
    Ok(ChangePart(place, old, new))
}

/// Returns a step's changes as a page contains them, one for each line of the log.
pub fn change_parts(
    alloc: Global,
    setup: &Setup,
    changes: &[Changed],
) -> Result<Vec<ChangePart>, AllocError>
    ensures { IfOk result (λ parts. map change_texts parts.items
        ≡ map (change_shown setup.now) (rows changes.now)) }
{
    let mut parts = Vec::new(alloc);
    let mut rest = changes;
    while !rest.is_empty() {
        let (row, after) = rest.split_at(first_row(rest));
        parts.push(change_part(alloc, setup, row)?)?;
        rest = after;
    }
    Ok(parts)
}
