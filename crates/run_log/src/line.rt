//! Writes the lines of an event.
ghost use Rattle.std.specs.Prelude.{◌≡◌, ◌<◌, ◌++◌, length, codes, map, IfOk, OnOk};
ghost use Rattle.std.specs.List.{flat_map};
ghost use Rattle.run_log.specs.{value_shown, olds_text, news_text, end_text, values_text, row_place, change_text, line_text, rows, event_lines, number_text};

use crate::changed::Changed;
use crate::joining::first_row;
use machine::{Event, Setup};
use places::Value;
use scenario::{number_of, put_number, put_place};
use script::EventText;
use std::alloc::{AllocError, Global};

// Writes a value, or `absent`.
fn put_value(alloc: Global, out: &mut Vec<u8>, value: Option<Value>) -> Result<(), AllocError>
    ensures { OnOk result (out.new.items ≡ out.old.items ++ value_shown value) }
{
    match value {
        Some(value) => out.extend_from_slice(value.text(alloc)?.as_slice()),
        None => out.extend_from_slice(b"absent"),
    }
}

/// Returns a value as the log prints it: as `show` does, or `absent`.
pub fn value_shown(alloc: Global, value: Option<Value>) -> Result<Vec<u8>, AllocError>
    ensures { IfOk result (λ text. text.items ≡ value_shown value) }
{
    let mut out = Vec::new(alloc);
    put_value(alloc, &mut out, value)?;
    Ok(out)
}

// Writes the old values of a line.
fn put_olds(alloc: Global, out: &mut Vec<u8>, row: &[Changed]) -> Result<(), AllocError>
    ensures { OnOk result (out.new.items ≡ out.old.items ++ olds_text row.now) }
{
    for changed in row {
        put_value(alloc, out, changed.old)?;
    }
    Ok(())
}

// Writes the new values of a line.
fn put_news(alloc: Global, out: &mut Vec<u8>, row: &[Changed]) -> Result<(), AllocError>
    ensures { OnOk result (out.new.items ≡ out.old.items ++ news_text row.now) }
{
    for changed in row {
        put_value(alloc, out, changed.new)?;
    }
    Ok(())
}

// Returns the index of the last of several bytes.
fn end_of(bytes: &[Changed]) -> Option<u32>
    ensures { number_text (codes "..") result ≡ end_text bytes.now }
{
    match bytes.last() {
        Some(last) => number_of(last.place),
        None => None,
    }
}

// Writes the end of a row of several bytes, such as `..7`.
fn put_end(alloc: Global, out: &mut Vec<u8>, bytes: &[Changed]) -> Result<(), AllocError>
    ensures { OnOk result (out.new.items ≡ out.old.items ++ end_text bytes.now) }
{
    match end_of(bytes) {
        Some(number) => put_number(alloc, out, "..", number),
        None => Ok(()),
    }
}

/// Returns the place of a line: that of its single change, or of its consecutive bytes, such as `mem
/// 0..1`.
pub fn row_place(alloc: Global, setup: &Setup, row: &[Changed]) -> Result<Vec<u8>, AllocError>
    requires { 0 < length row.now }
    ensures { IfOk result (λ text. text.items ≡ row_place setup.now row.now) }
{
    let mut out = Vec::new(alloc);
    put_place(alloc, &mut out, setup, row[0].place)?;
    put_end(alloc, &mut out, &row[1..])?;
    Ok(out)
}

// Writes the old and the new values of a line.
fn put_values(alloc: Global, out: &mut Vec<u8>, row: &[Changed]) -> Result<(), AllocError>
    ensures { OnOk result (out.new.items ≡ out.old.items ++ values_text row.now) }
{
    out.extend_from_slice(b" ")?;
    put_olds(alloc, out, row)?;
    out.extend_from_slice(b" -> ")?;
    put_news(alloc, out, row)
}

// Writes a single change or the change of consecutive bytes, such as `mem 0..1 0000 -> 6869`.
fn put_change(
    alloc: Global,
    out: &mut Vec<u8>,
    setup: &Setup,
    row: &[Changed],
) -> Result<(), AllocError>
    requires { 0 < length row.now }
    ensures { OnOk result (out.new.items ≡ out.old.items ++ change_text setup.now row.now) }
{
    put_place(alloc, out, setup, row[0].place)?;
    put_end(alloc, out, &row[1..])?;
    put_values(alloc, out, row)
}

// Writes the line of a single change or of consecutive bytes.
fn put_line(
    alloc: Global,
    out: &mut Vec<u8>,
    setup: &Setup,
    row: &[Changed],
) -> Result<(), AllocError>
    requires { 0 < length row.now }
    ensures { OnOk result (out.new.items ≡ out.old.items ++ line_text setup.now row.now) }
{
    out.extend_from_slice(b"  ")?;
    put_change(alloc, out, setup, row)?;
    out.extend_from_slice(b"\n")
}

// Writes the lines of a step's changes.
fn put_lines(
    alloc: Global,
    out: &mut Vec<u8>,
    setup: &Setup,
    changes: &[Changed],
) -> Result<(), AllocError>
    ensures { OnOk result (out.new.items ≡ out.old.items
        ++ flat_map (line_text setup.now) (rows changes.now)) }
{
    let mut rest = changes;
    while !rest.is_empty() {
        let (row, after) = rest.split_at(first_row(rest));
        put_line(alloc, out, setup, row)?;
        rest = after;
    }
    Ok(())
}

// Returns the text of a single change or of consecutive bytes.
fn change_line(alloc: Global, setup: &Setup, row: &[Changed]) -> Result<Vec<u8>, AllocError>
    requires { 0 < length row.now }
    ensures { IfOk result (λ line. line.items ≡ change_text setup.now row.now) }
{
    let mut line = Vec::new(alloc);
    put_change(alloc, &mut line, setup, row)?;
    Ok(line)
}

/// Returns the lines of a step's changes as the log prints them, but without the two spaces at the
/// front and the newline. `changes` are those of `changes_of`.
pub fn change_lines(
    alloc: Global,
    setup: &Setup,
    changes: &[Changed],
) -> Result<Vec<Vec<u8>>, AllocError>
    ensures { IfOk result (λ lines. map (λ line. line.items) lines.items
        ≡ map (change_text setup.now) (rows changes.now)) }
{
    let mut lines = Vec::new(alloc);
    let mut rest = changes;
    while !rest.is_empty() {
        let (row, after) = rest.split_at(first_row(rest));
        lines.push(change_line(alloc, setup, row)?)?;
        rest = after;
    }
    Ok(lines)
}

/// Returns the lines of an event: its index and words, followed by its changes.
pub(crate) fn event_lines(
    alloc: Global,
    setup: &Setup,
    index: usize,
    event: Event,
    changes: &[Changed],
) -> Result<Vec<u8>, AllocError>
    ensures { IfOk result (λ text. text.items ≡ event_lines setup.now index event changes.now) }
{
    let head = format!(in alloc; "{index} {}\n", EventText(event))?;
    let mut out = head.into_bytes();
    put_lines(alloc, &mut out, setup, changes)?;
    Ok(out)
}
