//! What the event before the position changed.
ghost use Rattle.std.specs.Prelude.{◌≡◌, ◌++◌, IfOk, OnOk, codes, map};
ghost use Rattle.run_log.specs.Lines.{news_text, olds_text, row_place, rows};
ghost use Rattle.dap_lists.specs.Listed.{ListsChanges, row_variable};

use dap_variables::{Variable, plain_variable};
use inverse_log::Walker;
use machine::Setup;
use places::Items;
use run_log::{Changed, changes_of, first_row, row_place, value_shown};
use std::alloc::{AllocError, Global};
use stops::record_of;

/// Returns the changes of the event before the position, in the order of places.
pub(crate) fn changes_at(alloc: Global, walker: &Walker) -> Result<Vec<Changed>, AllocError>
    ensures { IfOk result (λ list. ListsChanges walker.now list.items) }
{
    let at = walker.at();
    if at == 0 {
        return Ok(Vec::new(alloc));
    }
    changes_of(alloc, record_of(walker, at - 1), walker.state())
}

/// Divides changes into the lines of the log.
pub(crate) fn rows_of(alloc: Global, changes: &[Changed]) -> Result<Vec<&[Changed]>, AllocError>
    ensures { IfOk result (λ v. map (λ row. row.now) v.items ≡ rows changes.now) }
{
    let mut list = Vec::new(alloc);
    let mut rest = changes;
    while !rest.is_empty() {
        let (row, after) = rest.split_at(first_row(rest));
        list.push(row)?;
        rest = after;
    }
    Ok(list)
}

fn put_olds(alloc: Global, out: &mut Vec<u8>, row: &[Changed]) -> Result<(), AllocError>
    ensures { OnOk result (out.new.items ≡ out.old.items ++ olds_text row.now) }
{
    for changed in row {
        out.extend_from_slice(&value_shown(alloc, changed.old)?)?;
    }
    Ok(())
}

fn put_news(alloc: Global, out: &mut Vec<u8>, row: &[Changed]) -> Result<(), AllocError>
    ensures { OnOk result (out.new.items ≡ out.old.items ++ news_text row.now) }
{
    for changed in row {
        out.extend_from_slice(&value_shown(alloc, changed.new)?)?;
    }
    Ok(())
}

// Returns the place of a line.
fn place_of(alloc: Global, setup: &Setup, row: &[Changed]) -> Result<Vec<u8>, AllocError>
    ensures { IfOk result (λ text. text.items ≡ row_place setup.now row.now) }
{
    if row.is_empty() {
        return Ok(Vec::new(alloc));
    }
    row_place(alloc, setup, row)
}

// Returns the old and the new values of a line.
fn values_of(alloc: Global, row: &[Changed]) -> Result<Vec<u8>, AllocError>
    ensures { IfOk result (λ text. text.items
        ≡ olds_text row.now ++ (codes " -> " ++ news_text row.now)) }
{
    let mut text = Vec::new(alloc);
    put_olds(alloc, &mut text, row)?;
    text.extend_from_slice(b" -> ")?;
    put_news(alloc, &mut text, row)?;
    Ok(text)
}

/// Returns the variable of a line: its place, and its old and new values.
pub(crate) fn row_variable(
    alloc: Global,
    setup: &Setup,
    row: &[Changed],
) -> Result<Variable, AllocError>
    ensures { IfOk result (λ v. v ≡ row_variable setup.now row.now) }
{
    let name = place_of(alloc, setup, row)?;
    let value = values_of(alloc, row)?;
    Ok(plain_variable(Items::from_vec(name), Items::from_vec(value)))
}
