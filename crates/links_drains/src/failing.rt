//! Requests that complete as they are submitted, because an entry of their chain is invalid
//! (io_uring_enter(2)).
ghost use Rattle.std.specs.Prelude.{◌≡◌, ℕ, ◌+◌, ◌<◌, ◌≤◌, ◌==◌, List, IfOk, None, OnOk, Some, if◌then◌else◌, length, slice_get};
ghost use Rattle.entries.specs.declared.entry.Sqe.{Sqe};
ghost use Rattle.model_files.specs.Worlds.{WorldState};
ghost use Rattle.links_drains.specs.Batches.{previous_in, chain_fails, direct_of, error_in, shown_on as shown_by, Submitted};
ghost use Rattle.links_drains.specs.Endings.{ecanceled, given, or_else};

use crate::links::is_linked;
use crate::table::Rows;
use entries::{ECANCELED, Sqe};
use std::alloc::{AllocError, Global};

/// Returns the opcode of the entry before entry i in its chain, if there is one.
pub(crate) fn previous_at(entries: &[Sqe], i: usize) -> Option<u8>
    requires { i < length entries.now }
    ensures { result ≡ previous_in entries.now i }
{
    if i == 0 {
        return None;
    }
    shown_on(&entries[i - 1])
}

// The opcode of an entry, if the next entry belongs to its chain.
fn shown_on(entry: &Sqe) -> Option<u8>
    ensures { result ≡ shown_by entry.now }
{
    if is_linked(entry) {
        Some(entry.opcode)
    } else {
        None
    }
}

/// Adds the error of entry i, if it fails, to those of the entries before it.
pub(crate) fn note_error(
    errors: &mut Vec<Option<i32>>,
    i: usize,
    error: Option<i32>,
) -> Result<(), AllocError>
    requires { length errors.old.items ≤ i }
    ensures len { OnOk result (length errors.new.items ≤ i + 1) }
    ensures each { OnOk result ((k : ℕ) → error_in errors.new.items k
        ≡ (if k == i then error else error_in errors.old.items k)) }
    ensures same { error ≡ None → errors.new.items ≡ errors.old.items }
{
    if error.is_some() {
        errors.resize(i, None)?;
        errors.push(error)?;
    }
    Ok(())
}

// Returns the error of entry i, if it fails.
fn error_of(errors: &[Option<i32>], i: usize) -> Option<i32>
    ensures { result ≡ error_in errors.now i }
{
    match errors.get(i) {
        Some(error) => *error,
        None => None,
    }
}

/// Returns the requests of a batch that complete as they are submitted, with their results. `first`
/// is the number of the first, and `rows` ends with the batch. Allocates nothing if no entry fails;
/// otherwise takes time linear in the size of the batch.
pub(crate) fn direct_ends(
    alloc: Global,
    errors: &[Option<i32>],
    first: u32,
    rows: &Rows,
) -> Result<Vec<(u32, i32)>, AllocError>
    requires batch { (w : WorldState) × (es : List Sqe)
        × Submitted w es first rows.now errors.now }
    requires within { first ≤ length rows.now }
    requires few { length rows.now ≤ 65536 }
    ensures { (w : WorldState) (es : List Sqe) → Submitted w es first rows.now errors.now
        → IfOk result (λ direct. direct.items ≡ direct_of w first es) }
{
    if errors.is_empty() {
        return Ok(Vec::new(alloc));
    }
    let failing = failing_chains(alloc, errors, first, rows)?;
    let mut direct = Vec::new(alloc);
    for i in 0..rows.len() - first as usize {
        let row = &rows[first as usize + i];
        let chain_fails = failing[(row.unit - first) as usize];
        if let Some(res) = result_at_once(error_of(errors, i), chain_fails) {
            direct.push((first + i as u32, res))?;
        }
    }
    Ok(direct)
}

// For each chain of a batch, says whether one of its entries fails. The index is that of the
// chain's first entry.
fn failing_chains(
    alloc: Global,
    errors: &[Option<i32>],
    first: u32,
    rows: &Rows,
) -> Result<Vec<bool>, AllocError>
    requires batch { (w : WorldState) × (es : List Sqe)
        × Submitted w es first rows.now errors.now }
    requires within { first ≤ length rows.now }
    requires few { length rows.now ≤ 65536 }
    ensures { (w : WorldState) (es : List Sqe) → Submitted w es first rows.now errors.now
        → IfOk result (λ failing. (u : ℕ) → u < length es
        → slice_get failing.items u ≡ Some (chain_fails w es u)) }
{
    let count = rows.len() - first as usize;
    let mut failing = Vec::from_elem(alloc, false, count)?;
    for i in 0..count {
        let row = &rows[first as usize + i];
        if error_of(errors, i).is_some() {
            failing[(row.unit - first) as usize] = true;
        }
    }
    Ok(failing)
}

// Returns the result of a request that completes as it is submitted: its own error, or ECANCELED if
// another entry of its chain fails.
fn result_at_once(error: Option<i32>, chain_fails: bool) -> Option<i32>
    ensures { result ≡ or_else error (given chain_fails ecanceled) }
{
    match error {
        Some(res) => Some(res),
        None if chain_fails => Some(-ECANCELED),
        None => None,
    }
}
