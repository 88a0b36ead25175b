//! Linked timeouts, which complete with their targets (io_uring_enter(2), IORING_OP_LINK_TIMEOUT).
ghost use Rattle.std.specs.Prelude.{◌≡◌, ◌<◌, ◌≤◌, ◌+◌, [], IfOk, false, length, slice_get};
ghost use Rattle.std.specs.Option.{option_map_or};
ghost use Rattle.links_drains.specs.Endings.{Direct};
ghost use Rattle.timeouts_cancel.specs.Cascades.{GuardsAreLinked};
ghost use Rattle.timeouts_cancel.specs.Guarding.{guarding, guards_row};

use entries::{ECANCELED, Row};
use links_drains::{Table, is_guard, is_unfinished};
use std::alloc::AllocError;

/// Returns the unfinished linked timeouts of the listed requests, each with -ECANCELED. Only the
/// request after each listed one is examined.
pub(crate) fn guards(table: &Table, listed: &[(u32, i32)]) -> Result<Vec<(u32, i32)>, AllocError>
    requires listed { Direct table.now listed.now }
    requires guards { GuardsAreLinked table.now }
    requires few { length table.now ≤ 65536 }
    ensures { IfOk result (λ guards. guards.items ≡ guarding table.now listed.now) }
{
    let mut guards = Vec::new(table.allocator());
    for at in 0..listed.len() {
        let (r, _) = listed[at];
        if is_guarded(table, r) {
            guards.push((r + 1, -ECANCELED))?;
        }
    }
    Ok(guards)
}

/// Returns whether a listed request has an unfinished linked timeout. Only the request after each
/// listed one is examined.
pub(crate) fn guards_any(table: &Table, listed: &[(u32, i32)]) -> bool
    requires listed { Direct table.now listed.now }
    requires guards { GuardsAreLinked table.now }
    requires few { length table.now ≤ 65536 }
    ensures { result ≡ false → guarding table.now listed.now ≡ [] }
{
    for at in 0..listed.len() {
        let (r, _) = listed[at];
        if is_guarded(table, r) {
            return true;
        }
    }
    false
}

// Whether the request after r is its unfinished linked timeout.
fn is_guarded(table: &Table, r: u32) -> bool
    requires { r < 65536 }
    ensures { result ≡ option_map_or (guards_row r) (slice_get table.now (r + 1)) false }
{
    r as usize + 1 < table.len() && guards_row(table.row_ref(r + 1), r)
}

// Whether the request is an unfinished linked timeout of `target`.
fn guards_row(row: &Row, target: u32) -> bool
    ensures { result ≡ guards_row target row.now }
{
    is_unfinished(row) && is_guard(row) && row.target == Some(target)
}
