//! The cascade of a step: the requests that complete as a consequence of others
//! (io_uring_enter(2)).
ghost use Rattle.std.specs.Prelude.{◌≡◌, ◌≢◌, ◌&&◌, ◌+◌, ◌^◌, ◌<◌, ◌≤◌, ℕ, IfOk, IfSome, None, Some, false, length, slice_get, true};
ghost use Rattle.links_drains.specs.Links.{is_soft_linked as has_soft_link};
ghost use Rattle.links_drains.specs.Endings.{Ending, Direct};
ghost use Rattle.timeouts_cancel.specs.Cascades.{counted_in, fall_of, first_listed, with_severed, is_bad, GuardsAreLinked};
ghost use Rattle.timeouts_cancel.specs.Walks.{Walked, Sweeping, severed_endings};

use crate::guards::{guards, guards_any};
use crate::merging::add;
use crate::timers::{count, meets_any, met};
use entries::{ECANCELED, Row};
use links_drains::{Table, is_soft_linked, is_unfinished};
use opcodes::Op;
use std::alloc::AllocError;

/// Returns all requests that complete in a step, with their results, by ascending number. These are
/// the requests in `direct`, which the step itself completes, and its cascade. The cascade is the
/// rest of each chain that a failure severs, the TIMEOUTs whose count is then reached, and the
/// linked timeouts of all these. `counted` is the number of completions counted before the step.
pub fn fall(
    table: &Table,
    counted: u32,
    direct: &[(u32, i32)],
) -> Result<Vec<(u32, i32)>, AllocError>
    requires direct { Direct table.now direct.now }
    requires guards { GuardsAreLinked table.now }
    requires counted { counted ≤ 65536 }
    ensures { IfOk result (λ endings. endings.items ≡ fall_of table.now counted direct.now) }
{
    prove!(table.len() <= 65536);
    let severed = with_severed(table, direct)?;
    let total = counted + count(table, &severed);
    let met = met(table, total)?;
    let ended = add(table, severed, &met)?;
    let guards = guards(table, &ended)?;
    add(table, ended, &guards)
}

/// Returns how many of the completions in `direct` count for TIMEOUTs, if a step completes only
/// these: none of them severs its chain or has a linked timeout, and no TIMEOUT's count is then
/// reached. Doesn't allocate.
pub fn falls_alone(table: &Table, counted: u32, direct: &[(u32, i32)]) -> Option<u32>
    requires direct { Direct table.now direct.now }
    requires guards { GuardsAreLinked table.now }
    requires counted { counted ≤ 65536 }
    ensures alone { IfSome result (λ n. fall_of table.now counted direct.now ≡ direct.now) }
    ensures count { IfSome result (λ n. n ≡ counted_in table.now direct.now) }
{
    prove!(table.len() <= 65536);
    if severs_any(table, direct) {
        return None;
    }
    let count = count(table, direct);
    let total = counted + count;
    if meets_any(table, total) || guards_any(table, direct) {
        return None;
    }
    Some(count)
}

// Whether a direct completion severs the rest of its chain.
fn severs_any(table: &Table, direct: &[(u32, i32)]) -> bool
    requires direct { Direct table.now direct.now }
    requires few { length table.now ≤ 65536 }
    ensures { result ≡ false → direct.now ≡ severed_endings table.now direct.now }
{
    for at in 0..direct.len() {
        let (r, res) = direct[at];
        if severs(table.row_ref(r), res) {
            return true;
        }
    }
    false
}

// The direct completions, and the rest of each chain that they sever. No other request is examined.
fn with_severed(table: &Table, direct: &[(u32, i32)]) -> Result<Vec<(u32, i32)>, AllocError>
    requires direct { Direct table.now direct.now }
    requires few { length table.now ≤ 65536 }
    ensures { IfOk result (λ endings. endings.items
        ≡ with_severed table.now (first_listed table.now direct.now)) }
{
    let mut endings = Vec::new(table.allocator());
    let mut at = 0;
    while at < direct.len() {
        at = end_one(table, direct, at, &mut endings)?;
    }
    Ok(endings)
}

// Adds one direct completion and the requests that it severs. Returns the index of the next direct
// completion.
fn end_one(
    table: &Table,
    direct: &[(u32, i32)],
    at: usize,
    endings: &mut Vec<(u32, i32)>,
) -> Result<usize, AllocError>
    requires direct { Direct table.now direct.now }
    requires few { length table.now ≤ 65536 }
    requires there { at < length direct.now }
    requires walked { (k : ℕ) × Walked table.now direct.now k at endings.old.items }
    ensures walked { IfOk result (λ next. (k : ℕ)
        × Walked table.now direct.now k next endings.new.items) }
    ensures on { IfOk result (λ next. at < next) }
{
    let (r, res) = direct[at];
    let row = table.row_ref(r);
    endings.push((r, res))?;
    if severs(row, res) {
        return sever(table, direct, r + 1, at + 1, row.unit, endings);
    }
    Ok(at + 1)
}

// Adds the rest of a chain, from request `from` on. Returns the index of the next direct
// completion.
#[tactic(auto, using(crate::proofs::Sweeping::sweep_end, std::proofs::lemmas::Option::slice_get_within))]
fn sever(
    table: &Table,
    direct: &[(u32, i32)],
    from: u32,
    at: usize,
    unit: u32,
    endings: &mut Vec<(u32, i32)>,
) -> Result<usize, AllocError>
    requires direct { Direct table.now direct.now }
    requires within { from ≤ length table.now }
    requires sweeping { Sweeping table.now direct.now from at endings.old.items unit }
    ensures walked { IfOk result (λ next. (k : ℕ)
        × Walked table.now direct.now k next endings.new.items) }
    ensures on { IfOk result (λ next. at ≤ next) }
{
    let mut next = at;
    for k in from..table.len() as u32 {
        let row = table.row_ref(k);
        if row.unit != unit {
            return Ok(next);
        }
        if let Some(res) = result_at(direct, next, k) {
            endings.push((k, res))?;
            next += 1;
        } else if is_unfinished(row) {
            endings.push((k, -ECANCELED))?;
        }
    }
    Ok(next)
}

// The result of the direct completion at index `at`, if it belongs to the request.
fn result_at(direct: &[(u32, i32)], at: usize, row: u32) -> Option<i32>
    ensures some { IfSome result (λ res. slice_get direct.now at ≡ Some (row, res)) }
    ensures on { IfSome result (λ res. at + 1 < 2 ^ 64) }
    ensures none { result ≡ None → (e : Ending) → slice_get direct.now at ≡ Some e → e.0 ≢ row }
{
    if at >= direct.len() {
        return None;
    }
    let (r, res) = direct[at];
    if r == row { Some(res) } else { None }
}

// Whether the request severs the rest of its chain if it completes with this result.
fn severs(row: &Row, res: i32) -> bool
    ensures { result ≡ (has_soft_link row.now && is_bad row.now res) }
{
    is_soft_linked(row) && is_bad(row, res)
}

// Whether the result is a failure, for the purpose of links.
fn is_bad(row: &Row, res: i32) -> bool
    ensures { result ≡ is_bad row.now res }
{
    let opcode = row.entry.opcode;
    if opcode == Op::Read as u8 || opcode == Op::Write as u8 {
        return !(res >= 0 && res as u32 == row.entry.len);
    }
    opcode != Op::LinkTimeout as u8 && res < 0
}
