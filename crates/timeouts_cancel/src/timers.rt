//! Deadlines of timers, and TIMEOUTs that complete after a number of completions
//! (io_uring_enter(2)).
ghost use Rattle.std.specs.Prelude.{◌≡◌, ◌-◌, ◌<◌, ◌^◌, [], IfOk, false, length, slice_get};
ghost use Rattle.std.specs.Option.{option_map_or};
ghost use Rattle.links_drains.specs.Phases.{counts};
ghost use Rattle.timeouts_cancel.specs.Cascades.{counted_in};
ghost use Rattle.timeouts_cancel.specs.Timers.{is_due, met_rows};

use entries::Row;
use links_drains::Table;
use opcodes::is_timer;
use std::alloc::AllocError;

/// Returns whether the request has a deadline that has passed at time `now`, in nanoseconds.
pub fn due(row: &Row, now: u64) -> bool
    ensures { result ≡ is_due now row.now }
{
    match row.deadline {
        Some(deadline) => deadline <= now as u128,
        None => false,
    }
}

/// Returns how many of the completions count for TIMEOUTs.
pub fn count(table: &Table, endings: &[(u32, i32)]) -> u32
    requires few { length endings.now < 2 ^ 32 }
    ensures { result ≡ counted_in table.now endings.now }
{
    let mut count = 0;
    for (r, _) in endings {
        if counts(table, *r) {
            count += 1;
        }
    }
    count
}

/// Returns the TIMEOUTs whose count `total` has reached, each with result 0. No other request is
/// examined.
#[tactic(auto, using(crate::proofs::Meeting::met_all))]
pub(crate) fn met(table: &Table, total: u32) -> Result<Vec<(u32, i32)>, AllocError>
    requires { total < 2 ^ 32 - 1 }
    ensures { IfOk result (λ met. met.items ≡ met_rows table.now total) }
{
    let mut met = Vec::new(table.allocator());
    let mut from = 0;
    while let Some(r) = table.next_met(total, from) {
        met.push((r, 0))?;
        from = r + 1;
    }
    Ok(met)
}

/// Returns whether `total` has reached the count of a TIMEOUT.
pub(crate) fn meets_any(table: &Table, total: u32) -> bool
    requires { total < 2 ^ 32 - 1 }
    ensures { result ≡ false → met_rows table.now total ≡ [] }
{
    table.next_met(total, 0).is_some()
}

// Whether the completion of request r counts; false if there is no such request.
fn counts(table: &Table, r: u32) -> bool
    ensures { result ≡ option_map_or counts (slice_get table.now r) false }
{
    match table.opcode(r) {
        Some(opcode) => !is_timer(opcode),
        None => false,
    }
}
