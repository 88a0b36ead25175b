//! Completes ASYNC_CANCEL, POLL_REMOVE and TIMEOUT_REMOVE, and the requests that they cancel
//! (io_uring_enter(2)).
ghost use Rattle.std.specs.Prelude.{◌≡◌, ◌==◌, ◌≤◌, ℕ, nat_lt, false, IfOk, OnOk, length};
ghost use Rattle.places.specs.View.{Keeps};
ghost use Rattle.machine.specs.Cancels.{key_of, takes_all, on_all, on_found, canceled, ending_with};
ghost use Rattle.machine.specs.Plans.{CanDo, planned};
ghost use Rattle.machine.specs.Steps.{cascaded};
ghost use Rattle.machine.specs.declared.planning.Plan.TheVariants.{Cancel};
ghost use Rattle.machine.specs.Whole.{view, everywhere, Grows, Mostly, WellFormed};
ghost use Rattle.links_drains.specs.Endings.{Direct};
ghost use Rattle.timeouts_cancel.specs.Cascades.{GuardsAreLinked};
ghost use Rattle.timeouts_cancel.specs.declared.matching.Found.TheVariants.{Waiting};

use crate::whole::Machine;
use entries::{EALREADY, ECANCELED, ENOENT, IORING_ASYNC_CANCEL_ALL, IORING_ASYNC_CANCEL_FD, Sqe};
use opcodes::Op;
use places::Recorder;
use std::alloc::{AllocError, Global};
use timeouts_cancel::{Found, Key, all_by, find_by};

impl Machine {
    /// Completes a cancellation or a removal, the requests that it cancels, and their cascade.
    pub(crate) fn cancel(&mut self, r: u32, notes: &mut Recorder) -> Result<(), AllocError>
        requires can { CanDo self.old (Cancel r) }
        requires formed { WellFormed self.old }
        ensures ok { OnOk result (self.new ≡ planned self.old (Cancel r)) }
        ensures grows { Grows self.old self.new }
        ensures keeps { Keeps everywhere (view self.old)
            (view self.new) notes.old.made notes.new.made }
    {
        let entry = self.table.row_ref(r).entry;
        let key = key_of(&entry);
        if takes_all(&entry) {
            let rows = all_by(&self.table, &self.world, key, r)?;
            let direct = ending_with(self.table.allocator(), r, &rows)?;
            self.cascade(&direct, notes)
        } else {
            let found = find_by(&self.table, &self.world, key, r);
            self.cancel_found(r, found, notes)
        }
    }

    // Completes a cancellation of the first match only.
    fn cancel_found(
        &mut self,
        me: u32,
        found: Found,
        notes: &mut Recorder,
    ) -> Result<(), AllocError>
        requires direct { Direct self.old.table (ending_with me (on_found found)) }
        requires other { (r : ℕ) → found ≡ Waiting r → (r == me) ≡ false }
        requires guards { GuardsAreLinked self.old.table }
        requires mostly { Mostly self.old }
        ensures ok { OnOk result (self.new ≡ cascaded self.old (ending_with me (on_found found))) }
        ensures grows { Grows self.old self.new }
        ensures keeps { Keeps everywhere (view self.old)
            (view self.new) notes.old.made notes.new.made }
    {
        match found {
            Found::Absent => self.cascade(&[(me, -ENOENT)], notes),
            Found::Running(_) => self.cascade(&[(me, -EALREADY)], notes),
            Found::Waiting(r) if r < me => self.cascade(&[(r, -ECANCELED), (me, 0)], notes),
            Found::Waiting(r) => self.cascade(&[(me, 0), (r, -ECANCELED)], notes),
        }
    }
}

// Lists request `me`, whose result is how many are canceled, and the canceled requests, by
// ascending number.
fn ending_with(alloc: Global, me: u32, rows: &[u32]) -> Result<Vec<(u32, i32)>, AllocError>
    requires { length rows.now ≤ 65536 }
    ensures { IfOk result (λ direct. direct.items ≡ ending_with me (on_all rows.now)) }
{
    let mut direct = canceled_before(alloc, rows, me)?;
    direct.push((me, rows.len() as i32))?;
    let mut later = canceled_after(alloc, rows, me)?;
    direct.append(&mut later)?;
    Ok(direct)
}

fn canceled_before(alloc: Global, rows: &[u32], me: u32) -> Result<Vec<(u32, i32)>, AllocError>
    ensures { IfOk result (λ endings. endings.items ≡ canceled (λ r. nat_lt r me) rows.now) }
{
    let before = rows.iter().filter(|r| **r < me);
    before.map(|r| (*r, -ECANCELED)).collect(alloc)
}

fn canceled_after(alloc: Global, rows: &[u32], me: u32) -> Result<Vec<(u32, i32)>, AllocError>
    ensures { IfOk result (λ endings. endings.items ≡ canceled (λ r. nat_lt me r) rows.now) }
{
    let later = rows.iter().filter(|r| me < **r);
    later.map(|r| (*r, -ECANCELED)).collect(alloc)
}

/// Returns what the entry searches for.
pub(crate) fn key_of(entry: &Sqe) -> Key
    ensures { result ≡ key_of entry.now }
{
    if entry.opcode == Op::PollRemove as u8 {
        return Key::Poll(entry.addr);
    }
    if entry.opcode == Op::TimeoutRemove as u8 {
        return Key::Timeout(entry.addr);
    }
    if entry.operation_flags & IORING_ASYNC_CANCEL_FD != 0 {
        return Key::Fd(entry.fd);
    }
    Key::User(entry.addr)
}

/// Returns whether the entry cancels all matches that wait (IORING_ASYNC_CANCEL_ALL).
pub fn takes_all(entry: &Sqe) -> bool
    ensures { result ≡ takes_all entry.now }
{
    entry.opcode == Op::AsyncCancel as u8 && entry.operation_flags & IORING_ASYNC_CANCEL_ALL != 0
}
