//! Queries about the requests of a state.
ghost use Rattle.std.specs.Prelude.{◌≡◌, ◌<◌, ◌≤◌, IfSome, IfNone, length, slice_get};
ghost use Rattle.links_drains.specs.Numbered.{IsNextWhere, NoneWhere};
ghost use Rattle.links_drains.specs.Queued.{next_queued, IsNextQueued, NoneQueuedFrom};
ghost use Rattle.links_drains.specs.Units.{is_open, next_issued, IsNextIssued, NoneIssuedFrom};
ghost use Rattle.timeouts_cancel.specs.Matches.{matches_of};
ghost use Rattle.machine.specs.Cancels.{key_of};
ghost use Rattle.links_drains.specs.Holding.{is_held_by};
ghost use Rattle.machine.specs.Deadlines.{deadline_at};
ghost use Rattle.machine.specs.Transfers.{full_bytes, full_bytes_of};
ghost use Rattle.machine.specs.Whole.{WellFormed};

use super::State;
use crate::cancelling::key_of;
use crate::whole::Machine;
use entries::{Row, Sqe};
use links_drains::is_issued;
use opcodes::{Choice, Op};
use timeouts_cancel::count_by;

impl State {
    /// Returns how many requests there are. Doesn't allocate.
    pub fn row_count(&self) -> u32
        ensures count { result ≡ length self.now.table }
        ensures few { result ≤ 65536 }
        ensures formed { WellFormed self.now }
    {
        self.machine.table.len() as u32
    }

    /// Returns a request by its number. Doesn't allocate.
    pub fn row(&self, number: u32) -> Option<Row>
        ensures row { result ≡ slice_get self.now.table number }
        ensures formed { WellFormed self.now }
    {
        self.machine.table.get(number)
    }

    /// Returns the first queued request from a number on. Doesn't allocate, and examines no
    /// completed request.
    pub fn next_queued(&self, from: u32) -> Option<u32>
        ensures value { result ≡ next_queued self.now.table from }
        ensures some { IfSome result (λ r. IsNextQueued self.now.table from r) }
        ensures none { IfNone result (NoneQueuedFrom self.now.table from) }
        ensures few { IfSome result (λ r. r < 65536) }
    {
        self.machine.table.next_queued(from)
    }

    /// Returns the first issued request from a number on, in constant time. Doesn't allocate.
    pub fn next_issued(&self, from: u32) -> Option<u32>
        ensures value { result ≡ next_issued self.now.table from }
        ensures some { IfSome result (λ r. IsNextIssued self.now.table from r) }
        ensures none { IfNone result (NoneIssuedFrom self.now.table from) }
        ensures few { IfSome result (λ r. r < 65536) }
    {
        self.machine.table.next_issued(from)
    }

    /// Returns the first unfinished request from a number on, in constant time. Doesn't allocate.
    pub fn next_unfinished(&self, from: u32) -> Option<u32>
        ensures some { IfSome result (λ r. IsNextWhere is_open self.now.table from r) }
        ensures none { IfNone result (NoneWhere is_open self.now.table from) }
        ensures few { IfSome result (λ r. r < 65536) }
    {
        self.machine.table.next_unfinished(from)
    }

    /// Returns how many issued requests a cancellation or a removal matches, if it is request `me`.
    /// Doesn't allocate, and examines each issued request.
    pub fn match_count(&self, entry: &Sqe, me: u32) -> u32
        ensures { result ≡ length (matches_of self.now.table (key_of entry.now) me) }
    {
        count_by(&self.machine.table, key_of(entry), me)
    }

    /// Returns the deadline of an issued timer, in nanoseconds of the clock. Doesn't allocate.
    pub fn deadline(&self, r: u32) -> Option<u128>
        ensures { result ≡ deadline_at self.now.table r }
    {
        let row = self.machine.table.get(r)?;
        if is_issued(&row) { row.deadline } else { None }
    }

    /// Returns how many bytes an issued READ or WRITE transfers if it completes in full, or None if
    /// it has to wait, fails, or is another request. Doesn't allocate.
    pub fn full_bytes(&self, r: u32) -> Option<u32>
        ensures { result ≡ full_bytes self.now r }
    {
        let row = self.machine.table.get(r)?;
        self.machine.full_bytes(&row)
    }
}

impl Machine {
    fn full_bytes(&self, row: &Row) -> Option<u32>
        ensures { result ≡ full_bytes_of (is_held_by self.now.table) self.now.world row.now }
    {
        let opcode = row.entry.opcode;
        let is_transfer = opcode == Op::Read as u8 || opcode == Op::Write as u8;
        if is_transfer && is_issued(row) {
            self.decide(row, Choice::Full).0.count()
        } else {
            None
        }
    }
}
