//! An index of the request table: which requests may be issued, and which TIMEOUTs have
//! reached their count, without a scan of all requests.
ghost use Rattle.std.specs.Prelude.{◌≡◌, ℕ, ◌+◌, ◌-◌, ◌^◌, ◌<◌, ◌≤◌, ◌==◌, ◌&&◌, List, [], true, Some, IfOk, IfSome, IfNone, OnOk, MatchBool, if◌then◌else◌, length, slice_get, take};
ghost use Rattle.entries.specs.declared.row.Row.{Row};
ghost use Rattle.links_drains.specs.Counts.{has_count as has_count_of, threshold_of as threshold_in_row};
ghost use Rattle.links_drains.specs.Eligible.{is_eligible, GuardsFollow};
ghost use Rattle.links_drains.specs.Links.{has_drain_flag as has_drain, Chained};
ghost use Rattle.bit_sets.specs.Sets.{has, IsNext, NoneFrom};
ghost use Rattle.bit_sets.specs.Thresholds.{threshold_at, IsNextReached, NoneReachedFrom};
ghost use Rattle.links_drains.specs.Units.{passes_at, is_open, HasRowOf, HasNoRowOf};

mod queued;

use crate::links::{
    has_count, has_drain_flag, is_guard, is_issued, is_queued, is_unfinished, threshold_of,
};
use crate::table::Rows;
use bit_sets::BitSet;
use bit_sets::thresholds::{NEVER, Thresholds};
use entries::Row;
use std::alloc::{AllocError, Global};

/// Sets of request numbers, stored as bitmaps, and the thresholds of TIMEOUTs.
pub(crate) struct Index {
    /// The requests that have not completed.
    unfinished: BitSet,
    /// The requests with IOSQE_IO_DRAIN.
    flagged: BitSet,
    /// The chains that drain and have an unfinished request, each by the number of its first
    /// request.
    barriers: BitSet,
    /// The issued requests.
    issued: BitSet,
    /// The total of counted completions at which each request completes, or `NEVER`.
    thresholds: Thresholds,
}

// Written by hand, so that dropping it is one step of a proof.
impl Drop for Index {
    fn drop(self) {
        let Index {
            unfinished: _,
            flagged: _,
            barriers: _,
            issued: _,
            thresholds: _,
        } = self;
    }
}

impl Index {
    ghost use Rattle.links_drains.specs.Indexes.{Indexed, IndexedBut, HasRoom, Forgotten};

    /// Builds the index of an empty table, without an allocation.
    pub(crate) fn new(alloc: Global) -> Index
        ensures { Indexed [] result }
    {
        Index {
            unfinished: BitSet::new(alloc),
            flagged: BitSet::new(alloc),
            barriers: BitSet::new(alloc),
            issued: BitSet::new(alloc),
            thresholds: Thresholds::new(alloc),
        }
    }

    /// Makes room for one more request. Thresholds are allocated with the first TIMEOUT that has a
    /// count.
    pub(crate) fn make_room(&mut self, rows: &Rows, row: &Row) -> Result<(), AllocError>
        requires indexed { Indexed rows.now self.old }
        requires few { length rows.now < 65536 }
        ensures ok { OnOk result (HasRoom (length rows.now + 1) self.new) }
        ensures counted { OnOk result (has_count_of row.now ≡ true
            → length rows.now < length self.new.thresholds) }
        ensures indexed { Indexed rows.now self.new }
    {
        self.unfinished.make_room(rows.len())?;
        self.flagged.make_room(rows.len())?;
        self.barriers.make_room(rows.len())?;
        self.issued.make_room(rows.len())?;
        if has_count(row) {
            self.thresholds.make_room(rows.len())?;
        }
        Ok(())
    }

    /// Enters request r, which is new.
    #[inline(always)]
    pub(crate) fn enter(&mut self, rows: &Rows, r: usize)
        requires { (row : Row) × (slice_get rows.now r ≡ Some row)
            × IndexedBut r row.unit rows.now self.old }
        ensures { Indexed rows.now self.new }
    {
        let row = &rows[r];
        self.unfinished.write(r, is_unfinished(row));
        self.flagged.write(r, has_drain_flag(row));
        self.update(rows, r);
    }

    /// Updates the index for request r, whose phase has changed, or whose chain has lost requests.
    #[inline(always)]
    pub(crate) fn change(&mut self, rows: &Rows, r: usize)
        requires but { (row : Row) × (slice_get rows.now r ≡ Some row)
            × IndexedBut r row.unit rows.now self.old }
        requires flagged { (q : ℕ) → has self.old.flagged q ≡ passes_at has_drain rows.now q }
        ensures { Indexed rows.now self.new }
    {
        self.unfinished.write(r, is_unfinished(&rows[r]));
        self.update(rows, r);
    }

    // Updates the other sets and the threshold for request r. Writes no threshold without a count,
    // and no barrier if the chain does not drain.
    #[inline(always)]
    fn update(&mut self, rows: &Rows, r: usize)
        requires but { (row : Row) × (slice_get rows.now r ≡ Some row)
            × IndexedBut r row.unit rows.now self.old }
        requires unfinished { (q : ℕ) → has self.old.unfinished q ≡ passes_at is_open rows.now q }
        requires flagged { (q : ℕ) → has self.old.flagged q ≡ passes_at has_drain rows.now q }
        ensures { Indexed rows.now self.new }
    {
        let row = &rows[r];
        self.issued.write(r, is_issued(row));
        write_threshold(&mut self.thresholds, r, row);
        if has_row_of(&self.flagged, rows, row.unit) {
            let blocks = has_row_of(&self.unfinished, rows, row.unit);
            self.barriers.write(row.unit as usize, blocks);
        }
    }

    /// Drops the requests after those that are left, up to number n, in time linear in how many
    /// they are.
    pub(crate) fn cut(&mut self, rows: &Rows, n: usize)
        requires cut { (before : List Row) × Indexed before self.old × (length before ≡ n)
            × (rows.now ≡ take (length rows.now) before) }
        requires within { length rows.now ≤ n }
        ensures { Indexed rows.now self.new }
    {
        let left = rows.len();
        self.forget(left, n);
        if left > 0 {
            // Perhaps no request is left that made the last chain drain.
            self.barriers.write(rows[left - 1].unit as usize, false);
            self.change(rows, left - 1);
        }
    }

    fn forget(&mut self, from: usize, to: usize)
        requires order { from ≤ to }
        requires room { HasRoom to self.old }
        ensures { Forgotten from to self.old self.new }
    {
        for r in from..to {
            self.unfinished.write(r, false);
            self.flagged.write(r, false);
            self.barriers.write(r, false);
            self.issued.write(r, false);
            self.thresholds.write(r, NEVER);
        }
    }

    /// Returns whether request r may be issued, in constant time.
    pub(crate) fn is_eligible(&self, rows: &Rows, r: usize) -> bool
        requires indexed { Indexed rows.now self.now }
        requires guards { GuardsFollow rows.now }
        ensures { result ≡ is_eligible rows.now r }
    {
        if r >= rows.len() {
            return false;
        }
        let row = &rows[r];
        if !is_queued(row) || is_guard(row) {
            return false;
        }
        let unit = row.unit as usize;
        if self.barriers.contains(unit) {
            self.unfinished.is_next(0, r)
        } else if self.unfinished.is_next(unit, r) {
            self.barriers.has_none_below(unit)
        } else {
            false
        }
    }

    /// Returns the first unfinished request from a number on, in constant time.
    pub(crate) fn next_unfinished(&self, from: usize) -> Option<usize>
        ensures some { IfSome result (λ r. IsNext self.now.unfinished from r) }
        ensures none { IfNone result (NoneFrom self.now.unfinished from) }
    {
        self.unfinished.next(from)
    }

    /// Returns the first issued request from a number on, in constant time.
    pub(crate) fn next_issued(&self, from: usize) -> Option<usize>
        ensures some { IfSome result (λ r. IsNext self.now.issued from r) }
        ensures none { IfNone result (NoneFrom self.now.issued from) }
    {
        self.issued.next(from)
    }

    /// Returns the first TIMEOUT from a number on whose threshold `total` has reached.
    pub(crate) fn next_met(&self, total: u32, from: usize) -> Option<usize>
        requires { total < 2 ^ 32 - 1 }
        ensures some { IfSome result (λ r. IsNextReached self.now.thresholds total from r) }
        ensures none { IfNone result (NoneReachedFrom self.now.thresholds total from) }
    {
        self.thresholds.next(from, total)
    }

    /// Copies the index.
    pub(crate) fn copy(&self, alloc: Global) -> Result<Index, AllocError>
        ensures { IfOk result (λ index. index ≡ self.now) }
    {
        Ok(Index {
            unfinished: self.unfinished.copy(alloc)?,
            flagged: self.flagged.copy(alloc)?,
            barriers: self.barriers.copy(alloc)?,
            issued: self.issued.copy(alloc)?,
            thresholds: self.thresholds.copy(alloc)?,
        })
    }
}

// Writes the threshold of request r, if it waits for a count.
fn write_threshold(thresholds: &mut Thresholds, r: usize, row: &Row)
    requires { has_count_of row.now ≡ true → r < length thresholds.old }
    ensures len { length thresholds.new ≡ length thresholds.old }
    ensures at { (q : ℕ) → threshold_at thresholds.new q
        ≡ (if (q == r) && has_count_of row.now then threshold_in_row row.now
        else threshold_at thresholds.old q) }
{
    if has_count(row) {
        thresholds.write(r, threshold_of(row));
    }
}

// Whether a set of request numbers has a request of the chain.
fn has_row_of(set: &BitSet, rows: &Rows, unit: u32) -> bool
    requires chained { Chained rows.now }
    requires within { (r : ℕ) → has set.now r ≡ true → r < length rows.now }
    ensures { MatchBool result (HasRowOf set.now rows.now unit) (HasNoRowOf set.now rows.now unit) }
{
    match set.next(unit as usize) {
        Some(r) => rows[r].unit == unit,
        None => false,
    }
}
