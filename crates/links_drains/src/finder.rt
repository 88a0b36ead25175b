//! Finds requests by their user_data or by their descriptor, without a scan of all issued ones.
ghost use Rattle.std.specs.Prelude.{◌≡◌, ◌+◌, ◌*◌, ◌<◌, ◌≤◌, ◌++◌, ◌∷◌, [], List, Some, None, IfOk, IfSome, IfNone, OnOk, get_or, length, slice_set, take, if◌then◌else◌};
ghost use Rattle.entries.specs.declared.row.Row.{Row};
ghost use Rattle.model_files.specs.Holders.{is_descriptor_number};
ghost use Rattle.links_drains.specs.Finders.{hash_of as hash_of_user, holds_now, mark_of as mark_of_block, row_hash, NoHolder, NoUser};
ghost use Rattle.links_drains.specs.Numbered.{IsNextWhere, NoneWhere};
ghost use Rattle.links_drains.specs.Indexes.{Indexed};

pub(crate) mod sharing;

use crate::index::Index;
use crate::table::Rows;
use bit_sets::BitSet;
use entries::{Phase, Row};
use shared_pages::PagedList;
use std::alloc::{AllocError, Global};

/// The number of hashes: a prime, so that pointers to aligned structures have different ones.
const HASHES: u64 = 8191;

/// The number of requests that share a mark for each descriptor.
const BLOCK: usize = 64;

/// The number of blocks in a full table.
const BLOCKS: usize = 1024;

/// The number of links that share a page: 2 KB.
const LINKS: usize = 512;

/// Links to requests, each one more than a number.
type Links = PagedList<u32, LINKS>;

/// Chains of the requests whose user_data has the same hash, and marks of the blocks with requests
/// that hold a descriptor. A mark stays when its request completes.
pub(crate) struct Finder {
    /// For each hash, one more than the number of its last request, or 0 if it has none.
    last: Links,
    /// The same for each request, of the requests before it that have its hash.
    previous: Links,
    /// A mark for each descriptor and block.
    holding: BitSet,
}

// Written by hand, so that dropping it is one step of a proof.
impl Drop for Finder {
    fn drop(self) {
        let Finder {
            last: _,
            previous: _,
            holding: _,
        } = self;
    }
}

impl Finder {
    ghost use Rattle.links_drains.specs.Finders.{Findable, HasPlace, IsMarked};

    /// Builds the finder of an empty table, without an allocation.
    pub(crate) fn new(alloc: Global) -> Finder
        ensures { Findable [] result }
    {
        Finder {
            last: PagedList::new(alloc),
            previous: PagedList::new(alloc),
            holding: BitSet::new(alloc),
        }
    }

    /// Makes room for one more request.
    pub(crate) fn make_room(&mut self, rows: &Rows) -> Result<(), AllocError>
        requires findable { Findable rows.now self.old }
        requires few { length rows.now < 65536 }
        ensures ok { OnOk result (HasPlace (length rows.now + 1) self.new) }
        ensures findable { Findable rows.now self.new }
    {
        self.make_tables(rows)?;
        if rows.len() < self.previous.len() {
            return Ok(());
        }
        self.previous.push(0)
    }

    // Makes room for all hashes and marks, if the table is empty.
    fn make_tables(&mut self, rows: &Rows) -> Result<(), AllocError>
        requires { Findable rows.now self.old }
        ensures ok { OnOk result (HasPlace (length rows.now) self.new) }
        ensures findable { Findable rows.now self.new }
    {
        if !rows.is_empty() {
            return Ok(());
        }
        self.make_hashes()?;
        self.make_marks()?;
        Ok(())
    }

    // Makes room for all hashes.
    fn make_hashes(&mut self) -> Result<(), AllocError>
        ensures { OnOk result (8191 ≤ length self.new.last) }
    {
        self.last.grow(HASHES as usize, 0)
    }

    // Makes room for the marks of all descriptors and blocks.
    fn make_marks(&mut self) -> Result<(), AllocError>
        ensures ok { OnOk result (65536 ≤ 64 * length self.new.holding) }
        ensures last { self.new.last ≡ self.old.last }
        ensures previous { self.new.previous ≡ self.old.previous }
    {
        for block in 0..BLOCKS {
            self.holding.make_room(64 * block)?;
        }
        Ok(())
    }

    /// Adds request r, the last one.
    pub(crate) fn add(&mut self, r: usize, row: &Row)
        requires few { r < 65536 }
        requires room { HasPlace (r + 1) self.old }
        ensures { (rows : List Row) → length rows ≡ r → Findable rows self.old
            → Findable (rows ++ row.now ∷ []) self.new }
    {
        self.link(r, row);
        self.mark(r, row);
    }

    // Adds request r, the last one, to those with its hash.
    fn link(&mut self, r: usize, row: &Row)
        requires few { r < 65536 }
        requires room { HasPlace (r + 1) self.old }
        ensures last { self.new.last
            ≡ slice_set self.old.last (row_hash row.now) (r + 1) }
        ensures previous { self.new.previous
            ≡ slice_set self.old.previous r
            (get_or self.old.last (row_hash row.now) 0) }
        ensures holding { self.new.holding ≡ self.old.holding }
        ensures room { HasPlace (r + 1) self.new }
    {
        let hash = hash_of(row.entry.user_data);
        self.previous.set(r, self.last[hash]);
        self.last.set(hash, r as u32 + 1);
    }

    /// Marks the block of request r, which is new or has changed, if it holds a descriptor.
    pub(crate) fn mark(&mut self, r: usize, row: &Row)
        requires few { r < 65536 }
        requires room { HasPlace (r + 1) self.old }
        ensures { IsMarked r row.now self.old self.new }
    {
        if let (Phase::Issued, Some(fd)) = (row.phase, row.held) {
            if let Some(mark) = mark_of(fd, r) {
                self.holding.write(mark, true);
            }
        }
    }

    /// Drops the requests from number n on, in time linear in how many they are.
    pub(crate) fn cut(&mut self, rows: &Rows, n: usize)
        requires findable { Findable rows.now self.old }
        requires within { n ≤ length rows.now }
        ensures { Findable (take n rows.now) self.new }
    {
        let mut r = rows.len();
        while r > n {
            r -= 1;
            self.unlink(r, &rows[r]);
        }
    }

    // Drops request r, the last one, from those with its hash.
    fn unlink(&mut self, r: usize, row: &Row)
        requires { HasPlace (r + 1) self.old }
        ensures last { self.new.last
            ≡ slice_set self.old.last (row_hash row.now)
            (get_or self.old.previous r 0) }
        ensures previous { self.new.previous ≡ self.old.previous }
        ensures holding { self.new.holding ≡ self.old.holding }
    {
        let hash = hash_of(row.entry.user_data);
        self.last.set(hash, self.previous[r]);
    }

    /// Returns the end of the requests with this user_data: no request has it from there on.
    pub(crate) fn end_of_user(&self, rows: &Rows, user_data: u64) -> usize
        requires { Findable rows.now self.now }
        ensures within { result ≤ length rows.now }
        ensures none { NoUser user_data rows.now result (length rows.now) }
    {
        let hash = hash_of(user_data);
        if hash >= self.last.len() {
            return rows.len();
        }
        rows.len().min(self.last[hash] as usize)
    }

    /// Returns the end of those before request r.
    pub(crate) fn end_before(&self, rows: &Rows, user_data: u64, r: usize) -> usize
        requires findable { Findable rows.now self.now }
        requires within { r < length rows.now }
        ensures below { result ≤ r }
        ensures none { NoUser user_data rows.now result r }
    {
        let hash = hash_of(user_data);
        let other = hash_of(rows[r].entry.user_data);
        if other != hash {
            return r;
        }
        if r >= self.previous.len() {
            return r;
        }
        r.min(self.previous[r] as usize)
    }

    /// Returns the first number from `at` on that a holder of the descriptor may have: that of the
    /// block's first request, or `at`.
    pub(crate) fn next_block(&self, rows: &Rows, fd: u32, at: usize) -> Option<usize>
        requires findable { Findable rows.now self.now }
        requires few { length rows.now ≤ 65536 }
        ensures some { IfSome result (λ start. (at ≤ start) × NoHolder fd rows.now at start) }
        ensures few { IfSome result (λ start. start < 65536) }
        ensures none { IfNone result (NoHolder fd rows.now at (length rows.now)) }
    {
        if at >= rows.len() {
            return None;
        }
        let Some(mark) = mark_of(fd, at) else {
            return Some(at);
        };
        let next = self.holding.next(mark)?;
        if next / BLOCKS != mark / BLOCKS {
            return None;
        }
        Some(at.max(next % BLOCKS * BLOCK))
    }

    /// Returns the first request from a number on that holds the descriptor. Examines only issued
    /// requests, and passes over blocks without a mark.
    pub(crate) fn next_holder(
        &self,
        rows: &Rows,
        index: &Index,
        fd: u32,
        from: usize,
    ) -> Option<usize>
        requires findable { Findable rows.now self.now }
        requires indexed { Indexed rows.now index.now }
        requires few { length rows.now ≤ 65536 }
        ensures some { IfSome result (λ r. IsNextWhere (holds_now fd) rows.now from r) }
        ensures none { IfNone result (NoneWhere (holds_now fd) rows.now from) }
    {
        let mut at = from;
        while let Some(start) = self.next_block(rows, fd, at) {
            let r = index.next_issued(start)?;
            if holds(&rows[r], fd) {
                return Some(r);
            }
            at = r + 1;
        }
        None
    }

    /// Copies the finder.
    pub(crate) fn copy(&self, alloc: Global) -> Result<Finder, AllocError>
        ensures { IfOk result (λ finder. finder ≡ self.now) }
    {
        Ok(Finder {
            last: self.last.copy(alloc)?,
            previous: self.previous.copy(alloc)?,
            holding: self.holding.copy(alloc)?,
        })
    }
}

fn hash_of(user_data: u64) -> usize
    ensures { result ≡ hash_of_user user_data }
{
    (user_data % HASHES) as usize
}

// Returns the mark of a descriptor and the block of request r; none for a number that no
// descriptor has.
fn mark_of(fd: u32, r: usize) -> Option<usize>
    requires { r < 65536 }
    ensures { result ≡ (if is_descriptor_number fd then Some (mark_of_block fd r) else None) }
{
    if 3 <= fd && fd < 67 {
        Some((fd as usize - 3) * BLOCKS + r / BLOCK)
    } else {
        None
    }
}

// Returns whether the request holds the descriptor.
fn holds(row: &Row, fd: u32) -> bool
    ensures { result ≡ holds_now fd row.now }
{
    match row.phase {
        Phase::Issued => row.held == Some(fd),
        _ => false,
    }
}
