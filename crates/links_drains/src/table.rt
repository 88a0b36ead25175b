//! The table of all requests that were ever submitted.
ghost use Rattle.std.specs.Prelude.{◌≡◌, ℕ, ◌+◌, ◌-◌, ◌<◌, ◌≤◌, ◌^◌, ◌++◌, ◌∷◌, [], take, map, Some, None, IfOk, IfSome, IfNone, OnOk, OnErr, OnSome, length, option_map, slice_get, slice_set};
ghost use Rattle.entries.specs.declared.row.Row.{Row};
ghost use Rattle.entries.specs.declared.row.Phase.TheVariants.{Issued};
ghost use Rattle.places.specs.Lists.{updated};
ghost use Rattle.places.specs.View.{Keeps, named, put_at};
ghost use Rattle.places.specs.declared.place.Place.{Place};
ghost use Rattle.model_files.specs.Holders.{is_held};
ghost use Rattle.links_drains.specs.Counts.{IsNextMet, NoneMetFrom};
ghost use Rattle.links_drains.specs.Eligible.{is_eligible, GuardsFollow};
ghost use Rattle.links_drains.specs.Holding.{is_held_by};
ghost use Rattle.links_drains.specs.Links.{Chained, ChainContinues};
ghost use Rattle.links_drains.specs.Numbered.{IsNextWhere, NoneWhere};
ghost use Rattle.links_drains.specs.Rows.{fixed_of, Stay, table_owns, table_seen, table_can_put, new_row as new_row_of};
ghost use Rattle.links_drains.specs.Units.{is_open, rest_of as rest_of_unit, next_issued, IsNextIssued, NoneIssuedFrom};

mod ending;
mod finding;
mod queued;
pub mod sharing;

use crate::finder::Finder;
use crate::holding::{count, take_all_off, take_off};
use crate::index::Index;
use crate::rest::rest_in;
use entries::{Phase, Row, Sqe};
use model_files::Held;
use places::{At, Part, Place, Recorder, Value};
use shared_pages::PagedList;
use std::alloc::{AllocError, Global};
use std::marker::Model;

/// The number of requests that share a page: 10 KB.
const ROWS: usize = 64;

/// The rows of a table.
pub(crate) type Rows = PagedList<Row, ROWS>;

/// All requests ever submitted, in order. A request's number is its index.
pub struct Table {
    rows: Rows,
    /// How many issued requests hold each descriptor.
    held: Held,
    /// Finds requests by their phase, chain and threshold.
    index: Index,
    /// Finds requests by their user_data or descriptor.
    finder: Finder,
}

// Written by hand, so that dropping it is one step of a proof.
impl Drop for Table {
    fn drop(self) {
        let Table {
            rows: _,
            held: _,
            index: _,
            finder: _,
        } = self;
    }
}

impl Model for Table {
    ghost use Rattle.std.specs.Prelude.{List};
    ghost use Rattle.entries.specs.declared.row.Row.{Row};

    ghost Value = { List Row };

    ghost view = { λ a. a.rows };

    ghost use Rattle.links_drains.specs.Tables.{Formed};

    ghost invariant = { λ a. Formed a.rows a.held a.index a.finder };
}

impl At for Table {
    ghost seen = { table_seen };

    fn at(&self, place: Place) -> Option<Value> {
        match place {
            Place::Request(i) => match self.rows.get(i as usize) {
                Some(row) => Some(Value::Requested(*row)),
                None => None,
            },
            _ => None,
        }
    }

    fn row_at(&self, row: u32) -> Option<&Row> {
        self.rows.get(row as usize)
    }
}

impl Part for Table {
    ghost owns = { table_owns };

    ghost can_put = { table_can_put };

    fn put(&mut self, place: Place, value: Option<Value>)
        requires { table_can_put self.old place value }
        ensures put { (q : Place)
            → table_seen self.new q ≡ put_at (table_seen self.old) place value q }
        ensures len { OnSome value (length self.new ≡ length self.old) }
        ensures fixed { OnSome value (map fixed_of self.new ≡ map fixed_of self.old) }
    {
        match (place, value) {
            (Place::Request(i), Some(Value::Requested(row))) => self.set(i as usize, row),
            (Place::Request(i), None) => self.truncate(i as usize),
            // `can_put` allows no other place or value.
            _ => unreachable!(),
        }
    }
}

impl Table {
    /// Builds an empty table, without an allocation.
    pub fn new(alloc: Global) -> Table
        ensures { result ≡ [] }
    {
        Table {
            rows: PagedList::new(alloc),
            held: Held::new(),
            index: Index::new(alloc),
            finder: Finder::new(alloc),
        }
    }

    /// Returns the allocator of the table.
    pub fn allocator(&self) -> Global {
        self.rows.allocator()
    }

    /// Returns the number of requests: at most 65,536 in a run.
    pub fn len(&self) -> usize
        ensures len { result ≡ length self.now }
        ensures few { length self.now ≤ 65536 }
        ensures chained { Chained self.now }
    {
        self.rows.len()
    }

    /// Returns a request by its number.
    pub fn get(&self, r: u32) -> Option<Row>
        ensures { result ≡ slice_get self.now r }
    {
        self.rows.get(r as usize).copied()
    }

    /// Returns a request that is known to be present.
    pub fn row(&self, r: u32) -> Row
        requires { r < length self.now }
        ensures { slice_get self.now r ≡ Some result }
    {
        self.rows[r as usize]
    }

    /// Lends a request that is known to be present.
    pub fn row_ref(&self, r: u32) -> &Row
        requires { r < length self.now }
        ensures { slice_get self.now r ≡ Some result.now }
    {
        &self.rows[r as usize]
    }

    pub(crate) fn rows(&self) -> &Rows
        ensures rows { result.now ≡ self.now }
        ensures few { length self.now ≤ 65536 }
    {
        &self.rows
    }

    /// Returns the phase of a request.
    pub fn phase(&self, r: u32) -> Option<Phase>
        ensures { result ≡ option_map (λ row. row.phase) (slice_get self.now r) }
    {
        match self.rows.get(r as usize) {
            Some(row) => Some(row.phase),
            None => None,
        }
    }

    /// Returns the opcode of a request.
    pub fn opcode(&self, r: u32) -> Option<u8>
        ensures { result ≡ option_map (λ row. row.entry.opcode) (slice_get self.now r) }
    {
        match self.rows.get(r as usize) {
            Some(row) => Some(row.entry.opcode),
            None => None,
        }
    }

    /// Returns which descriptors are held by issued requests, in constant time.
    pub fn held(&self) -> &Held
        ensures { (fd : ℕ) → is_held result.now fd ≡ is_held_by self.now fd }
    {
        &self.held
    }

    /// Returns whether the request may be issued, in constant time.
    pub fn eligible(&self, r: u32) -> bool
        requires guards { GuardsFollow self.now }
        ensures { result ≡ is_eligible self.now r }
    {
        self.index.is_eligible(&self.rows, r as usize)
    }

    /// Returns the first unfinished request from a number on, in constant time.
    pub fn next_unfinished(&self, from: u32) -> Option<u32>
        ensures some { IfSome result (λ r. IsNextWhere is_open self.now from r) }
        ensures none { IfNone result (NoneWhere is_open self.now from) }
        ensures few { IfSome result (λ r. r < 65536) }
    {
        match self.index.next_unfinished(from as usize) {
            Some(r) => Some(r as u32),
            None => None,
        }
    }

    /// Returns the first issued request from a number on, in constant time.
    pub fn next_issued(&self, from: u32) -> Option<u32>
        ensures value { result ≡ next_issued self.now from }
        ensures some { IfSome result (λ r. IsNextIssued self.now from r) }
        ensures none { IfNone result (NoneIssuedFrom self.now from) }
        ensures few { IfSome result (λ r. r < 65536) }
    {
        match self.index.next_issued(from as usize) {
            Some(r) => Some(r as u32),
            None => None,
        }
    }

    /// Returns the first issued TIMEOUT, from a number on, that waits for a count of completions
    /// that `total` has reached. Takes constant time if there is none. Otherwise it reads the
    /// minimum of each block of 256 thresholds, and searches the blocks whose minimum `total` has
    /// reached.
    pub fn next_met(&self, total: u32, from: u32) -> Option<u32>
        requires { total < 2 ^ 32 - 1 }
        ensures some { IfSome result (λ r. IsNextMet self.now total from r) }
        ensures none { IfNone result (NoneMetFrom self.now total from) }
        ensures few { IfSome result (λ r. r < 65536) }
    {
        match self.index.next_met(total, from as usize) {
            Some(r) => Some(r as u32),
            None => None,
        }
    }

    /// Returns the later requests of r's chain that have not completed, by ascending number; none
    /// if there is no request r. Takes time linear in the length of the chain.
    pub fn rest_of(&self, r: u32) -> Result<Vec<u32>, AllocError>
        ensures { IfOk result (λ rest. rest.items ≡ rest_of_unit self.now r) }
    {
        rest_in(self.allocator(), &self.rows, r as usize)
    }

    /// Adds a request at the end. If an allocation fails, the table is unchanged.
    pub fn push(&mut self, row: Row, notes: &mut Recorder) -> Result<(), AllocError>
        requires room { length self.old < 65536 }
        requires continues { ChainContinues self.old row }
        ensures ok { OnOk result (self.new ≡ self.old ++ row ∷ []) }
        ensures err { OnErr result (self.new ≡ self.old) }
        ensures len { OnOk result (length self.new ≡ length self.old + 1) }
        ensures keeps { Keeps table_owns (table_seen self.old)
            (table_seen self.new) notes.old.made notes.new.made }
        ensures named { (p : Place) → named notes.new.made p ≡ None
            → named notes.old.made p ≡ None }
        ensures numbers { notes.old.numbers ≤ notes.new.numbers }
        ensures completions { notes.old.completions ≤ notes.new.completions }
        ensures others { notes.old.others ≤ notes.new.others + 1 }
    {
        let r = self.rows.len();
        self.index.make_room(&self.rows, &row)?;
        self.finder.make_room(&self.rows)?;
        notes.note_row(r as u32, None)?;
        self.rows.push(row)?;
        count(&mut self.held, &row);
        self.index.enter(&self.rows, r);
        self.finder.add(r, &row);
        Ok(())
    }

    /// Sets the phase of a request.
    pub fn set_phase(
        &mut self,
        r: u32,
        phase: Phase,
        notes: &mut Recorder,
    ) -> Result<(), AllocError>
        requires { r < length self.old }
        ensures ok { OnOk result (self.new
            ≡ updated (λ row. record row { phase = phase }) self.old r) }
        ensures err { OnErr result (self.new ≡ self.old) }
        ensures len { length self.new ≡ length self.old }
        ensures stay { Stay self.old self.new }
        ensures keeps { Keeps table_owns (table_seen self.old)
            (table_seen self.new) notes.old.made notes.new.made }
        ensures numbers { notes.old.numbers ≤ notes.new.numbers }
        ensures completions { notes.old.completions ≤ notes.new.completions }
        ensures others { notes.old.others ≤ notes.new.others + 1 }
    {
        let row = self.row(r);
        notes.note_row(r, Some(row))?;
        self.set(r as usize, Row { phase, ..row });
        Ok(())
    }

    /// Issues a request. It holds the descriptor, if one is given, until it completes. `base` is
    /// the number of completions counted so far.
    pub fn issue(
        &mut self,
        r: u32,
        held: Option<u32>,
        deadline: Option<u128>,
        base: u32,
        notes: &mut Recorder,
    ) -> Result<(), AllocError>
        requires { r < length self.old }
        ensures ok { OnOk result (self.new
            ≡ updated
            (λ row. record row { phase = Issued; held = held; deadline = deadline; base = base })
            self.old r) }
        ensures err { OnErr result (self.new ≡ self.old) }
        ensures len { length self.new ≡ length self.old }
        ensures stay { Stay self.old self.new }
        ensures keeps { Keeps table_owns (table_seen self.old)
            (table_seen self.new) notes.old.made notes.new.made }
        ensures numbers { notes.old.numbers ≤ notes.new.numbers }
        ensures completions { notes.old.completions ≤ notes.new.completions }
        ensures others { notes.old.others ≤ notes.new.others + 1 }
    {
        let queued = self.row(r);
        notes.note_row(r, Some(queued))?;
        let issued = Row {
            phase: Phase::Issued,
            held,
            deadline,
            base,
            ..queued
        };
        self.set(r as usize, issued);
        Ok(())
    }

    /// Replaces a request, and updates the counts and the index.
    #[inline(always)]
    fn set(&mut self, r: usize, after: Row)
        requires { option_map fixed_of (slice_get self.old r) ≡ Some (fixed_of after) }
        ensures { self.new ≡ slice_set self.old r after }
    {
        take_off(&mut self.held, &self.rows[r]);
        count(&mut self.held, &after);
        self.rows.set(r, after);
        self.index.change(&self.rows, r);
        self.finder.mark(r, &after);
    }

    /// Drops the requests from a number on, without an allocation, in time linear in how many they
    /// are.
    pub fn truncate(&mut self, n: usize)
        ensures { self.new ≡ take n self.old }
    {
        let count = self.rows.len();
        if n < count {
            take_all_off(&mut self.held, &self.rows, n);
            self.finder.cut(&self.rows, n);
            self.rows.truncate(n);
            self.index.cut(&self.rows, count);
        }
    }

    /// Copies the table.
    pub fn copy(&self, alloc: Global) -> Result<Table, AllocError>
        ensures { IfOk result (λ table. table ≡ self.now) }
    {
        Ok(Table {
            rows: self.rows.copy(alloc)?,
            held: self.held,
            index: self.index.copy(alloc)?,
            finder: self.finder.copy(alloc)?,
        })
    }
}

/// Builds the queued request of an entry. `unit` is the number of the chain's first request, `time`
/// the timeout read from memory, and `target` the request that a linked timeout limits.
pub fn new_row(entry: Sqe, unit: u32, time: Option<u128>, target: Option<u32>) -> Row
    ensures { result ≡ new_row_of entry unit time target }
{
    Row {
        deadline: None,
        time,
        entry,
        base: 0,
        unit,
        target,
        held: None,
        phase: Phase::Queued,
    }
}
