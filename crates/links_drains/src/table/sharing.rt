//! Copies of the table that share its pages.
ghost use Rattle.std.specs.Prelude.{◌≡◌, IfOk};

use super::{ROWS, Rows, Table};
use crate::finder::Finder;
use crate::finder::sharing::SharedFinder;
use crate::index::Index;
use entries::Row;
use model_files::Held;
use shared_pages::SharedList;
use std::alloc::{AllocError, Global};
use std::marker::Model;

/// A copy of a table. Contracts see it as its list of requests.
pub struct SharedTable {
    rows: SharedList<Row, ROWS>,
    held: Held,
    index: Index,
    finder: SharedFinder,
}

// Written by hand, so that dropping it is one step of a proof.
impl Drop for SharedTable {
    fn drop(self) {
        let SharedTable {
            rows: _,
            held: _,
            index: _,
            finder: _,
        } = self;
    }
}

impl Model for SharedTable {
    ghost use Rattle.std.specs.Prelude.{List};
    ghost use Rattle.entries.specs.declared.row.Row.{Row};

    ghost Value = { List Row };

    ghost view = { λ a. a.rows };

    ghost use Rattle.links_drains.specs.Tables.{Formed};
    ghost use Rattle.links_drains.specs.Sharing.{finder_in};

    ghost invariant = { λ a. Formed a.rows a.held a.index (finder_in a.finder) };
}

impl Table {
    /// Returns a copy that shares the pages. Only the pages that were written since the last such
    /// copy are copied.
    pub fn share(&mut self, alloc: Global) -> Result<SharedTable, AllocError>
        ensures same { self.new ≡ self.old }
        ensures ok { IfOk result (λ copy. copy ≡ self.old) }
    {
        Ok(SharedTable {
            rows: self.rows.share(alloc)?,
            held: self.held,
            index: self.index.copy(alloc)?,
            finder: self.finder.share(alloc)?,
        })
    }

    // Returns its storage.
    fn into_storage(self) -> (Rows, Finder) {
        let Table {
            rows,
            held: _,
            index: _,
            finder,
        } = self;
        (rows, finder)
    }
}

impl SharedTable {
    /// Returns a table that shows the copy, in the storage of another table if one is given.
    /// Copies the index. Of the rows, allocates only the pages that it lacks.
    pub fn restore(&self, alloc: Global, room: Option<Table>) -> Result<Table, AllocError>
        ensures { IfOk result (λ table. table ≡ self.now) }
    {
        let table = match room {
            Some(table) => table,
            None => Table::new(alloc),
        };
        let (rows, finder) = table.into_storage();
        Ok(Table {
            rows: self.rows.restore(rows)?,
            held: self.held,
            index: self.index.copy(alloc)?,
            finder: self.finder.restore(alloc, finder)?,
        })
    }
}
