//! Copies of lists that share pages.
ghost use Rattle.std.specs.Prelude.{◌≡◌, ℕ, ◌≤◌, IfOk, OnOk, length, map};
ghost use Rattle.shared_pages.specs.Lists.{Extends};

use crate::list::PagedList;
use crate::page::Page;
use crate::pieces::copied;
use std::alloc::AllocError;
use std::marker::Model;
use std::sync::Arc;

/// A copy of a paged list. Contracts see it as its list of elements.
#[derive(Drop)]
pub struct SharedList<T, const N: usize> {
    pub(crate) pages: Vec<Arc<Vec<T>>>,
    pub(crate) len: usize,
}

impl<T, const N: usize> Model for SharedList<T, N> {
    ghost use Rattle.std.specs.Prelude.{List, map};
    ghost use Rattle.shared_pages.specs.Lists.{elements, IsPaged};

    ghost Value = { List T };

    ghost view = { λ a. elements a.len (map (λ s. s.value.items) a.pages.items) };

    ghost invariant = { λ a. IsPaged N a.len (map (λ s. s.value.items) a.pages.items) };
}

impl<T: Copy, const N: usize> SharedList<T, N> {
    /// Returns a list that shows the copy, in the storage of another list. Allocates only pages
    /// that the other list lacks, and copies no other page.
    pub fn restore(&self, room: PagedList<T, N>) -> Result<PagedList<T, N>, AllocError>
        ensures { IfOk result (λ list. list ≡ self.now) }
    {
        let PagedList { mut pages, len: _ } = room;
        add_pages(&mut pages, &self.pages)?;
        for k in 0..self.pages.len() {
            let page = &mut pages[k];
            page.lend(Arc::try_clone(&self.pages[k])?);
        }
        Ok(PagedList {
            pages,
            len: self.len,
        })
    }
}

// Adds pages with storage of their own until there are as many as the copy has.
fn add_pages<T: Copy>(pages: &mut Vec<Page<T>>, copy: &[Arc<Vec<T>>]) -> Result<(), AllocError>
    ensures extends { Extends (map (λ s. s.value.items) copy.now) pages.old.items
        pages.new.items }
    ensures room { OnOk result (length copy.now ≤ length pages.new.items) }
{
    let alloc = *pages.allocator();
    for k in pages.len()..copy.len() {
        let page = copied(alloc, copy[k].as_slice())?;
        pages.push(Page::new(page))?;
    }
    Ok(())
}
