//! Lists in pages, whose copies share the pages that were not written since.
ghost use Rattle.std.specs.Prelude.{◌≡◌, ℕ, ◌+◌, ◌*◌, ◌^◌, ◌<◌, ◌≤◌, ◌==◌, [], ◌∷◌, ◌++◌, ◌-◌, replicate, take, Some, IfOk, OnOk, OnErr, length, map, slice_get, slice_index_or, slice_set};
ghost use Rattle.std.specs.Option.{option_copied};
ghost use Rattle.shared_pages.specs.Lists.{elements, IsPaged};

use crate::page::Page;
use crate::shared::SharedList;
use std::alloc::{AllocError, Global};
use std::marker::Model;
use std::ops::Index;
use std::sync::Arc;

/// A list in pages of N elements. Contracts see it as its list of elements.
#[derive(Drop)]
pub struct PagedList<T, const N: usize> {
    /// Elements past the end are storage for later ones.
    pub(crate) pages: Vec<Page<T>>,
    pub(crate) len: usize,
}

impl<T, const N: usize> Model for PagedList<T, N> {
    ghost use Rattle.std.specs.Prelude.{List};
    ghost use Rattle.shared_pages.specs.Lists.{elements, IsPaged};

    ghost Value = { List T };

    ghost view = { λ a. elements a.len a.pages.items };

    ghost invariant = { λ a. IsPaged N a.len a.pages.items };
}

impl<T: Copy, const N: usize> PagedList<T, N> {
    /// Returns an empty list. Allocates nothing.
    pub fn new(alloc: Global) -> PagedList<T, N>
        requires { 0 < N }
        ensures { result ≡ [] }
    {
        PagedList {
            pages: Vec::new(alloc),
            len: 0,
        }
    }

    /// Returns the allocator of the list.
    pub fn allocator(&self) -> Global {
        *self.pages.allocator()
    }

    /// Returns the number of elements.
    pub fn len(&self) -> usize
        ensures { result ≡ length self.now }
    {
        self.len
    }

    /// Returns whether the list has no elements.
    pub fn is_empty(&self) -> bool
        ensures { result ≡ (length self.now == 0) }
    {
        self.len == 0
    }

    /// Returns an element, if it is there.
    #[inline]
    pub fn get(&self, i: usize) -> Option<&T>
        ensures { option_copied result ≡ slice_get self.now i }
    {
        if i < self.len { Some(&self[i]) } else { None }
    }

    /// Assigns an element. Allocates nothing.
    #[inline]
    pub fn set(&mut self, i: usize, element: T)
        requires { i < length self.old }
        ensures { self.new ≡ slice_set self.old i element }
    {
        let page = &mut self.pages[i / N];
        page.set(i % N, element);
    }

    /// Adds an element at the end. If an allocation fails, the list is unchanged.
    pub fn push(&mut self, element: T) -> Result<(), AllocError>
        requires { length self.old + 1 < 2 ^ 64 }
        ensures ok { OnOk result (self.new ≡ self.old ++ element ∷ []) }
        ensures err { OnErr result (self.new ≡ self.old) }
    {
        make_room(&mut self.pages, self.len, N, element)?;
        let page = &mut self.pages[self.len / N];
        page.set(self.len % N, element);
        self.len += 1;
        Ok(())
    }

    /// Adds copies of an element until there are n elements. If an allocation fails, some may have
    /// been added.
    pub fn grow(&mut self, n: usize, element: T) -> Result<(), AllocError>
        ensures { OnOk result (self.new ≡ self.old ++ replicate (n - length self.old) element) }
    {
        while self.len() < n {
            self.push(element)?;
        }
        Ok(())
    }

    /// Drops the elements from number n on, and keeps their storage. Constant time.
    pub fn truncate(&mut self, n: usize)
        ensures { self.new ≡ take n self.old }
    {
        if n < self.len {
            self.len = n;
        }
    }

    /// Copies the list.
    pub fn copy(&self, alloc: Global) -> Result<PagedList<T, N>, AllocError>
        ensures { IfOk result (λ list. list ≡ self.now) }
    {
        let mut pages = Vec::with_capacity(alloc, self.pages.len())?;
        for page in &self.pages {
            pages.push(page.copy(alloc)?)?;
        }
        Ok(PagedList {
            pages,
            len: self.len,
        })
    }

    /// Returns a copy that shares the pages. Only those that were written since the last such copy
    /// are copied.
    pub fn share(&mut self, alloc: Global) -> Result<SharedList<T, N>, AllocError>
        ensures same { self.new ≡ self.old }
        ensures ok { IfOk result (λ list. list ≡ self.old) }
    {
        let pages = share_pages(&mut self.pages, pages_of(self.len, N), alloc)?;
        Ok(SharedList {
            pages,
            len: self.len,
        })
    }
}

impl<T: Copy, const N: usize> Index<usize> for PagedList<T, N> {
    type Output = T;

    ghost can_index = { λ v i. i < length v };

    ghost index_gives = { λ v i x. x ≡ slice_index_or v i x };

    #[inline]
    fn index(&self, i: usize) -> &T
        requires { i < length self.now }
        ensures { result.now ≡ slice_index_or self.now i result.now }
    {
        let page = &self.pages[i / N];
        &page.as_slice()[i % N]
    }
}

// Adds a page of n elements, if there is no room for one more than `len`.
fn make_room<T: Copy>(
    pages: &mut Vec<Page<T>>,
    len: usize,
    n: usize,
    element: T,
) -> Result<(), AllocError>
    requires { IsPaged n len pages.old.items }
    ensures room { OnOk result (len < n * length pages.new.items) }
    ensures paged { IsPaged n len pages.new.items }
    ensures same { elements len pages.new.items ≡ elements len pages.old.items }
{
    if len / n >= pages.len() {
        let page = Vec::from_elem(*pages.allocator(), element, n)?;
        pages.push(Page::new(page))?;
    }
    Ok(())
}

// Returns copies of the first pages, which share their elements.
fn share_pages<T: Copy>(
    pages: &mut Vec<Page<T>>,
    count: usize,
    alloc: Global,
) -> Result<Vec<Arc<Vec<T>>>, AllocError>
    requires { count ≤ length pages.old.items }
    ensures same { pages.new.items ≡ pages.old.items }
    ensures ok { IfOk result (λ shared. map (λ s. s.value.items) shared.items
        ≡ take count pages.old.items) }
{
    let mut shared = Vec::with_capacity(alloc, count)?;
    for k in 0..count {
        let page = &mut pages[k];
        shared.push(page.keep(alloc)?)?;
    }
    Ok(shared)
}

// Returns how many pages of n elements contain `len` elements.
fn pages_of(len: usize, n: usize) -> usize
    requires { 0 < n }
    ensures enough { len ≤ n * result }
    ensures least { (k : ℕ) → len ≤ n * k → result ≤ k }
{
    let whole = len / n;
    if len % n == 0 { whole } else { whole + 1 }
}
