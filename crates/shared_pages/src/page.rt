//! A page of elements that shares its contents with copies until it is written.
ghost use Rattle.std.specs.Prelude.{◌≡◌, ◌<◌, ◌≤◌, ◌+◌, ◌++◌, length, take, drop, slice_set, IfOk, option_map};
ghost use Rattle.shared_pages.specs.Pages.{shown, IsWhole};

use crate::pieces::{copied, copy_over};
use std::alloc::{AllocError, Global};
use std::marker::Model;
use std::sync::Arc;

/// A page: a list of fixed length. Its contents are in its own storage, or in storage that it
/// shares and never writes to. The first write copies shared contents to its own storage, which is
/// there already, so no write allocates. Contracts see it as its list of elements.
#[derive(Drop)]
pub struct Page<T> {
    /// Its own storage.
    own: Vec<T>,
    /// A copy that others may share. It is equal to the contents.
    shared: Option<Arc<Vec<T>>>,
    /// Whether the contents are the shared copy, and not in its own storage.
    is_lent: bool,
}

impl<T> Model for Page<T> {
    ghost use Rattle.std.specs.Prelude.{List, option_map};
    ghost use Rattle.shared_pages.specs.Pages.{shown, IsWhole};

    ghost Value = { List T };

    ghost view = { λ a. shown a.is_lent (option_map (λ s. s.value.items) a.shared) a.own.items };

    ghost invariant = { λ a. IsWhole a.is_lent (option_map (λ s. s.value.items) a.shared)
        a.own.items };
}

impl<T: Copy> Page<T> {
    /// Returns a page with these contents. Allocates nothing.
    pub fn new(own: Vec<T>) -> Page<T>
        ensures { result ≡ own.items }
    {
        Page {
            own,
            shared: None,
            is_lent: false,
        }
    }

    /// Returns the number of elements.
    pub fn len(&self) -> usize
        ensures { result ≡ length self.now }
    {
        self.own.len()
    }

    /// Returns the elements.
    #[inline]
    pub fn as_slice(&self) -> &[T]
        ensures { result.now ≡ self.now }
    {
        if self.is_lent {
            if let Some(shared) = &self.shared {
                return shared.as_slice();
            }
        }
        &self.own
    }

    /// Replaces the contents with a shared copy. Allocates nothing.
    pub fn lend(&mut self, shared: Arc<Vec<T>>)
        requires { length self.old ≡ length shared.value.items }
        ensures { self.new ≡ shared.value.items }
    {
        self.shared = Some(shared);
        self.is_lent = true;
    }

    /// Assigns an element. Allocates nothing.
    #[inline]
    pub fn set(&mut self, at: usize, element: T)
        requires { at < length self.old }
        ensures { self.new ≡ slice_set self.old at element }
    {
        fill(&mut self.own, self.is_lent, &self.shared);
        self.is_lent = false;
        self.shared = None;
        self.own[at] = element;
    }

    /// Writes elements from an index on. Allocates nothing.
    pub fn overwrite(&mut self, at: usize, others: &[T])
        requires { at + length others.now ≤ length self.old }
        ensures { self.new ≡ take at self.old
            ++ (others.now ++ drop (at + length others.now) self.old) }
    {
        fill(&mut self.own, self.is_lent, &self.shared);
        self.is_lent = false;
        self.shared = None;
        let end = at + others.len();
        self.own[at..end].copy_from_slice(others);
    }

    /// Returns a copy with storage of its own.
    pub fn copy(&self, alloc: Global) -> Result<Page<T>, AllocError>
        ensures { IfOk result (λ page. page ≡ self.now) }
    {
        Ok(Page::new(copied(alloc, self.as_slice())?))
    }

    /// Returns a copy that shares the contents. Copies them only if they were written since the
    /// last copy.
    pub fn keep(&mut self, alloc: Global) -> Result<Arc<Vec<T>>, AllocError>
        ensures ok { IfOk result (λ k. k.value.items ≡ self.old) }
        ensures same { self.new ≡ self.old }
    {
        if let Some(shared) = &self.shared {
            return Arc::try_clone(shared);
        }
        let copy = copied(alloc, &self.own)?;
        let Ok(shared) = Arc::new(alloc, copy) else {
            return Err(AllocError);
        };
        let theirs = Arc::try_clone(&shared)?;
        self.shared = Some(shared);
        Ok(theirs)
    }

    /// Returns a page with the contents of a shared copy, in the storage of `room` if that has the
    /// same length. Then it copies no elements and allocates nothing.
    pub fn restore(
        alloc: Global,
        shared: &Arc<Vec<T>>,
        room: Option<Page<T>>,
    ) -> Result<Page<T>, AllocError>
        ensures { IfOk result (λ page. page ≡ shared.now.value.items) }
    {
        match room {
            Some(mut page) if page.len() == shared.len() => {
                page.lend(Arc::try_clone(shared)?);
                Ok(page)
            }
            _ => Ok(Page::new(copied(alloc, shared.as_slice())?)),
        }
    }
}

// Copies shared contents to a page's own storage, if they are what it shows.
fn fill<T: Copy>(own: &mut Vec<T>, is_lent: bool, shared: &Option<Arc<Vec<T>>>)
    requires { IsWhole is_lent (option_map (λ s. s.value.items) shared.now) own.old.items }
    ensures { own.new.items
        ≡ shown is_lent (option_map (λ s. s.value.items) shared.now) own.old.items }
{
    if !is_lent {
        return;
    }
    if let Some(shared) = shared {
        copy_over(own, shared.as_slice());
    }
}
