//! Tracking of the pages of a file that may not be durable.
ghost use Rattle.std.specs.Prelude.{◌≡◌, ◌+◌, ◌*◌, ◌<◌, ◌≤◌, ◌⊎◌, ℕ, Some, false, length, replicate, slice_get};
ghost use Rattle.model_files.specs.Pages.{Agree};

use crate::bytes::{MOST_BYTES, overwrite};
use shared_pages::Page;

/// The size of a page in bytes.
pub(crate) const PAGE: usize = 4096;

/// The maximum number of pages of a file.
pub(crate) const PAGES: usize = 16;

/// Marks for the pages in which the current and the durable contents of a file may differ.
#[derive(Clone, Copy)]
pub(crate) struct Pages {
    marks: [bool; 16],
}

impl Pages {
    /// Returns no marks.
    pub(crate) fn none() -> Pages
        ensures { result.marks ≡ replicate 16 false }
    {
        Pages { marks: [false; 16] }
    }

    /// Returns whether a page is marked.
    pub(crate) fn is_marked(&self, page: usize) -> bool
        requires { page < 16 }
        ensures { slice_get self.now.marks page ≡ Some result }
    {
        self.marks[page]
    }

    /// Marks the pages of `count` bytes from index `at` on.
    pub(crate) fn mark(&mut self, at: usize, count: usize)
        requires some { 0 < count }
        requires within { at + count ≤ 65536 }
        ensures kept { (page : ℕ) → slice_get self.new.marks page ≡ Some false
            → slice_get self.old.marks page ≡ Some false }
        ensures apart { (page : ℕ) → slice_get self.new.marks page ≡ Some false
            → (page * 4096 + 4096 ≤ at) ⊎ (at + count ≤ page * 4096) }
    {
        for page in at / PAGE..(at + count - 1) / PAGE + 1 {
            self.marks[page] = true;
        }
    }

    /// The same, but ignores bytes past the maximum size of a file.
    pub(crate) fn mark_within(&mut self, at: usize, count: usize)
        ensures kept { (page : ℕ) → slice_get self.new.marks page ≡ Some false
            → slice_get self.old.marks page ≡ Some false }
        ensures apart { (page i : ℕ) → slice_get self.new.marks page ≡ Some false → page * 4096 ≤ i
            → i < page * 4096 + 4096 → i < 65536 → (i < at) ⊎ (at + count ≤ i) }
    {
        let from = at.min(MOST_BYTES);
        let most = MOST_BYTES - from;
        let within = count.min(most);
        if within > 0 {
            self.mark(from, within);
        }
    }

    /// Copies each marked page to the durable contents.
    pub(crate) fn sync_into(&self, bytes: &[u8], durable: &mut Page<u8>)
        requires bytes { length bytes.now ≡ 65536 }
        requires durable { length durable.old ≡ 65536 }
        requires clean { Agree self.now.marks bytes.now durable.old }
        ensures { durable.new ≡ bytes.now }
    {
        for page in 0..PAGES {
            self.sync_page(page, bytes, durable);
        }
    }

    fn sync_page(&self, page: usize, bytes: &[u8], durable: &mut Page<u8>)
        requires page { page < 16 }
        requires bytes { length bytes.now ≡ 65536 }
        requires durable { length durable.old ≡ 65536 }
        requires clean { (i : ℕ) → slice_get self.now.marks page ≡ Some false → page * 4096 ≤ i
            → i < page * 4096 + 4096 → slice_get bytes.now i ≡ slice_get durable.old i }
        ensures len { length durable.new ≡ 65536 }
        ensures before { (i : ℕ) → i < page * 4096
            → slice_get durable.new i ≡ slice_get durable.old i }
        ensures there { (i : ℕ) → page * 4096 ≤ i → i < page * 4096 + 4096
            → slice_get durable.new i ≡ slice_get bytes.now i }
        ensures after { (i : ℕ) → page * 4096 + 4096 ≤ i
            → slice_get durable.new i ≡ slice_get durable.old i }
    {
        if self.is_marked(page) {
            let start = page * PAGE;
            overwrite(durable, start, &bytes[start..start + PAGE]);
        }
    }
}
