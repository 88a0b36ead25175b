//! Unpacked notes of numbers, completions and rows, as a record holds them if packing them failed.
ghost use Rattle.std.specs.Prelude.{◌≡◌, [], OnOk, IsOk, true, false};

use crate::notes::completions::CompletionNote;
use crate::notes::kept::Kept;
use crate::notes::numbers::NumberNote;
use crate::notes::rows::RowNote;
use std::alloc::{AllocError, Global};
use std::marker::Model;

/// The notes, in the memory in which they were made.
#[derive(Drop)]
pub struct Kinds {
    pub(crate) numbers: Vec<NumberNote>,
    pub(crate) completions: Vec<CompletionNote>,
    pub(crate) rows: Vec<RowNote>,
    /// The notes of the rarer kinds, if the record has both.
    pub(crate) rest: Kept,
}

impl Kinds {
    /// Returns how many bytes of memory the notes take, this struct included.
    pub fn kept_bytes(&self) -> usize {
        size_of::<Kinds>()
            .saturating_add(size_of::<NumberNote>().saturating_mul(self.numbers.capacity()))
            .saturating_add(size_of::<CompletionNote>().saturating_mul(self.completions.capacity()))
            .saturating_add(size_of::<RowNote>().saturating_mul(self.rows.capacity()))
            .saturating_add(self.rest.kept_bytes())
    }
}

/// A box for unpacked notes, which may not be allocated yet.
#[derive(Drop)]
pub struct Wide {
    pub(crate) kinds: Option<Box<Kinds>>,
}

impl Model for Wide {
    ghost use Rattle.places.specs.WideList.{WideList};

    ghost Value = { WideList };

    ghost use Rattle.places.specs.WideOf.{wide_of};

    ghost view = { λ a. wide_of a.kinds };
}

impl Wide {
    /// Returns no box. Allocates nothing.
    pub fn new() -> Wide
        ensures numbers { result.numbers ≡ [] }
        ensures completions { result.completions ≡ [] }
        ensures rows { result.rows ≡ [] }
    {
        Wide { kinds: None }
    }

    /// Allocates the box, if it is missing. A recorder does this before it adds a note of these
    /// kinds, so that closing cannot fail.
    pub fn ready(&mut self, alloc: Global) -> Result<(), AllocError>
        ensures ok { OnOk result (self.new.is_ready ≡ true) }
        ensures there { self.old.is_ready ≡ true → IsOk result }
        ensures kept { self.old.is_ready ≡ true → self.new.is_ready ≡ true }
    {
        if self.kinds.is_some() {
            return Ok(());
        }
        self.allocate(alloc)
    }

    // A function of its own, so that the test is inlined.
    #[inline(never)]
    fn allocate(&mut self, alloc: Global) -> Result<(), AllocError>
        requires { self.old.is_ready ≡ false }
        ensures { OnOk result (self.new.is_ready ≡ true) }
    {
        let kinds = Kinds {
            numbers: Vec::new(alloc),
            completions: Vec::new(alloc),
            rows: Vec::new(alloc),
            rest: Kept::new(),
        };
        self.kinds = Some(Box::new(alloc, kinds)?);
        Ok(())
    }

    /// Moves notes into the box, and frees the memory that they do not use.
    pub fn with(
        self,
        mut numbers: Vec<NumberNote>,
        mut completions: Vec<CompletionNote>,
        mut rows: Vec<RowNote>,
    ) -> Wide
        ensures numbers { (self.is_ready ≡ false → numbers.items ≡ [])
            → result.numbers ≡ numbers.items }
        ensures completions { (self.is_ready ≡ false → completions.items ≡ [])
            → result.completions ≡ completions.items }
        ensures rows { (self.is_ready ≡ false → rows.items ≡ []) → result.rows ≡ rows.items }
    {
        match self.kinds {
            None => Wide { kinds: None },
            Some(mut kinds) => {
                numbers.shrink_to_fit();
                completions.shrink_to_fit();
                rows.shrink_to_fit();
                *kinds = Kinds {
                    numbers,
                    completions,
                    rows,
                    rest: Kept::new(),
                };
                Wide { kinds: Some(kinds) }
            }
        }
    }
}
