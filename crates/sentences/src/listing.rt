//! Lists of rows in sentences.

use crate::run::Run;
use std::alloc::{AllocError, Global};

/// How many rows a list names.
const NAMED: u32 = 8;

/// A list under construction: the names of its first rows, and how many rows it has.
#[derive(Drop)]
pub(super) struct Listing {
    text: String,
    count: u32,
}

impl Listing {
    pub fn new(alloc: Global) -> Listing {
        Listing {
            text: String::new(alloc),
            count: 0,
        }
    }

    /// Adds a row.
    pub fn add(&mut self, run: &Run<'_>, number: u32) -> Result<(), AllocError> {
        self.count = self.count.saturating_add(1);
        if self.count > NAMED {
            return Ok(());
        }
        let Some(name) = run.name(number) else {
            return Ok(());
        };
        if !self.text.is_empty() {
            self.text.push_str(", ")?;
        }
        self.text
            .push_str(format!(in run.alloc(); "row {name}")?.as_str())
    }

    /// Returns the names, separated by commas, and how many more rows there are.
    pub fn finish(self, alloc: Global) -> Result<String, AllocError> {
        let Listing { mut text, count } = self;
        if count > NAMED {
            let more = count - NAMED;
            text.push_str(format!(in alloc; " and {more} more")?.as_str())?;
        }
        Ok(text)
    }
}
