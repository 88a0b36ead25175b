//! Counts with their nouns, as in `1 byte` and `2 bytes`.

use std::fmt;

/// A count, and its noun in the singular and in the plural.
#[derive(Clone, Copy)]
pub struct Counted {
    count: u64,
    one: &'static str,
    several: &'static str,
}

impl Counted {
    fn new(count: u64, one: &'static str, several: &'static str) -> Counted {
        Counted {
            count,
            one,
            several,
        }
    }

    pub fn bytes(count: u64) -> Counted {
        Counted::new(count, "byte", "bytes")
    }

    pub fn completions(count: u64) -> Counted {
        Counted::new(count, "completion", "completions")
    }

    pub fn entries(count: u64) -> Counted {
        Counted::new(count, "entry", "entries")
    }

    pub fn rows(count: u64) -> Counted {
        Counted::new(count, "row", "rows")
    }

    pub fn slots(count: u64) -> Counted {
        Counted::new(count, "slot", "slots")
    }

    pub fn threads(count: u64) -> Counted {
        Counted::new(count, "thread", "threads")
    }
}

impl fmt::Display for Counted {
    fn fmt<W: fmt::Write>(&self, f: &mut fmt::Formatter<W>) -> fmt::Result {
        let count = self.count;
        let noun = if count == 1 { self.one } else { self.several };
        write!(f, "{count} {noun}")
    }
}
