//! The instructions and the events on the lines of a source.

use source_map::{Item, Position, SourceMap};
use std::alloc::{AllocError, Global};
use stops::Site;

/// A trace has a source of this many lines at most.
pub(crate) const MOST_LINES: usize = 65536;

/// An instruction or an event, and where it is.
#[derive(Clone, Copy)]
pub(crate) struct Located {
    pub(crate) site: Site,
    pub(crate) start: Position,
    pub(crate) end: Position,
}

/// A line, and a column of it if the editor gives one; both from 1.
#[derive(Clone, Copy)]
pub(crate) struct Wish {
    pub(crate) line: usize,
    pub(crate) column: Option<usize>,
}

fn placed(site: Site, item: Item) -> Located {
    Located {
        site,
        start: item.start,
        end: item.end,
    }
}

// Returns whether a position is before another.
fn is_before(one: Position, other: Position) -> bool {
    one.line < other.line || (one.line == other.line && one.column < other.column)
}

impl Wish {
    // Returns whether an item is one that starts on the line, at the column or after it.
    fn starts(self, item: Located) -> bool {
        item.start.line == self.line && self.column.unwrap_or(1) <= item.start.column
    }

    // Returns whether an item covers the line, or the column of it.
    fn is_in(self, item: Located) -> bool {
        match self.column {
            None => item.start.line <= self.line && self.line <= item.end.line,
            Some(column) => {
                let here = Position {
                    line: self.line,
                    column,
                };
                !is_before(here, item.start) && is_before(here, item.end)
            }
        }
    }

    // Returns how well an item fits: the smaller, the better.
    fn rank(self, item: Located) -> u32 {
        match (self.column, self.starts(item), self.is_in(item)) {
            (None, true, _) => 0,
            (Some(_), _, true) => 0,
            (_, true, _) => 1,
            (_, _, true) => 1,
            _ => 2,
        }
    }

    // Returns whether an item fits better than another.
    fn prefers(self, item: Located, other: Located) -> bool {
        let (one, two) = (self.rank(item), self.rank(other));
        one < two || (one == two && is_before(item.start, other.start))
    }

    // Returns the better of two items.
    fn better(self, item: Located, best: Option<Located>) -> Option<Located> {
        if self.rank(item) > 1 {
            return best;
        }
        match best {
            Some(best) if !self.prefers(item, best) => Some(best),
            _ => Some(item),
        }
    }

    fn best_event(self, items: &[Item], best: Option<Located>) -> Option<Located> {
        let mut best = best;
        for (index, item) in items.iter().enumerate() {
            best = self.better(placed(Site::Event(index), *item), best);
        }
        best
    }

    fn best_instruction(
        self,
        thread: u32,
        items: &[Item],
        best: Option<Located>,
    ) -> Option<Located> {
        let mut best = best;
        let mut index: u32 = 0;
        for item in items {
            best = self.better(placed(Site::Instruction(thread, index), *item), best);
            index = index.saturating_add(1);
        }
        best
    }

    /// Returns the first item on the line, or else the one that covers it.
    pub(crate) fn find(self, map: &SourceMap) -> Option<Located> {
        let mut best = None;
        let mut thread: u32 = 0;
        for items in map.threads.as_slice() {
            best = self.best_instruction(thread, items.as_slice(), best);
            thread = thread.saturating_add(1);
        }
        self.best_event(map.schedule.as_slice(), best)
    }
}

// Returns whether an item starts at a position or after it, and not after another one.
fn is_between(item: Located, first: Wish, last: Wish) -> bool {
    let least = Position {
        line: first.line,
        column: first.column.unwrap_or(1),
    };
    let most = Position {
        line: last.line,
        column: last.column.unwrap_or(usize::MAX),
    };
    !is_before(item.start, least) && !is_before(most, item.start)
}

// Adds an item, if it starts in a range.
fn add(list: &mut Vec<Located>, item: Located, first: Wish, last: Wish) -> Result<(), AllocError> {
    if is_between(item, first, last) {
        list.push(item)?;
    }
    Ok(())
}

fn add_instructions(
    list: &mut Vec<Located>,
    thread: u32,
    items: &[Item],
    first: Wish,
    last: Wish,
) -> Result<(), AllocError> {
    let mut index: u32 = 0;
    for item in items {
        add(
            list,
            placed(Site::Instruction(thread, index), *item),
            first,
            last,
        )?;
        index = index.saturating_add(1);
    }
    Ok(())
}

/// Returns the items that start in a range of a script, its events first.
pub(crate) fn items_between(
    alloc: Global,
    map: &SourceMap,
    first: Wish,
    last: Wish,
) -> Result<Vec<Located>, AllocError> {
    let mut list = Vec::new(alloc);
    for (index, item) in map.schedule.as_slice().iter().enumerate() {
        add(&mut list, placed(Site::Event(index), *item), first, last)?;
    }
    let mut thread: u32 = 0;
    for items in map.threads.as_slice() {
        add_instructions(&mut list, thread, items.as_slice(), first, last)?;
        thread = thread.saturating_add(1);
    }
    Ok(list)
}

/// Returns the events that start in a range of a trace's source.
pub(crate) fn events_between(
    alloc: Global,
    len: usize,
    first: Wish,
    last: Wish,
) -> Result<Vec<Located>, AllocError> {
    let mut list = Vec::new(alloc);
    for index in 0..len {
        if let Some(item) = event_line(index + 1, len) {
            add(&mut list, item, first, last)?;
        }
    }
    Ok(list)
}

/// Returns the event on a line of a trace's source.
pub(crate) fn event_line(line: usize, len: usize) -> Option<Located> {
    if line == 0 || len < line || MOST_LINES < len {
        return None;
    }
    Some(Located {
        site: Site::Event(line - 1),
        start: Position { line, column: 1 },
        end: Position { line, column: 1 },
    })
}
