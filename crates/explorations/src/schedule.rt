//! Schedules as lines of JSON.

use entries::Choice;
use scenario::Event;
use serde::Serialize;
use std::alloc::{AllocError, Global};

/// An event as a schedule has it: a list of its word and its numbers.
#[derive(Clone, Copy, Serialize)]
#[serde(untagged)]
pub(crate) enum EventItem {
    Word((&'static str,)),
    Number((&'static str, u64)),
    Choice((&'static str, u32, &'static str)),
    Short((&'static str, u32, &'static str, u32)),
}

// Returns the completion of a request as a schedule has it.
fn finish_item(row: u32, choice: Choice) -> EventItem {
    match choice {
        Choice::Full => EventItem::Number(("finish", u64::from(row))),
        Choice::Short(bytes) => EventItem::Short(("finish", row, "short", bytes)),
        Choice::Eio => EventItem::Choice(("finish", row, "eio")),
    }
}

// Returns an event as a schedule has it.
fn item_of(event: Event) -> EventItem {
    match event {
        Event::Step(thread) => EventItem::Number(("step", u64::from(thread))),
        Event::Take(entries) => EventItem::Number(("take", u64::from(entries))),
        Event::Sleep => EventItem::Word(("sleep",)),
        Event::Issue(row) => EventItem::Number(("issue", u64::from(row))),
        Event::Finish(row, choice) => finish_item(row, choice),
        Event::Expire(row) => EventItem::Number(("expire", u64::from(row))),
        Event::Tick(nanoseconds) => EventItem::Number(("tick", nanoseconds)),
    }
}

/// Returns events as the items of a schedule.
pub(crate) fn items_of(alloc: Global, events: &[Event]) -> Result<Vec<EventItem>, AllocError> {
    events
        .iter()
        .map(|event| item_of(*event))
        .collect::<Vec<EventItem>>(alloc)
}
