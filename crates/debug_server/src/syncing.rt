//! The reply to `sync`, which appends a source's new events to the run.
ghost use Rattle.std.specs.Prelude.{◌≡◌, ◌≤◌, ◌↔◌, None, drop, length, option_map, IsTrue, IfOk, OnOk, OnErr};
ghost use Rattle.inverse_log.specs.Walks.{ending};
ghost use Rattle.debug_server.specs.Syncs.{torn_from, refused_from};
ghost use Rattle.debug_server.specs.Replies.{takes_over, syncs};
ghost use Rattle.debug_server.specs.Refusing.{RefusalText};

use crate::texts::{event_line, synced_line, torn_line};
use crate::visitor::Visitor;
use inverse_log::ExtendRefusal;
use inverse_log::walker::TRACE_LIMIT;
use machine::{Event, Refusal};
use std::alloc::{AllocError, Global};

// Appends the events that the source has in addition to the run's. The position stays the same, and
// an `Err` changes nothing.
pub(crate) fn sync(
    alloc: Global,
    visitor: &mut Visitor,
    answer: Option<&[Event]>,
) -> Result<Vec<u8>, AllocError>
    ensures text { IfOk result (λ text. text.items
        ≡ (syncs visitor.old (option_map (λ es. es.now) answer.entry)).text) }
    ensures next { OnOk result (visitor.new
        ≡ (syncs visitor.old (option_map (λ es. es.now) answer.entry)).next) }
    ensures err { OnErr result (visitor.new ≡ visitor.old) }
{
    let Some(source) = answer else {
        return Vec::from_slice(alloc, b"refused 2 source\n");
    };
    if source.len() > TRACE_LIMIT {
        return Vec::from_slice(alloc, b"refused 5 full\n");
    }
    match torn_at(visitor.walker.events(), source) {
        Some(index) => torn_line(alloc, index),
        None => take_over(alloc, visitor, source),
    }
}

// Appends the new events of a source that begins with the run's. The text of success is built
// first.
fn take_over(alloc: Global, visitor: &mut Visitor, source: &[Event]) -> Result<Vec<u8>, AllocError>
    requires begins { torn_from 0 visitor.old.walk.events source.now ≡ None }
    requires most { length source.now ≤ 1048576 }
    ensures text { IfOk result (λ text. text.items ≡ (takes_over visitor.old source.now
        (refused_from (length visitor.old.walk.events) (ending visitor.old.walk)
        (drop (length visitor.old.walk.events) source.now))).text) }
    ensures next { OnOk result (visitor.new ≡ (takes_over visitor.old source.now
        (refused_from (length visitor.old.walk.events) (ending visitor.old.walk)
        (drop (length visitor.old.walk.events) source.now))).next) }
    ensures err { OnErr result (visitor.new ≡ visitor.old) }
{
    let text = synced_line(alloc, source.len())?;
    let known = visitor.walker.len();
    if let Err(refusal) = visitor.walker.extend(rest_of(source, known)) {
        return refused_line(alloc, known, refusal);
    }
    Ok(text)
}

// Returns the events from index `known` on.
fn rest_of(events: &[Event], known: usize) -> &[Event]
    requires { known ≤ length events.now }
    ensures { result.now ≡ drop known events.now }
{
    &events[known..]
}

// Returns the reply if the events after the first `known` can't be appended. An allocation failure
// has no reply.
fn refused_line(alloc: Global, known: usize, refusal: ExtendRefusal) -> Result<Vec<u8>, AllocError>
    requires { known ≤ 1048576 }
    ensures { IfOk result (λ text. RefusalText known refusal text.items) }
{
    match refusal {
        ExtendRefusal::TraceFull => Err(AllocError),
        ExtendRefusal::Refused(_, Refusal::Memory) => Err(AllocError),
        ExtendRefusal::Refused(index, _) => event_line(alloc, known + index as usize),
    }
}

// Returns the first index at which the events differ from the source's, or at which the source's
// end.
fn torn_at(events: &[Event], source: &[Event]) -> Option<usize>
    ensures { result ≡ torn_from 0 events.now source.now }
{
    for index in 0..events.len() {
        if index >= source.len() {
            return Some(index);
        }
        if !is_same(&events[index], &source[index]) {
            return Some(index);
        }
    }
    None
}

fn is_same(event: &Event, other: &Event) -> bool
    ensures { IsTrue result ↔ (event.now ≡ other.now) }
{
    event == other
}
