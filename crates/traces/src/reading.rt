//! Reads the events of a trace.
ghost use Rattle.std.specs.Prelude.{◌≡◌, ◌<◌, ◌⊎◌, List, length, min, IfOk, IfErr, MatchResult};
ghost use Rattle.std.specs.List.{flat_map, AllByRecursion};
ghost use Rattle.scenario.specs.declared.event.Event.{Event};
ghost use Rattle.traces.specs.Spelling.{event_bytes, counted_bytes, magic, Fits, AreEvents, IsTrace};
ghost use Rattle.traces.specs.Faults.{IsEventsFault, IsCountedFault, BeginsAs, IsFault};

use crate::event::first_event;
use crate::fault::TraceFault;
use crate::fields::u32_at;
use crate::writing::MAGIC;
use scenario::Event;
use std::alloc::Global;

const MOST_EVENTS: u32 = 1_048_576;

// Reads `count` events, which have to be all of the bytes.
fn read_events(alloc: Global, count: u32, bytes: &[u8]) -> Result<Vec<Event>, TraceFault>
    ensures spelled { IfOk result (λ events. bytes.now ≡ flat_map event_bytes events.items) }
    ensures count { IfOk result (λ events. length events.items ≡ count) }
    ensures fits { IfOk result (λ events. AllByRecursion Fits events.items) }
    ensures fault { IfErr result (λ fault. (fault ≡ TraceFault.Memory)
        ⊎ IsEventsFault count bytes.now fault) }
{
    let room = bytes.len() / 16;
    let mut events = Vec::with_capacity(alloc, room.min(count as usize))?;
    let mut rest = bytes;
    for _ in 0..count {
        let (event, after) = first_event(rest)?;
        events.push(event)?;
        rest = after;
    }
    if rest.is_empty() {
        Ok(events)
    } else {
        Err(TraceFault::Trailing)
    }
}

// Reads the number of events, and the events.
pub(crate) fn read_counted(alloc: Global, bytes: &[u8]) -> Result<Vec<Event>, TraceFault>
    ensures events { IfOk result (λ events. AreEvents events.items) }
    ensures spelled { IfOk result (λ events. bytes.now ≡ counted_bytes events.items) }
    ensures fault { IfErr result (λ fault. (fault ≡ TraceFault.Memory)
        ⊎ IsCountedFault bytes.now fault) }
    ensures cut { length bytes.now < 4 → result ≡ Err TraceFault.Truncated }
    ensures count { IsCountedFault bytes.now TraceFault.Count → result ≡ Err TraceFault.Count }
{
    if bytes.len() < 4 {
        return Err(TraceFault::Truncated);
    }
    let count = u32_at(bytes, 0);
    if count > MOST_EVENTS {
        return Err(TraceFault::Count);
    }
    read_events(alloc, count, &bytes[4..])
}

// Reads a trace of the first form.
fn read_first(alloc: Global, bytes: &[u8]) -> Result<Vec<Event>, TraceFault>
    ensures found { IfOk result (λ events. IsTrace events.items bytes.now) }
    ensures fault { IfErr result (λ fault. (fault ≡ TraceFault.Memory) ⊎ IsFault bytes.now fault) }
    ensures other { (BeginsAs magic bytes.now → ⊥) → result ≡ Err TraceFault.Magic }
    ensures cut { BeginsAs magic bytes.now → length bytes.now < 12
        → result ≡ Err TraceFault.Truncated }
    ensures count { IsFault bytes.now TraceFault.Count → result ≡ Err TraceFault.Count }
{
    let there = MAGIC.len().min(bytes.len());
    if bytes[..there] != MAGIC[..there] {
        return Err(TraceFault::Magic);
    }
    read_counted(alloc, &bytes[there..])
}

/// Reads the events of a trace of the first form.
pub fn read_trace(alloc: Global, bytes: &[u8]) -> Result<Vec<Event>, TraceFault>
    // The bytes are the trace of these events.
    ensures found { IfOk result (λ events. IsTrace events.items bytes.now) }

    // Each trace is read, unless an allocation fails.
    ensures only { (events : List Event) → IsTrace events bytes.now →
        MatchResult result (λ found. found.items ≡ events) (λ fault. fault ≡ TraceFault.Memory) }

    // The first fault is returned.
    ensures fault { IfErr result (λ fault. (fault ≡ TraceFault.Memory) ⊎ IsFault bytes.now fault) }

    // Wrong magic, bytes that end before the count, and a count that is too large are refused
    // without an allocation.
    ensures other { (BeginsAs magic bytes.now → ⊥) → result ≡ Err TraceFault.Magic }
    ensures cut { BeginsAs magic bytes.now → length bytes.now < 12
        → result ≡ Err TraceFault.Truncated }
    ensures count { IsFault bytes.now TraceFault.Count → result ≡ Err TraceFault.Count }
{
    read_first(alloc, bytes)
}
