//! Reads and writes traces of the second form: a setup and its events.
ghost use Rattle.std.specs.Prelude.{◌≡◌, ◌≤◌, ◌<◌, ◌⊎◌, None, List, Ok, length, min, IsTrue, IfOk, IfErr, MatchResult};
ghost use Rattle.std.specs.List.{list_all};
ghost use Rattle.scenario.specs.declared.event.Event.{Event};
ghost use Rattle.scenario.specs.declared.setup.Setup.{Setup};
ghost use Rattle.traces.specs.Cursors.{Cursor};
ghost use Rattle.traces.specs.Spelling.{counted_bytes, magic, most_events, has_transfer, AreEvents, IsTrace};
ghost use Rattle.traces.specs.Faults.{BeginsAs, IsFault};
ghost use Rattle.scenario.specs.Setups.{setup_refusal};
ghost use Rattle.traces.specs.Setups.{canonical, magic2, IsTrace2};
ghost use Rattle.traces.specs.Reading.{after_magic, setup_at, IsBodyFault, IsFault2};

use crate::fault::TraceFault;
use crate::offsets::rest_of;
use crate::reading::{read_counted, read_trace};
use crate::setup_writing::push_setup;
use crate::setups::read_setup;
use crate::writing::put_counted;
use scenario::{Event, Setup};
use std::alloc::{AllocError, Global};

// The first eight bytes of the second form.
const MAGIC: [u8; 8] = *b"URTRACE2";

// Reads the setup after the magic, and the events after it.
fn read_body(alloc: Global, bytes: &[u8]) -> Result<(Setup, Vec<Event>), TraceFault>
    ensures found { IfOk result (λ found. (s : Cursor)
        × (setup_at (after_magic bytes.now) ≡ Ok (found.0, s))
        × (s.rest ≡ counted_bytes found.1.items) × AreEvents found.1.items) }
    ensures fault { IfErr result (λ fault. (fault ≡ TraceFault.Memory)
        ⊎ IsBodyFault (setup_at (after_magic bytes.now)) fault) }
{
    let (setup, after) = read_setup(alloc, bytes, MAGIC.len())?;
    let events = read_counted(alloc, rest_of(bytes, after))?;
    Ok((setup, events))
}

// Reads a trace of the second form.
fn read_second(alloc: Global, bytes: &[u8]) -> Result<(Setup, Vec<Event>), TraceFault>
    ensures found { IfOk result (λ found. IsTrace2 found.0 found.1.items bytes.now) }
    ensures fault { IfErr result (λ fault. (fault ≡ TraceFault.Memory) ⊎ IsFault2 bytes.now fault) }
    ensures other { (BeginsAs magic2 bytes.now → ⊥) → result ≡ Err TraceFault.Magic }
    ensures cut { BeginsAs magic2 bytes.now → length bytes.now < 8
        → result ≡ Err TraceFault.Truncated }
{
    let there = MAGIC.len().min(bytes.len());
    if bytes[..there] != MAGIC[..there] {
        return Err(TraceFault::Magic);
    }
    if bytes.len() < 8 {
        return Err(TraceFault::Truncated);
    }
    read_body(alloc, bytes)
}

/// Reads the setup and the events of a trace of the second form.
pub fn read_trace2(alloc: Global, bytes: &[u8]) -> Result<(Setup, Vec<Event>), TraceFault>
    // The bytes are the trace of this setup and these events.
    ensures found { IfOk result (λ found. IsTrace2 found.0 found.1.items bytes.now) }

    // Each trace is read, unless an allocation fails.
    ensures only { (setup : Setup) (events : List Event) → IsTrace2 setup events bytes.now →
        MatchResult result (λ found. (found.0 ≡ setup) × (found.1.items ≡ events))
        (λ fault. fault ≡ TraceFault.Memory) }

    // The first fault is returned.
    ensures fault { IfErr result (λ fault. (fault ≡ TraceFault.Memory) ⊎ IsFault2 bytes.now fault) }

    // Wrong magic, and bytes that end before the setup, are refused without an allocation.
    ensures other { (BeginsAs magic2 bytes.now → ⊥) → result ≡ Err TraceFault.Magic }
    ensures cut { BeginsAs magic2 bytes.now → length bytes.now < 8
        → result ≡ Err TraceFault.Truncated }
{
    read_second(alloc, bytes)
}

/// Returns the trace of the second form. It stores the setup with rounded sizes, and memory without
/// zeros at the end. There are at most 1,048,576 events, none a short transfer of 0 bytes.
pub fn write_trace2(alloc: Global, setup: &Setup, events: &[Event]) -> Result<Vec<u8>, AllocError>
    requires starts { setup_refusal setup.now ≡ None }
    requires few { length events.now ≤ most_events }
    requires transfers { IsTrue (list_all has_transfer events.now) }
    ensures { IfOk result (λ bytes. IsTrace2 (canonical setup.now) events.now bytes.items) }
{
    let mut out = Vec::new(alloc);
    out.extend_from_slice(&MAGIC)?;
    push_setup(&mut out, setup)?;
    put_counted(&mut out, events)?;
    Ok(out)
}

/// Returns the trace of the second form of a setup and the events of a trace of the first form.
pub fn migrate(alloc: Global, setup: &Setup, bytes: &[u8]) -> Result<Vec<u8>, TraceFault>
    requires { setup_refusal setup.now ≡ None }
    // The result has the setup and exactly those events.
    ensures migrated { IfOk result (λ made. (events : List Event) × IsTrace events bytes.now
        × IsTrace2 (canonical setup.now) events made.items) }

    // Each trace of the first form is migrated, unless an allocation fails.
    ensures only { (events : List Event) → IsTrace events bytes.now →
        MatchResult result (λ made. IsTrace2 (canonical setup.now) events made.items)
        (λ fault. fault ≡ TraceFault.Memory) }

    // The first fault is returned.
    ensures fault { IfErr result (λ fault. (fault ≡ TraceFault.Memory) ⊎ IsFault bytes.now fault) }

    // Wrong magic, bytes that end before the count, and a count that is too large are refused
    // without an allocation.
    ensures other { (BeginsAs magic bytes.now → ⊥) → result ≡ Err TraceFault.Magic }
    ensures cut { BeginsAs magic bytes.now → length bytes.now < 12
        → result ≡ Err TraceFault.Truncated }
    ensures count { IsFault bytes.now TraceFault.Count → result ≡ Err TraceFault.Count }
{
    let events = read_trace(alloc, bytes)?;
    Ok(write_trace2(alloc, setup, &events)?)
}
