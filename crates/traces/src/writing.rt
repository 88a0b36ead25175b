//! Writes events as a trace.
ghost use Rattle.std.specs.Prelude.{◌≡◌, ◌≤◌, ◌++◌, length, IsTrue, IfOk, OnOk};
ghost use Rattle.std.specs.List.{list_all, AllByRecursion};
ghost use Rattle.byteorder.specs.Endian.{little_bytes};
ghost use Rattle.traces.specs.Spelling.{event_bytes, counted_bytes, most_events, has_transfer, Fits, IsTrace};

use crate::event::event_bytes;
use crate::fields::put_u32;
use scenario::Event;
use std::alloc::{AllocError, Global};

/// The first eight bytes of the first form.
pub(crate) const MAGIC: [u8; 8] = *b"URTRACE1";

fn count_bytes(count: u32) -> [u8; 4]
    ensures { result ≡ little_bytes 4 count }
{
    let mut bytes = [0; 4];
    put_u32(&mut bytes, 0, count);
    bytes
}

// Writes the number of events, and the events.
pub(crate) fn put_counted(out: &mut Vec<u8>, events: &[Event]) -> Result<(), AllocError>
    requires few { length events.now ≤ most_events }
    requires transfers { IsTrue (list_all has_transfer events.now) }
    ensures spelled { OnOk result (out.new.items ≡ out.old.items ++ counted_bytes events.now) }
    ensures fits { OnOk result (AllByRecursion Fits events.now) }
{
    out.extend_from_slice(&count_bytes(events.len() as u32))?;
    for event in events {
        out.extend_from_slice(&event_bytes(*event))?;
    }
    Ok(())
}

/// Returns the trace of the events: at most 1,048,576, none a short transfer of 0 bytes.
pub fn write_trace(alloc: Global, events: &[Event]) -> Result<Vec<u8>, AllocError>
    requires few { length events.now ≤ most_events }
    requires transfers { IsTrue (list_all has_transfer events.now) }
    ensures { IfOk result (λ bytes. IsTrace events.now bytes.items) }
{
    let mut out = Vec::with_capacity(alloc, 12 + 16 * events.len())?;
    out.extend_from_slice(&MAGIC)?;
    put_counted(&mut out, events)?;
    Ok(out)
}
