//! The texts of replies.
ghost use Rattle.std.specs.Prelude.{◌≡◌, IfOk};
ghost use Rattle.debug_server.specs.Replies.{fault_text, shown_text, at_text, watching_text, breaks_text, stop_text, synced_text, torn_text, event_text};

use commands::CommandFault;
use places::Value;
use std::alloc::{AllocError, Global};
use watches::Stop;

// Prints the position and the number of events.
pub(crate) fn at_line(alloc: Global, at: usize, len: usize) -> Result<Vec<u8>, AllocError>
    ensures { IfOk result (λ v. v.items ≡ at_text at len) }
{
    let text = format!(in alloc; "at {at} of {len}\n")?;
    Ok(text.into_bytes())
}

/// Returns the reply to a line that isn't a command, with its line feed.
pub fn fault_text(fault: CommandFault) -> &'static str
    ensures { result.now ≡ fault_text fault }
{
    match fault {
        CommandFault::Command => "fault 1 command\n",
        CommandFault::Number => "fault 2 number\n",
        CommandFault::Place => "fault 3 place\n",
        CommandFault::Long => "fault 4 long\n",
        CommandFault::Value => "fault 5 value\n",
        CommandFault::Many => "fault 6 many\n",
    }
}

pub(crate) fn fault_line(alloc: Global, fault: CommandFault) -> Result<Vec<u8>, AllocError>
    ensures { IfOk result (λ v. v.items ≡ fault_text fault) }
{
    Vec::from_slice(alloc, fault_text(fault).as_bytes())
}

pub(crate) fn value_line(alloc: Global, value: Option<Value>) -> Result<Vec<u8>, AllocError>
    ensures { IfOk result (λ v. v.items ≡ shown_text value) }
{
    match value {
        None => Vec::from_slice(alloc, b"absent\n"),
        Some(value) => {
            let mut text = Vec::from_slice(alloc, value.text(alloc)?.as_slice())?;
            text.extend_from_slice(b"\n")?;
            Ok(text)
        }
    }
}

// Prints the number of watches.
pub(crate) fn watching_line(alloc: Global, count: usize) -> Result<Vec<u8>, AllocError>
    ensures { IfOk result (λ v. v.items ≡ watching_text count) }
{
    let text = format!(in alloc; "watching {count}\n")?;
    Ok(text.into_bytes())
}

// Prints the number of breaks.
pub(crate) fn breaks_line(alloc: Global, count: usize) -> Result<Vec<u8>, AllocError>
    ensures { IfOk result (λ v. v.items ≡ breaks_text count) }
{
    let text = format!(in alloc; "breaks {count}\n")?;
    Ok(text.into_bytes())
}

// Prints where a walk over `len` events stopped.
pub(crate) fn stop_line(alloc: Global, stop: Stop, len: usize) -> Result<Vec<u8>, AllocError>
    ensures { IfOk result (λ v. v.items ≡ stop_text len stop) }
{
    let text = match stop {
        Stop::Change(moment) => format!(in alloc; "change at {moment}\n")?,
        Stop::Met(moment) => format!(in alloc; "met at {moment}\n")?,
        Stop::Start => format!(in alloc; "start at 0\n")?,
        Stop::End => format!(in alloc; "end at {len}\n")?,
    };
    Ok(text.into_bytes())
}

// Prints the number of events after `sync`.
pub(crate) fn synced_line(alloc: Global, count: usize) -> Result<Vec<u8>, AllocError>
    ensures { IfOk result (λ v. v.items ≡ synced_text count) }
{
    let text = format!(in alloc; "synced {count}\n")?;
    Ok(text.into_bytes())
}

// Prints the first index at which the run and the source differ.
pub(crate) fn torn_line(alloc: Global, index: usize) -> Result<Vec<u8>, AllocError>
    ensures { IfOk result (λ v. v.items ≡ torn_text index) }
{
    let text = format!(in alloc; "refused 3 torn {index}\n")?;
    Ok(text.into_bytes())
}

// Prints the index of the source's event that is refused.
pub(crate) fn event_line(alloc: Global, index: usize) -> Result<Vec<u8>, AllocError>
    ensures { IfOk result (λ v. v.items ≡ event_text index) }
{
    let text = format!(in alloc; "refused 4 event {index}\n")?;
    Ok(text.into_bytes())
}
