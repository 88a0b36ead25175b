//! Sentences about files that aren't durable at the end, and about a repeated FSYNC.

use crate::about::About;
use crate::counted::Counted;
use crate::run::{Run, Text};
use finding_kinds::{Failure, Retry, differs_at, number_at};
use places::Place;

const SYNC_RULE: &str = "(fsync(2))";

// Returns a file's length, or its durable length, at the end of the run.
fn number(run: &Run<'_>, place: Place) -> u32 {
    number_at(run.state, place).map_or(0, |number| number.min(65536) as u32)
}

// Returns the bytes in which a file of `len` bytes differs from its durable copy of `durable` bytes:
// the first, the last, and how many.
fn find_differing(run: &Run<'_>, object: u32, len: u32, durable: u32) -> Option<(u32, u32, u32)> {
    let mut found = None;
    for at in 0..len.max(durable) {
        if at >= len || at >= durable || differs_at(run.state, object, at) {
            let (first, _, count) = found.unwrap_or((at, at, 0_u32));
            found = Some((first, at, count.saturating_add(1)));
        }
    }
    found
}

/// Returns the sentence of a file with bytes that aren't durable.
pub(crate) fn not_durable(run: &Run<'_>, object: u32) -> Text {
    let Some(file) = run.setup.objects.as_slice().get(object as usize) else {
        return Ok(String::new(run.alloc()));
    };
    let len = number(run, Place::FileLength(object));
    let durable = number(run, Place::DurableLength(object));
    let Some((first, last, count)) = find_differing(run, object, len, durable) else {
        return Ok(String::new(run.alloc()));
    };
    let name = String::from_utf8_lossy(run.alloc(), file.name.as_slice())?;
    let differing = Counted::bytes(u64::from(count));
    let size = Counted::bytes(u64::from(len));
    format!(in run.alloc();
        "File {name} differs from its durable copy in {differing}, the first at {first}, the last at {last}. The file has {size}, its durable copy {durable}. Only an FSYNC that completes after a WRITE makes its bytes durable {SYNC_RULE}."
    )
}

// Returns what the failures after the first add: a sentence for each that is named, and one for the
// rest.
fn further_failures(run: &Run<'_>, retry: &Retry) -> Text {
    let mut text = String::new(run.alloc());
    for Failure { row, moment, bytes } in retry.failures.iter().skip(1) {
        if let Some(name) = run.name(*row) {
            let bytes = Counted::bytes(u64::from(*bytes));
            let adds = format!(in run.alloc();
                " The failure of row {name} at event {moment} adds {bytes}."
            )?;
            text.push_str(adds.as_str())?;
        }
    }
    if retry.more > 0 {
        let more = retry.more;
        let (noun, verb) = if more == 1 {
            ("failure", "adds")
        } else {
            ("failures", "add")
        };
        let bytes = Counted::bytes(u64::from(retry.more_bytes));
        let add = format!(in run.alloc(); " {more} more {noun} {verb} {bytes}.")?;
        text.push_str(add.as_str())?;
    }
    Ok(text)
}

/// Returns the sentence of an FSYNC that completed without error after one had failed.
pub(crate) fn fsync_retried(run: &Run<'_>, about: &About) -> Text {
    let Some(retry) = run.retried_at(about.moment) else {
        return Ok(String::new(run.alloc()));
    };
    let Some(first) = retry.failures.first() else {
        return Ok(String::new(run.alloc()));
    };
    let Some(failed) = run.name(first.row) else {
        return Ok(String::new(run.alloc()));
    };
    let name = about.name();
    let event = first.moment;
    let bytes = Counted::bytes(u64::from(first.bytes));
    let further = further_failures(run, retry)?;
    let object = if first.bytes == 1 && further.is_empty() {
        "it"
    } else {
        "them"
    };
    format!(in run.alloc();
        "Row {name} completed with 0 after row {failed} had failed with -5 (EIO) at event {event}, and nothing wrote its {bytes} again.{further} A kernel may have dropped {object} {SYNC_RULE}."
    )
}
