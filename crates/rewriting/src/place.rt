//! Finds the schedule in the text of a script.
ghost use Rattle.std.specs.Prelude.{◌≡◌, ◌++◌, IfOk, IfSome};

use json_offsets::{end_of, last_member, members_of};
use std::alloc::{AllocError, Global};

/// A text, cut before and after a value.
#[derive(Clone, Copy)]
pub(crate) struct Place<'a> {
    /// The bytes before the value's key.
    pub before_key: &'a [u8],
    pub before: &'a [u8],
    pub value: &'a [u8],
    pub after: &'a [u8],
}

/// Returns the text cut at its schedule, if it has one. Of two schedules the last one counts.
pub(crate) fn place_of_schedule(alloc: Global, text: &[u8]) -> Result<Option<Place<'_>>, AllocError>
    ensures { IfOk result (λ found. IfSome found (λ place. text.now
        ≡ place.before.now ++ (place.value.now ++ place.after.now))) }
{
    let members = members_of(alloc, text)?;
    let Some(member) = last_member(&members, "schedule") else {
        return Ok(None);
    };
    let Some(end) = end_of(text, member.value) else {
        return Ok(None);
    };
    let before_key = &text[..member.at.min(text.len())];
    let (front, after) = text.split_at(end);
    let (before, value) = front.split_at(member.value);
    Ok(Some(Place {
        before_key,
        before,
        value,
        after,
    }))
}
