//! The result of a search as JSON.

use crate::exploration::{Discovery, Exploration, SeenKind};
use crate::schedule::{EventItem, items_of};
use serde::{Described, Serialize, Serializer};
use std::alloc::{AllocError, Global};

/// The value of a member of the object.
#[derive(Clone, Copy, Serialize)]
#[serde(untagged)]
enum Member<'a> {
    Null,
    Flag(bool),
    Number(u64),
    Text(&'a str),
    Kinds(&'a [SeenKind]),
    Items(&'a [EventItem]),
}

/// The members of the object with their names, in the order in which `explore --json` prints them.
/// The last one, `every_run`, comes after these.
type Members<'a> = [(&'static str, Member<'a>); 13];

/// The result of a search.
#[derive(Clone, Copy)]
struct ExplorationObject<'a, 'b> {
    members: &'a Members<'a>,
    every_run: &'b [String],
}

impl Described for ExplorationObject<'_, '_> {}

impl Serialize for ExplorationObject<'_, '_> {
    fn serialize<S: Serializer>(&self, out: &mut S) -> Result<(), S::Error> {
        out.begin_map(Some(self.members.len() + 1))?;
        for (name, member) in self.members {
            out.key(name)?;
            member.serialize(out)?;
        }
        out.key("every_run")?;
        self.every_run.serialize(out)?;
        out.end_map()
    }
}

/// Returns a value as JSON on one line, with the end of the line.
pub(crate) fn line_of<T: Serialize>(alloc: Global, value: &T) -> Result<String, AllocError> {
    let Ok(mut json) = serde_json::to_string(alloc, value) else {
        return Err(AllocError);
    };
    json.push('\n')?;
    Ok(json)
}

fn optional(text: Option<&str>) -> Member<'_> {
    match text {
        Some(text) => Member::Text(text),
        None => Member::Null,
    }
}

// Returns the members if the search found something. Only a finding has a kind and sentences.
fn found_members<'a>(
    search: &Exploration<'a, '_>,
    found: &Discovery<'a>,
    items: &'a [EventItem],
) -> Members<'a> {
    let sentences = match found.kind {
        Some(_) => Member::Text(found.text),
        None => Member::Null,
    };
    [
        ("found", Member::Flag(true)),
        ("kind", optional(found.kind)),
        ("moment", Member::Number(u64::from(found.moment))),
        ("run", Member::Number(u64::from(found.run))),
        ("seed", Member::Number(search.seed)),
        ("text", sentences),
        ("runs", Member::Number(search.runs)),
        ("events", Member::Number(search.events)),
        ("seen", Member::Kinds(search.seen)),
        ("length", Member::Number(u64::from(found.length))),
        ("shrunk", Member::Number(found.schedule.len() as u64)),
        ("schedule", Member::Items(items)),
        ("out", optional(found.out)),
    ]
}

// Returns the members if the search found nothing.
fn nothing_members<'a>(search: &Exploration<'a, '_>) -> Members<'a> {
    [
        ("found", Member::Flag(false)),
        ("kind", Member::Null),
        ("moment", Member::Null),
        ("run", Member::Null),
        ("seed", Member::Number(search.seed)),
        ("text", Member::Null),
        ("runs", Member::Number(search.runs)),
        ("events", Member::Number(search.events)),
        ("seen", Member::Kinds(search.seen)),
        ("length", Member::Null),
        ("shrunk", Member::Null),
        ("schedule", Member::Null),
        ("out", Member::Null),
    ]
}

// Returns the object as JSON on one line.
fn object_of(
    alloc: Global,
    members: &Members<'_>,
    every_run: &[String],
) -> Result<String, AllocError> {
    line_of(alloc, &ExplorationObject { members, every_run })
}

/// Returns the result of a search as an object of JSON on one line.
pub fn json_of(alloc: Global, exploration: &Exploration<'_, '_>) -> Result<String, AllocError> {
    match &exploration.discovery {
        Some(found) => {
            let items = items_of(alloc, found.schedule)?;
            object_of(
                alloc,
                &found_members(exploration, found, &items),
                exploration.every_run,
            )
        }
        None => object_of(alloc, &nothing_members(exploration), exploration.every_run),
    }
}
