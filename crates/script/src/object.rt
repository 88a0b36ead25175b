//! The objects of a script.
ghost use Rattle.std.specs.Prelude.{◌≡◌, ◌<◌, ◌≤◌, ◌+◌, ◌++◌, ◌∷◌, [], false, map, option_map, length, IfOk, IfErr};
ghost use Rattle.std.specs.List.{list_any};
ghost use Rattle.scenario.specs.Setups.{is_named};
ghost use Rattle.serde_json.specs.View.{view};
ghost use Rattle.script.specs.Faults.{Gives, shaped};
ghost use Rattle.script.specs.Lists.{folded};
ghost use Rattle.script.specs.Objects.{one_of, contents_form, name_of, members_form, object_form, contents_keep_limits, contents_in_range, is_new_name, object_at};

use crate::fault::{Key, Path, ScriptFault};
use crate::keys::{is_object_of_script, item_path};
use crate::memory::read_bytes;
use crate::names::NamedObjects;
use crate::number::{Whole, between, whole_of};
use places::{Contents, Items, Object};
use scenario::is_name;
use serde_json::Value;
use std::alloc::Global;

// The maximum of an eventfd's counter is 2^64 - 2 (eventfd(2)).
const LARGEST_COUNTER: u64 = u64::MAX - 1;

/// The contents of an object, before their limits and ranges are checked.
#[derive(Drop)]
pub enum ContentsForm {
    File(Items<u8>),
    Pipe(Whole),
    EventFd(Whole),
}

/// An object, before its limits and ranges are checked.
#[derive(Drop)]
pub struct Found<'a> {
    pub name: &'a str,
    pub contents: ContentsForm,
}

// Requires exactly one of the three.
fn one_of(
    alloc: Global,
    path: Path,
    file: Option<&Value>,
    pipe: Option<&Value>,
    eventfd: Option<&Value>,
) -> Result<ContentsForm, ScriptFault>
    ensures { Gives (λ c. c) result
        (shaped path
        (one_of (option_map (λ v. view v.now) file.entry) (option_map (λ v. view v.now) pipe.entry)
        (option_map (λ v. view v.now) eventfd.entry))) }
{
    let contents = match (file, pipe, eventfd) {
        (Some(text), None, None) => {
            let bytes = read_bytes(alloc, path, text)?;
            return Ok(ContentsForm::File(bytes));
        }
        (None, Some(capacity), None) => whole_of(capacity).map(ContentsForm::Pipe),
        (None, None, Some(counter)) => whole_of(counter).map(ContentsForm::EventFd),
        _ => None,
    };
    contents.ok_or(ScriptFault::Shape(path))
}

fn read_contents(alloc: Global, path: Path, value: &Value) -> Result<ContentsForm, ScriptFault>
    ensures { Gives (λ c. c) result (shaped path (contents_form (view value.now))) }
{
    let file = value.get("file");
    let pipe = value.get("pipe");
    let eventfd = value.get("eventfd");
    one_of(alloc, path, file, pipe, eventfd)
}

fn name_of(value: &Value) -> Option<&str>
    ensures { option_map (λ name. name.now) result ≡ name_of (view value.now) }
{
    match value.get("name") {
        Some(name) => name.as_str(),
        None => None,
    }
}

fn read_members<'a>(alloc: Global, path: Path, value: &'a Value) -> Result<Found<'a>, ScriptFault>
    ensures { Gives (λ f. record { name = f.name.now; contents = f.contents }) result
        (shaped path (members_form (view value.now))) }
{
    let Some(name) = name_of(value) else {
        return Err(ScriptFault::Shape(path));
    };
    let contents = read_contents(alloc, path, value)?;
    Ok(Found { name, contents })
}

fn object_form<'a>(alloc: Global, path: Path, value: &'a Value) -> Result<Found<'a>, ScriptFault>
    ensures { Gives (λ f. record { name = f.name.now; contents = f.contents }) result
        (shaped path (object_form (view value.now))) }
{
    if is_object_of_script(value) {
        read_members(alloc, path, value)
    } else {
        Err(ScriptFault::Shape(path))
    }
}

fn contents_keep_limits(contents: &ContentsForm) -> bool
    ensures { result ≡ contents_keep_limits contents.now }
{
    match contents {
        ContentsForm::File(bytes) => bytes.len() <= 65536,
        _ => true,
    }
}

fn contents_in_range(contents: ContentsForm) -> Option<Contents>
    ensures { result ≡ contents_in_range contents }
{
    match contents {
        ContentsForm::File(bytes) => Some(Contents::File(bytes)),
        ContentsForm::Pipe(capacity) => Some(Contents::Pipe(between(1, 65536, capacity)? as u32)),
        ContentsForm::EventFd(counter) => {
            Some(Contents::EventFd(between(0, LARGEST_COUNTER, counter)?))
        }
    }
}

fn is_new_name(before: &NamedObjects<'_>, name: &str) -> bool
    ensures { result ≡ is_new_name before.now name.now }
{
    is_name(name.as_bytes()) && !before.has(name)
}

// Returns an object with a copy of its name. An error is `ScriptFault::Memory`.
fn with_name(alloc: Global, name: &str, contents: Contents) -> Result<Object, ScriptFault>
    ensures ok { IfOk result (λ o. o ≡ record { name = name.now; contents = contents }) }
    ensures err { IfErr result (λ e. e ≡ ScriptFault.Memory) }
{
    match Vec::from_slice(alloc, name.as_bytes()) {
        Ok(name) => Ok(Object {
            name: Items::from_vec(name),
            contents,
        }),
        Err(_) => Err(ScriptFault::Memory),
    }
}

// Reads the object at an index of the list, and returns it with its name.
fn read_object<'a>(
    alloc: Global,
    before: &NamedObjects<'_>,
    index: u32,
    value: &'a Value,
) -> Result<(&'a str, Object), ScriptFault>
    ensures next { Gives (λ found. before.now ++ found.1 ∷ []) result
        (object_at before.now index (view value.now)) }
    ensures same { IfOk result (λ found. found.1.name ≡ found.0.now) }
    ensures new { IfOk result (λ found. list_any (is_named found.1.name) before.now ≡ false) }
{
    let path = item_path(Key::Objects, index);
    let Found { name, contents } = object_form(alloc, path, value)?;
    if !contents_keep_limits(&contents) {
        return Err(ScriptFault::Limit(path));
    }
    if !is_new_name(before, name) {
        return Err(ScriptFault::Range(path));
    }
    match contents_in_range(contents) {
        Some(contents) => Ok((name, with_name(alloc, name, contents)?)),
        None => Err(ScriptFault::Range(path)),
    }
}

/// Reads the object at an index of the list, and appends it to the earlier ones.
pub fn with_object<'a>(
    alloc: Global,
    before: NamedObjects<'a>,
    index: u32,
    value: &'a Value,
) -> Result<NamedObjects<'a>, ScriptFault>
    requires { length before < 32 }
    ensures next { Gives (λ n. n) result (object_at before.entry index (view value.now)) }
    ensures len { IfOk result (λ n. length n ≡ length before.entry + 1) }
{
    let (name, object) = read_object(alloc, &before, index, value)?;
    before.with(name, object)
}

/// Reads the objects of a list, up to the first fault.
pub fn read_object_list<'a>(
    alloc: Global,
    items: &'a [Value],
) -> Result<NamedObjects<'a>, ScriptFault>
    requires { length items.now ≤ 32 }
    ensures { Gives (λ n. n) result (folded object_at [] 0 (map view items.now)) }
{
    let mut objects = NamedObjects::new(alloc);
    for (i, item) in items.iter().enumerate() {
        objects = with_object(alloc, objects, i as u32, item)?;
    }
    Ok(objects)
}
