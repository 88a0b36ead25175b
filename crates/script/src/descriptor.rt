//! The descriptors of a script.
ghost use Rattle.std.specs.Prelude.{◌≡◌, ◌≤◌, map, option_map, length};
ghost use Rattle.serde_json.specs.View.{view};
ghost use Rattle.script.specs.Faults.{Gives};
ghost use Rattle.script.specs.Lists.{each};
ghost use Rattle.script.specs.Objects.{descriptor_of, end_named, before_mark, descriptor_named, descriptor_at};

use crate::fault::{Key, ScriptFault};
use crate::keys::item_path;
use crate::names::NamedObjects;
use places::{Descriptor, End, Object};
use scenario::is_descriptor;
use serde_json::Value;
use std::alloc::Global;

// Returns the descriptor of an object's end, if the object has this end.
fn descriptor_of(objects: &[Object], end: End, object: u32) -> Option<Descriptor>
    ensures { result ≡ descriptor_of objects.now end object }
{
    let descriptor = Descriptor { object, end };
    if is_descriptor(objects, descriptor) {
        Some(descriptor)
    } else {
        None
    }
}

// Returns the descriptor of an end of the object with this name.
fn end_named(objects: &NamedObjects<'_>, end: End, name: &str) -> Option<Descriptor>
    ensures { result ≡ end_named objects.now end name.now }
{
    match objects.number_of(name) {
        Some(number) => descriptor_of(objects.as_slice(), end, number),
        None => None,
    }
}

// Returns the text before a mark, if the text ends with the mark.
fn before_mark<'a>(mark: &str, text: &'a str) -> Option<&'a str>
    ensures { option_map (λ name. name.now) result ≡ before_mark mark.now text.now }
{
    text.strip_suffix(mark)
}

// Returns the descriptor that a text names: a file or eventfd by its name, a pipe's end by `NAME:r`
// or `NAME:w`.
fn descriptor_named(objects: &NamedObjects<'_>, text: &str) -> Option<Descriptor>
    ensures { result ≡ descriptor_named objects.now text.now }
{
    let reader = before_mark(":r", text);
    let writer = before_mark(":w", text);
    match (reader, writer) {
        (Some(name), _) => end_named(objects, End::Read, name),
        (None, Some(name)) => end_named(objects, End::Write, name),
        (None, None) => end_named(objects, End::Whole, text),
    }
}

/// Reads the descriptor at an index of the list.
pub fn read_descriptor(
    objects: &NamedObjects<'_>,
    index: u32,
    value: &Value,
) -> Result<Descriptor, ScriptFault>
    ensures { result ≡ descriptor_at objects.now index (view value.now) }
{
    let path = item_path(Key::Fds, index);
    let Some(text) = value.as_str() else {
        return Err(ScriptFault::Shape(path));
    };
    match descriptor_named(objects, text) {
        Some(descriptor) => Ok(descriptor),
        None => Err(ScriptFault::Range(path)),
    }
}

/// Reads the descriptors of a list, up to the first fault.
pub fn read_descriptors(
    alloc: Global,
    objects: &NamedObjects<'_>,
    items: &[Value],
) -> Result<Vec<Descriptor>, ScriptFault>
    requires { length items.now ≤ 64 }
    ensures { Gives (λ v. v.items) result
        (each (descriptor_at objects.now) 0 (map view items.now)) }
{
    let mut descriptors = Vec::new(alloc);
    for (i, item) in items.iter().enumerate() {
        let descriptor = read_descriptor(objects, i as u32, item)?;
        if descriptors.push(descriptor).is_err() {
            return Err(ScriptFault::Memory);
        }
    }
    Ok(descriptors)
}
