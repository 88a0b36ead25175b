//! Paths of faults, the allowed keys of JSON objects, and lists.
ghost use Rattle.std.specs.Prelude.{◌≡◌, map, option_map, string_bytes};
ghost use Rattle.std.specs.List.{list_all};
ghost use Rattle.std.specs.BTreeMap.{keys};
ghost use Rattle.serde_json.specs.View.{view};
ghost use Rattle.script.specs.Faults.{Gives, at_key, at_item, at_inner};
ghost use Rattle.script.specs.Lists.{has_keys, keyed, listed, list_at};
ghost use Rattle.script.specs.Entries.{is_entry_key};
ghost use Rattle.script.specs.Objects.{is_object_key};
ghost use Rattle.script.specs.Scripts.{is_script_key};

use crate::fault::{Key, Path, ScriptFault};
use serde_json::{Map, Value};

/// Returns the path of a key.
pub fn key_path(key: Key) -> Path
    ensures { result ≡ at_key key }
{
    Path {
        key,
        item: None,
        inner: None,
    }
}

/// Returns the path of an item of the list at a key.
pub fn item_path(key: Key, item: u32) -> Path
    ensures { result ≡ at_item key item }
{
    Path {
        key,
        item: Some(item),
        inner: None,
    }
}

/// Returns the path of an item within an item.
pub fn inner_path(key: Key, item: u32, inner: u32) -> Path
    ensures { result ≡ at_inner key item inner }
{
    Path {
        key,
        item: Some(item),
        inner: Some(inner),
    }
}

/// Returns the items of a list, or a shape fault.
pub fn items_of(value: &Value, path: Path) -> Result<&[Value], ScriptFault>
    ensures { Gives (λ items. map view items.now) result (listed path (view value.now)) }
{
    match value.as_array() {
        Some(items) => Ok(items),
        None => Err(ScriptFault::Shape(path)),
    }
}

/// Returns the list at an optional key, which is empty by default.
pub fn items_at<'a>(key: Key, found: Option<&'a Value>) -> Result<&'a [Value], ScriptFault>
    ensures { Gives (λ items. map view items.now) result
        (list_at key (option_map (λ v. view v.now) found.entry)) }
{
    match found {
        Some(value) => items_of(value, key_path(key)),
        None => Ok(&[]),
    }
}

/// Whether a script can have this key.
pub fn is_script_key(key: &str) -> bool
    ensures { result ≡ is_script_key key.now }
{
    matches!(
        key,
        "entries"
            | "cq"
            | "sqpoll"
            | "submit_all"
            | "base"
            | "memory"
            | "objects"
            | "fds"
            | "threads"
            | "schedule"
    )
}

/// Whether an entry can have this key.
pub fn is_entry_key(key: &str) -> bool
    ensures { result ≡ is_entry_key key.now }
{
    matches!(
        key,
        "op" | "flags" | "ioprio" | "fd" | "off" | "addr" | "len" | "opflags" | "ud"
    )
}

fn has_script_keys(members: &Map<String, Value>) -> bool
    ensures { result ≡ list_all (λ k. is_script_key (string_bytes k)) (keys members.now) }
{
    members.keys().all(|key| is_script_key(key))
}

fn has_entry_keys(members: &Map<String, Value>) -> bool
    ensures { result ≡ list_all (λ k. is_entry_key (string_bytes k)) (keys members.now) }
{
    members.keys().all(|key| is_entry_key(key))
}

/// Whether an object of a setup can have this key.
pub fn is_object_key(key: &str) -> bool
    ensures { result ≡ is_object_key key.now }
{
    matches!(key, "name" | "file" | "pipe" | "eventfd")
}

fn has_object_keys(members: &Map<String, Value>) -> bool
    ensures { result ≡ list_all (λ k. is_object_key (string_bytes k)) (keys members.now) }
{
    members.keys().all(|key| is_object_key(key))
}

fn is_script_object(value: &Value) -> bool
    ensures { result ≡ has_keys is_script_key (view value.now) }
{
    match value.as_object() {
        Some(members) => has_script_keys(members),
        None => false,
    }
}

/// Whether a value is a JSON object with only the keys of an entry.
pub fn is_entry_object(value: &Value) -> bool
    ensures { result ≡ has_keys is_entry_key (view value.now) }
{
    match value.as_object() {
        Some(members) => has_entry_keys(members),
        None => false,
    }
}

/// Whether a value is a JSON object with only the keys of an object of a setup.
pub fn is_object_of_script(value: &Value) -> bool
    ensures { result ≡ has_keys is_object_key (view value.now) }
{
    match value.as_object() {
        Some(members) => has_object_keys(members),
        None => false,
    }
}

/// Checks that a document is a JSON object with only the keys of a script.
pub fn script_object(value: &Value, path: Path) -> Result<(), ScriptFault>
    ensures { result ≡ keyed is_script_key path (view value.now) }
{
    if is_script_object(value) {
        Ok(())
    } else {
        Err(ScriptFault::Shape(path))
    }
}
