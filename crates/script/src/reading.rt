//! Reads a script, key by key.
ghost use Rattle.std.specs.Prelude.{◌≡◌, ◌≢◌, ◌<◌, ◌⊎◌, length, option_map, Ok, IfOk, IfErr};
ghost use Rattle.serde_json.specs.View.{view};
ghost use Rattle.script.specs.Faults.{Fails, Gives, at_key};
ghost use Rattle.script.specs.Groups.{AreHoldings, AreNumbers};
ghost use Rattle.script.specs.Lists.{keyed};
ghost use Rattle.script.specs.Memory.{memory_of};
ghost use Rattle.script.specs.Objects.{objects_of, fds_of};
ghost use Rattle.script.specs.declared.reading.Numbers.{Numbers};
ghost use Rattle.script.specs.Scripts.{entries_of, cq_of, flag_of, base_of, threads_of, schedule_of, is_script_key, script_of, limit, Reads, IsNoJson};

use crate::descriptor::read_descriptors;
use crate::event::read_events;
use crate::fault::{Key, ScriptFault};
use crate::keys::{items_at, items_of, key_path, script_object};
use crate::memory::read_pieces;
use crate::names::NamedObjects;
use crate::number::number_between;
use crate::object::read_object_list;
use crate::parts::Script;
use crate::threads::read_thread_list;
use places::{Descriptor, Items, Object};
use scenario::{Event, Instruction, Setup, ring_size};
use serde_json::Value;
use std::alloc::Global;

const LIMIT: usize = 8388608;

/// The numbers and flags of a setup.
#[derive(Clone, Copy)]
pub struct Numbers {
    pub entries: u32,
    pub cq: Option<u32>,
    pub sqpoll: bool,
    pub submit_all: bool,
    pub base: u32,
}

/// The memory, objects and descriptors of a setup.
#[derive(Drop)]
pub struct Holdings {
    pub memory: Items<u8>,
    pub objects: Items<Object>,
    pub fds: Items<Descriptor>,
}

/// Reads the number of submission entries.
pub fn read_entries(found: Option<&Value>) -> Result<u32, ScriptFault>
    ensures { result ≡ entries_of (option_map (λ v. view v.now) found.entry) }
{
    let path = key_path(Key::Entries);
    let Some(value) = found else {
        return Err(ScriptFault::Shape(path));
    };
    let n = number_between(path, 1, 4096, value)?;
    Ok(n as u32)
}

/// Reads the number of completion entries, if the key is there.
pub fn read_cq(entries: u32, found: Option<&Value>) -> Result<Option<u32>, ScriptFault>
    ensures { result ≡ cq_of entries (option_map (λ v. view v.now) found.entry) }
{
    let path = key_path(Key::Cq);
    let Some(value) = found else {
        return Ok(None);
    };
    let cq = number_between(path, 1, 8192, value)? as u32;
    if ring_size(entries) <= ring_size(cq) {
        Ok(Some(cq))
    } else {
        Err(ScriptFault::Range(path))
    }
}

/// Reads an optional boolean, which is false by default.
pub fn read_flag(key: Key, found: Option<&Value>) -> Result<bool, ScriptFault>
    ensures { result ≡ flag_of key (option_map (λ v. view v.now) found.entry) }
{
    let Some(value) = found else {
        return Ok(false);
    };
    value.as_bool().ok_or(ScriptFault::Shape(key_path(key)))
}

/// Reads the initial value of the heads and tails of both rings, which is 0 by default.
pub fn read_base(found: Option<&Value>) -> Result<u32, ScriptFault>
    ensures { result ≡ base_of (option_map (λ v. view v.now) found.entry) }
{
    let Some(value) = found else {
        return Ok(0);
    };
    let n = number_between(key_path(Key::Base), 0, 4294967295, value)?;
    Ok(n as u32)
}

fn read_threads(
    alloc: Global,
    size: u32,
    found: Option<&Value>,
) -> Result<Items<Items<Instruction>>, ScriptFault>
    ensures { Gives (λ v. v) result (threads_of size (option_map (λ v. view v.now) found.entry)) }
{
    let path = key_path(Key::Threads);
    let Some(value) = found else {
        return Err(ScriptFault::Shape(path));
    };
    let items = items_of(value, path)?;
    if items.len() > 16 {
        return Err(ScriptFault::Limit(path));
    }
    let threads = read_thread_list(alloc, size, items)?;
    Ok(Items::from_vec(threads))
}

fn read_schedule(alloc: Global, found: Option<&Value>) -> Result<Items<Event>, ScriptFault>
    ensures { Gives (λ v. v) result (schedule_of (option_map (λ v. view v.now) found.entry)) }
{
    let path = key_path(Key::Schedule);
    let Some(value) = found else {
        return Err(ScriptFault::Shape(path));
    };
    let items = items_of(value, path)?;
    if items.len() > 65536 {
        return Err(ScriptFault::Limit(path));
    }
    let events = read_events(alloc, items)?;
    Ok(Items::from_vec(events))
}

fn read_memory(alloc: Global, found: Option<&Value>) -> Result<Items<u8>, ScriptFault>
    ensures { Gives (λ v. v) result (memory_of (option_map (λ v. view v.now) found.entry)) }
{
    let items = items_at(Key::Memory, found)?;
    read_pieces(alloc, items)
}

fn read_objects<'a>(
    alloc: Global,
    found: Option<&'a Value>,
) -> Result<NamedObjects<'a>, ScriptFault>
    ensures { Gives (λ v. v) result (objects_of (option_map (λ v. view v.now) found.entry)) }
{
    let items = items_at(Key::Objects, found)?;
    if items.len() > 32 {
        return Err(ScriptFault::Limit(key_path(Key::Objects)));
    }
    read_object_list(alloc, items)
}

fn read_fds(
    alloc: Global,
    objects: &NamedObjects<'_>,
    found: Option<&Value>,
) -> Result<Items<Descriptor>, ScriptFault>
    ensures { Gives (λ v. v) result
        (fds_of objects.now (option_map (λ v. view v.now) found.entry)) }
{
    let items = items_at(Key::Fds, found)?;
    if items.len() > 64 {
        return Err(ScriptFault::Limit(key_path(Key::Fds)));
    }
    let descriptors = read_descriptors(alloc, objects, items)?;
    Ok(Items::from_vec(descriptors))
}

// Reads the numbers and flags of a setup.
fn read_numbers(value: &Value) -> Result<Numbers, ScriptFault>
    requires { keyed is_script_key (at_key Key.Document) (view value.now) ≡ Ok tt }
    ensures numbers { IfOk result (λ n. AreNumbers (view value.now) n) }
    ensures fault { IfErr result (λ e. script_of (view value.now) ≡ Err e) }
{
    let entries = read_entries(value.get("entries"))?;
    let cq = read_cq(entries, value.get("cq"))?;
    let sqpoll = read_flag(Key::Sqpoll, value.get("sqpoll"))?;
    let submit_all = read_flag(Key::SubmitAll, value.get("submit_all"))?;
    let base = read_base(value.get("base"))?;
    Ok(Numbers {
        entries,
        cq,
        sqpoll,
        submit_all,
        base,
    })
}

// Reads the memory, objects and descriptors of a setup, whose numbers come before them.
fn read_holdings(alloc: Global, value: &Value) -> Result<Holdings, ScriptFault>
    requires { keyed is_script_key (at_key Key.Document) (view value.now) ≡ Ok tt }
    ensures holdings { IfOk result (λ h. AreHoldings (view value.now) h) }
    ensures fault { IfErr result (λ e. (n : Numbers) → AreNumbers (view value.now) n
        → Fails e (script_of (view value.now))) }
{
    let memory = read_memory(alloc, value.get("memory"))?;
    let objects = read_objects(alloc, value.get("objects"))?;
    let fds = read_fds(alloc, &objects, value.get("fds"))?;
    let objects = objects.into_items();
    Ok(Holdings {
        memory,
        objects,
        fds,
    })
}

// Reads a script from a JSON value.
fn script_from(alloc: Global, value: &Value) -> Result<Script, ScriptFault>
    ensures { Gives (λ s. s) result (script_of (view value.now)) }
{
    script_object(value, key_path(Key::Document))?;
    let numbers = read_numbers(value)?;
    let holdings = read_holdings(alloc, value)?;
    let size = ring_size(numbers.entries);
    let threads = read_threads(alloc, size, value.get("threads"))?;
    let schedule = read_schedule(alloc, value.get("schedule"))?;
    let setup = Setup {
        entries: numbers.entries,
        cq: numbers.cq,
        sqpoll: numbers.sqpoll,
        submit_all: numbers.submit_all,
        base: numbers.base,
        memory: holdings.memory,
        objects: holdings.objects,
        fds: holdings.fds,
        threads,
    };
    Ok(Script::new(setup, schedule))
}

/// Reads a script from a text of at most 8,388,608 bytes, or returns its first fault.
pub fn read_script(alloc: Global, text: &[u8]) -> Result<Script, ScriptFault>
    ensures ok { IfOk result (λ s. Reads text.now (Ok s)) }
    ensures fault { IfErr result (λ e. e ≢ ScriptFault.Memory → Reads text.now (Err e)) }
    ensures not_json { result ≡ Err ScriptFault.NotJson → IsNoJson text.now }
    ensures no_json { IsNoJson text.now
        → (result ≡ Err ScriptFault.NotJson) ⊎ (result ≡ Err ScriptFault.Memory) }
    ensures long { limit < length text.now → result ≢ Err ScriptFault.Memory }
{
    if text.len() > LIMIT {
        return Err(ScriptFault::Limit(key_path(Key::Document)));
    }
    let value = match Value::from_slice(alloc, text) {
        Ok(value) => value,
        Err(e) => {
            if e.is_memory() {
                return Err(ScriptFault::Memory);
            }
            return Err(ScriptFault::NotJson);
        }
    };
    script_from(alloc, &value)
}
