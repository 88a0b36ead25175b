//! Finds the faults of a script, key by key and item by item.
ghost use Rattle.std.specs.Prelude.{◌<◌, ◌≤◌, ◌+◌, length, IfOk};

use scenario::ring_size;
use script::items::{
    NamedObjects, item_path, items_at, items_of, key_path, make_zeros, read_base, read_cq,
    read_descriptor, read_entries, read_event, read_flag, read_instruction, script_object,
    with_object, write_piece,
};
use script::{Key, Path, ScriptFault};
use serde_json::Value;
use std::alloc::{AllocError, Global};

/// The most faults that are reported.
pub(crate) const MOST_FAULTS: usize = 20;

/// The size of memory, in bytes.
const MEMORY_SIZE: usize = 65536;

/// The largest size of a submission ring. Slots are checked against it where `entries` is faulty.
const MOST_ENTRIES: u32 = 4096;

/// The smallest size of a submission ring. `cq` is checked against it where `entries` is faulty.
const FEWEST_ENTRIES: u32 = 1;

const MOST_OBJECTS: usize = 32;

const MOST_DESCRIPTORS: usize = 64;

const MOST_THREADS: usize = 16;

const MOST_INSTRUCTIONS: usize = 4096;

const MOST_EVENTS: usize = 65536;

// The faults found so far, in the order in which they are tested.
#[derive(Drop)]
struct Faults {
    alloc: Global,
    list: Vec<ScriptFault>,
}

impl Faults {
    fn push(&mut self, fault: ScriptFault) -> Result<(), AllocError> {
        if let ScriptFault::Memory = fault {
            return Err(AllocError);
        }
        if self.list.len() < MOST_FAULTS {
            self.list.push(fault)?;
        }
        Ok(())
    }

    // Returns what was read of a key or an item. Adds the fault if it is faulty.
    fn note<T: Drop>(&mut self, read: Result<T, ScriptFault>) -> Result<Option<T>, AllocError> {
        match read {
            Ok(found) => Ok(Some(found)),
            Err(fault) => {
                self.push(fault)?;
                Ok(None)
            }
        }
    }

    // Returns the items of a list. Adds a fault, and returns none, if there are more than `most`.
    fn limited<'a>(
        &mut self,
        path: Path,
        most: usize,
        items: &'a [Value],
    ) -> Result<&'a [Value], AllocError>
        ensures { IfOk result (λ kept. length kept.now ≤ most) }
    {
        if items.len() > most {
            self.push(ScriptFault::Limit(path))?;
            return Ok(&[]);
        }
        Ok(items)
    }

    // Returns the items of the list at a key. Adds a fault, and returns none, if it isn't a list or
    // has more than `most`.
    fn list_at<'a>(
        &mut self,
        key: Key,
        most: usize,
        found: Option<&'a Value>,
    ) -> Result<&'a [Value], AllocError>
        ensures { IfOk result (λ kept. length kept.now ≤ most) }
    {
        match self.note(items_at(key, found))? {
            Some(items) => self.limited(key_path(key), most, items),
            None => Ok(&[]),
        }
    }

    // Does the same for a key that a script must have, and adds a fault if it is missing.
    fn required_list_at<'a>(
        &mut self,
        key: Key,
        most: usize,
        found: Option<&'a Value>,
    ) -> Result<&'a [Value], AllocError>
        ensures { IfOk result (λ kept. length kept.now ≤ most) }
    {
        if found.is_none() {
            self.push(ScriptFault::Shape(key_path(key)))?;
        }
        self.list_at(key, most, found)
    }

    fn note_numbers(&mut self, document: &Value, entries: Option<u32>) -> Result<(), AllocError> {
        let entries = entries.unwrap_or(FEWEST_ENTRIES);
        self.note(read_cq(entries, document.get("cq")))?;
        self.note(read_flag(Key::Sqpoll, document.get("sqpoll")))?;
        self.note(read_flag(Key::SubmitAll, document.get("submit_all")))?;
        self.note(read_base(document.get("base")))?;
        Ok(())
    }

    fn note_pieces(&mut self, items: &[Value]) -> Result<(), AllocError> {
        let mut memory = make_zeros(self.alloc, MEMORY_SIZE)?;
        for (i, item) in items.iter().enumerate() {
            self.note(write_piece(self.alloc, &mut memory, i, item))?;
        }
        Ok(())
    }

    // Adds an object to the earlier ones. Returns no objects if it is faulty, so that no later name
    // is compared with its name.
    fn next_objects<'a>(
        &mut self,
        objects: NamedObjects<'a>,
        index: u32,
        item: &'a Value,
    ) -> Result<NamedObjects<'a>, AllocError>
        requires { length objects < 32 }
        ensures { IfOk result (λ more. length more ≤ length objects.entry + 1) }
    {
        match with_object(self.alloc, objects, index, item) {
            Ok(more) => Ok(more),
            Err(fault) => {
                self.push(fault)?;
                Ok(NamedObjects::new(self.alloc))
            }
        }
    }

    fn note_objects<'a>(&mut self, items: &'a [Value]) -> Result<NamedObjects<'a>, AllocError>
        requires { length items.now ≤ 32 }
    {
        let mut objects = NamedObjects::new(self.alloc);
        for (i, item) in items.iter().enumerate() {
            objects = self.next_objects(objects, i as u32, item)?;
        }
        Ok(objects)
    }

    // Adds a fault for each descriptor that isn't a string. If all objects are known, adds one also
    // for each that names no object.
    fn note_descriptors(
        &mut self,
        objects: &NamedObjects<'_>,
        are_known: bool,
        items: &[Value],
    ) -> Result<(), AllocError>
        requires { length items.now ≤ 64 }
    {
        for (i, item) in items.iter().enumerate() {
            if are_known || item.as_str().is_none() {
                self.note(read_descriptor(objects, i as u32, item))?;
            }
        }
        Ok(())
    }

    fn note_files(&mut self, document: &Value, are_known: bool) -> Result<(), AllocError> {
        let before = self.list.len();
        let items = self.list_at(Key::Objects, MOST_OBJECTS, document.get("objects"))?;
        let objects = self.note_objects(items)?;
        let are_known = are_known && self.list.len() == before;
        let names = self.list_at(Key::Fds, MOST_DESCRIPTORS, document.get("fds"))?;
        self.note_descriptors(&objects, are_known, names)
    }

    fn note_thread(&mut self, size: u32, thread: u32, value: &Value) -> Result<(), AllocError> {
        let path = item_path(Key::Threads, thread);
        let Some(items) = self.note(items_of(value, path))? else {
            return Ok(());
        };
        let instructions = self.limited(path, MOST_INSTRUCTIONS, items)?;
        for (i, item) in instructions.iter().enumerate() {
            self.note(read_instruction(self.alloc, size, thread, i as u32, item))?;
        }
        Ok(())
    }

    fn note_threads(&mut self, size: u32, found: Option<&Value>) -> Result<(), AllocError> {
        let threads = self.required_list_at(Key::Threads, MOST_THREADS, found)?;
        for (i, thread) in threads.iter().enumerate() {
            self.note_thread(size, i as u32, thread)?;
        }
        Ok(())
    }

    fn note_schedule(&mut self, found: Option<&Value>) -> Result<(), AllocError> {
        let events = self.required_list_at(Key::Schedule, MOST_EVENTS, found)?;
        for (i, event) in events.iter().enumerate() {
            self.note(read_event(i as u32, event))?;
        }
        Ok(())
    }

    // Adds the faults of all keys. If some key is unknown, missing keys are not reported: it may be
    // one of them, misspelled.
    fn note_keys(&mut self, document: &Value, are_known: bool) -> Result<(), AllocError> {
        let found = document.get("entries");
        let entries = if are_known || found.is_some() {
            self.note(read_entries(found))?
        } else {
            None
        };
        self.note_numbers(document, entries)?;
        let pieces = self.list_at(Key::Memory, usize::MAX, document.get("memory"))?;
        self.note_pieces(pieces)?;
        self.note_files(document, are_known || document.get("objects").is_some())?;
        let threads = document.get("threads");
        if are_known || threads.is_some() {
            self.note_threads(ring_size(entries.unwrap_or(MOST_ENTRIES)), threads)?;
        }
        let schedule = document.get("schedule");
        if are_known || schedule.is_some() {
            self.note_schedule(schedule)?;
        }
        Ok(())
    }
}

/// Returns at most 20 faults of a script, in the order in which they are tested. Leaves out faults
/// that depend on a faulty key or item.
pub(crate) fn faults_of(alloc: Global, document: &Value) -> Result<Vec<ScriptFault>, AllocError> {
    let mut faults = Faults {
        alloc,
        list: Vec::new(alloc),
    };
    let known = faults.note(script_object(document, key_path(Key::Document)))?;
    if document.is_object() {
        faults.note_keys(document, known.is_some())?;
    }
    let Faults { alloc: _, list } = faults;
    Ok(list)
}
