//! Finds the values of a script's text in one pass, without reading them.

use crate::certifying::value_of;
use crate::span::Span;
use crate::spelling::range_of;
use crate::walk::{Ended, Walk};
use places::Items;
use script::{Key, Path};
use serde_json::Value;
use std::alloc::{AllocError, Global};
use std::mem;

/// The value of a key of the script.
#[derive(Clone, Copy)]
pub struct KeyValue {
    pub key: Key,
    pub span: Span,
}

/// The ranges of the values of a text that should be a script. Of a key that is repeated, the last
/// value counts.
#[derive(Drop)]
pub struct Spans {
    /// The values of keys, in the text's order.
    pub values: Vec<KeyValue>,
    pub memory: Vec<Span>,
    pub objects: Vec<Span>,
    pub fds: Vec<Span>,
    /// The lists of instructions.
    pub programs: Vec<Span>,
    /// The instructions of each thread.
    pub threads: Vec<Items<Span>>,
    pub schedule: Vec<Span>,
}

impl Spans {
    fn new(alloc: Global) -> Spans {
        Spans {
            values: Vec::new(alloc),
            memory: Vec::new(alloc),
            objects: Vec::new(alloc),
            fds: Vec::new(alloc),
            programs: Vec::new(alloc),
            threads: Vec::new(alloc),
            schedule: Vec::new(alloc),
        }
    }

    // Returns the items of a key's list.
    fn items(&self, key: Key) -> &[Span] {
        match key {
            Key::Memory => &self.memory,
            Key::Objects => &self.objects,
            Key::Fds => &self.fds,
            Key::Threads => &self.programs,
            Key::Schedule => &self.schedule,
            _ => &[],
        }
    }

    // Returns the last value of a key.
    fn value(&self, key: Key) -> Option<Span> {
        let found = self.values.iter().rev().find(|value| value.key == key);
        found.map(|value| value.span)
    }

    /// Returns the range of the value at a path, if there is one.
    pub fn at(&self, path: Path) -> Option<Span> {
        let Some(item) = path.item else {
            return self.value(path.key);
        };
        match path.inner {
            Some(inner) => {
                let items = self.threads.get(item as usize)?.as_slice();
                items.get(inner as usize).copied()
            }
            None => self.items(path.key).get(item as usize).copied(),
        }
    }
}

// A scan of a script.
#[derive(Drop)]
struct Scan {
    alloc: Global,
    // The key of the current member, if a script has it.
    key: Option<Key>,
    // The items of the current list.
    items: Vec<Span>,
    // The items of the current item.
    inner: Vec<Span>,
    // The items of the earlier items.
    threads: Vec<Items<Span>>,
    spans: Spans,
}

// The keys of a script, by their names.
const KEYS: &[(&str, Key)] = &[
    ("entries", Key::Entries),
    ("cq", Key::Cq),
    ("sqpoll", Key::Sqpoll),
    ("submit_all", Key::SubmitAll),
    ("base", Key::Base),
    ("memory", Key::Memory),
    ("objects", Key::Objects),
    ("fds", Key::Fds),
    ("threads", Key::Threads),
    ("schedule", Key::Schedule),
];

fn key_named(word: &[u8]) -> Option<Key> {
    let (_, key) = KEYS.iter().find(|(name, _)| name.as_bytes() == word)?;
    Some(*key)
}

// Returns the key that a range of the text spells, if a script has it. Only a string with escapes
// is read.
fn key_at(alloc: Global, text: &[u8], span: Span) -> Result<Option<Key>, AllocError> {
    let Some(range) = range_of(text, span) else {
        return Ok(None);
    };
    match range {
        [b'"', word @ .., b'"'] if !word.contains(&b'\\') => Ok(key_named(word)),
        _ => {
            let found = value_of(alloc, range)?;
            Ok(
                found
                    .as_ref()
                    .and_then(Value::as_str)
                    .and_then(|key| key_named(key.as_bytes())),
            )
        }
    }
}

impl Scan {
    fn new(alloc: Global) -> Scan {
        Scan {
            alloc,
            key: None,
            items: Vec::new(alloc),
            inner: Vec::new(alloc),
            threads: Vec::new(alloc),
            spans: Spans::new(alloc),
        }
    }

    // Ends an item of the current list.
    fn end_item(&mut self, span: Span) -> Result<(), AllocError> {
        self.items.push(span)?;
        if let Some(Key::Threads) = self.key {
            let inner = mem::replace(&mut self.inner, Vec::new(self.alloc));
            self.threads.push(Items::from_vec(inner))?;
        }
        Ok(())
    }

    fn end_inner(&mut self, span: Span) -> Result<(), AllocError> {
        if let Some(Key::Threads) = self.key {
            self.inner.push(span)?;
        }
        Ok(())
    }

    // Ends the value of the current key.
    fn end_value(&mut self, span: Span) -> Result<(), AllocError> {
        let items = mem::replace(&mut self.items, Vec::new(self.alloc));
        let threads = mem::replace(&mut self.threads, Vec::new(self.alloc));
        let Some(key) = self.key else {
            return Ok(());
        };
        self.spans.values.push(KeyValue { key, span })?;
        match key {
            Key::Memory => self.spans.memory = items,
            Key::Objects => self.spans.objects = items,
            Key::Fds => self.spans.fds = items,
            Key::Schedule => self.spans.schedule = items,
            Key::Threads => {
                self.spans.programs = items;
                self.spans.threads = threads;
            }
            _ => {}
        }
        Ok(())
    }

    fn take(&mut self, text: &[u8], ended: Ended) -> Result<(), AllocError> {
        match ended {
            Ended::Key(span) => {
                self.key = key_at(self.alloc, text, span)?;
                Ok(())
            }
            Ended::Value(span) => self.end_value(span),
            Ended::Item(span) => self.end_item(span),
            Ended::Inner(span) => self.end_inner(span),
        }
    }
}

/// Finds the values of a script's text.
pub fn spans_of(alloc: Global, text: &[u8]) -> Result<Spans, AllocError> {
    let mut scan = Scan::new(alloc);
    let mut walk = Walk::new();
    let mut at = 0;
    while at < text.len() {
        let byte = text[at];
        if let Some(before) = walk.read_end(at, byte) {
            scan.take(text, before)?;
        }
        if let Some(ended) = walk.read(at, byte) {
            scan.take(text, ended)?;
        }
        at = walk.next(text, at + 1);
    }
    let Scan { spans, .. } = scan;
    Ok(spans)
}
