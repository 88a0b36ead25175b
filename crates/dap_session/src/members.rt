//! Builds JSON objects.

use serde_json::{Map, Value, put};
use std::alloc::{AllocError, Global};

/// A JSON object that is being built.
#[derive(Drop)]
pub(crate) struct Members {
    alloc: Global,
    map: Map<String, Value>,
}

impl Members {
    /// Returns an object without members.
    pub(crate) fn new(alloc: Global) -> Members {
        Members {
            alloc,
            map: Map::new(alloc),
        }
    }

    /// Adds a member.
    pub(crate) fn add(&mut self, name: &str, value: Value) -> Result<(), AllocError> {
        put(&mut self.map, self.alloc, name, value)
    }

    /// Adds a text.
    pub(crate) fn text(&mut self, name: &str, text: &str) -> Result<(), AllocError> {
        self.add(name, Value::try_from_str(self.alloc, text)?)
    }

    /// Adds a number.
    pub(crate) fn number(&mut self, name: &str, number: u64) -> Result<(), AllocError> {
        self.add(name, Value::from(number))
    }

    /// Adds a truth value.
    pub(crate) fn flag(&mut self, name: &str, flag: bool) -> Result<(), AllocError> {
        self.add(name, Value::Bool(flag))
    }

    /// Returns the object.
    pub(crate) fn finish(self) -> Value {
        let Members { map, .. } = self;
        Value::Object(map)
    }
}

/// Returns an object with one list.
pub(crate) fn object_of(alloc: Global, name: &str, items: Vec<Value>) -> Result<Value, AllocError> {
    let mut members = Members::new(alloc);
    members.add(name, Value::Array(items))?;
    Ok(members.finish())
}
