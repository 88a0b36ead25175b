//! Looks up objects by name.
ghost use Rattle.std.specs.Prelude.{◌≡◌, ◌<◌, ◌++◌, ◌∷◌, [], IfOk, IfErr, length, false, position};
ghost use Rattle.std.specs.List.{list_any};
ghost use Rattle.scenario.specs.Setups.{is_named};

use crate::fault::ScriptFault;
use indexmap::IndexSet;
use places::{Items, Object};
use std::alloc::Global;
use std::marker::Model;

/// At most 32 objects, and an index from their names to their numbers.
#[derive(Drop)]
pub struct NamedObjects<'a> {
    objects: Vec<Object>,
    names: IndexSet<&'a str>,
}

impl<'a> Model for NamedObjects<'a> {
    ghost use Rattle.std.specs.Prelude.{List};
    ghost use Rattle.places.specs.declared.object.Object.{Object};
    ghost use Rattle.script.specs.Names.{AreNumbered};

    ghost Value = { List Object };

    ghost view = { λ n. n.objects.items };

    ghost invariant = { λ n. AreNumbered n.names.keys n.objects.items };
}

impl<'a> NamedObjects<'a> {
    /// Returns an empty set. It doesn't allocate.
    pub fn new(alloc: Global) -> NamedObjects<'a>
        ensures { result ≡ [] }
    {
        NamedObjects {
            objects: Vec::new(alloc),
            names: IndexSet::new(alloc),
        }
    }

    /// Whether an object has this name.
    pub fn has(&self, name: &str) -> bool
        ensures { result ≡ list_any (is_named name.now) self.now }
    {
        self.names.contains(name)
    }

    /// Returns the set with one more object. An error is `ScriptFault::Memory`.
    pub fn with(self, name: &'a str, object: Object) -> Result<NamedObjects<'a>, ScriptFault>
        requires same { object.name ≡ name.now }
        requires new { list_any (is_named object.name) self ≡ false }
        requires room { length self < 32 }
        ensures ok { IfOk result (λ n. n ≡ self.entry ++ object ∷ []) }
        ensures err { IfErr result (λ e. e ≡ ScriptFault.Memory) }
    {
        let NamedObjects {
            mut objects,
            mut names,
        } = self;
        let Ok(()) = objects.push(object) else {
            return Err(ScriptFault::Memory);
        };
        let Ok(_) = names.insert(name) else {
            return Err(ScriptFault::Memory);
        };
        let named = NamedObjects { objects, names };
        Ok(named)
    }

    /// Returns the number of the object with this name.
    pub fn number_of(&self, name: &str) -> Option<u32>
        ensures { result ≡ position (is_named name.now) self.now }
    {
        match self.names.get_index_of(name) {
            Some(number) => Some(number as u32),
            None => None,
        }
    }

    /// Borrows the objects.
    pub fn as_slice(&self) -> &[Object]
        ensures { result.now ≡ self.now }
    {
        &self.objects
    }

    /// Returns the objects.
    pub fn into_items(self) -> Items<Object>
        ensures { result ≡ self.entry }
    {
        let NamedObjects { objects, names: _ } = self;
        Items::from_vec(objects)
    }
}
