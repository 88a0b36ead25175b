//! The list of a session's watches and breaks.
ghost use Rattle.std.specs.Prelude.{◌≡◌, ◌+◌, ◌<◌, ◌≤◌, true, length, IsOk, IfOk, OnOk, OnErr};
ghost use Rattle.watches.specs.Watchpoints.{nothing, watched, broken, is_watched};

use places::{Place, Value};
use std::alloc::{AllocError, Global};
use std::marker::Model;

/// The greatest number of watches, and of breaks.
pub const LIMIT: usize = 64;

/// A breakpoint: a place, and the value at which to stop.
#[derive(Clone, Copy)]
pub struct Break {
    pub place: Place,
    pub value: Value,
}

/// The watches and breaks of a session.
#[derive(Drop)]
pub struct Watches {
    places: Vec<Place>,
    breaks: Vec<Break>,
}

impl Model for Watches {
    ghost use Rattle.watches.specs.Watchpoints.{Stops, Few};

    ghost Value = { Stops };

    ghost view = { λ w. record { watchpoints = w.places.items; breakpoints = w.breaks.items } };

    ghost invariant = { λ w. Few w.places.items w.breaks.items };
}

impl Watches {
    /// Returns an empty list. Allocates nothing.
    pub fn new(alloc: Global) -> Watches
        ensures { result ≡ nothing }
    {
        Watches {
            places: Vec::new(alloc),
            breaks: Vec::new(alloc),
        }
    }

    /// Returns the watched places, each once.
    pub fn places(&self) -> &[Place]
        ensures value { result.now ≡ self.now.watchpoints }
        ensures few { length self.now.watchpoints ≤ 64 }
    {
        self.places.as_slice()
    }

    /// Returns the breaks in the order in which they were added.
    pub fn breaks(&self) -> &[Break]
        ensures value { result.now ≡ self.now.breakpoints }
        ensures few { length self.now.breakpoints ≤ 64 }
    {
        self.breaks.as_slice()
    }

    /// Returns how many watches there would be with this place watched. The caller builds its reply
    /// from it before it adds the watch.
    pub fn count_with(&self, place: Place) -> usize
        ensures value { result ≡ length (watched self.now place).watchpoints }
        ensures few { result ≤ 65 }
    {
        let count = self.places.len();
        if has_place(&self.places, place) {
            count
        } else {
            count + 1
        }
    }

    /// Watches a place and returns the number of watches. A place that is watched
    /// already is not added again.
    pub fn watch(&mut self, place: Place) -> Result<u32, AllocError>
        requires { length self.old.watchpoints < 64 }
        ensures ok { OnOk result (self.new ≡ watched self.old place) }
        ensures there { is_watched self.old.watchpoints place ≡ true → IsOk result }
        ensures number { IfOk result (λ n. n ≡ length self.new.watchpoints) }
        ensures err { OnErr result (self.new ≡ self.old) }
    {
        if !has_place(&self.places, place) {
            self.places.push(place)?;
        }
        Ok(self.places.len() as u32)
    }

    /// Adds a break and returns the number of breaks.
    pub fn break_at(&mut self, place: Place, value: Value) -> Result<u32, AllocError>
        requires { length self.old.breakpoints < 64 }
        ensures ok { OnOk result (self.new ≡ broken self.old place value) }
        ensures number { IfOk result (λ n. n ≡ length self.new.breakpoints) }
        ensures err { OnErr result (self.new ≡ self.old) }
    {
        self.breaks.push(Break { place, value })?;
        Ok(self.breaks.len() as u32)
    }

    /// Removes all watches and breaks.
    pub fn clear(&mut self)
        ensures { self.new ≡ nothing }
    {
        self.places.clear();
        self.breaks.clear();
    }
}

fn has_place(places: &[Place], place: Place) -> bool
    ensures { result ≡ is_watched places.now place }
{
    places.iter().any(|watched| watched.equals(&place))
}
