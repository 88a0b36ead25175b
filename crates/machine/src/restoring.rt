//! Restores the machine from an undo record.
ghost use Rattle.std.specs.Prelude.{◌≡◌};
ghost use Rattle.places.specs.View.{undo, NamesOnce};
ghost use Rattle.places.specs.declared.place.Place.{Place};
ghost use Rattle.machine.specs.Whole.{view, GoesBack, Overwrites, Overwritten};
ghost use Rattle.machine.specs.declared.whole.Machine.{Machine};

use crate::whole::Machine;
use places::{Changes, Part, Record, Stretches};

impl Machine {
    /// Restores the old values of all places in the record. Doesn't allocate.
    pub fn restore(&mut self, past: &Record)
        requires { (s : Machine) × GoesBack s self.old past.now }
        ensures undone { (p : Place) → view self.new p ≡ undo (view self.old) past.now p }
        ensures back { (s : Machine) → GoesBack s self.old past.now → self.new ≡ s }
    {
        let (mut kinds, mut stretches, mut others) = past.parts();
        let (rows, overflowed) = past.lengths_left(self.table.len(), self.backlog.len());
        self.table.truncate(rows);
        self.backlog.truncate(overflowed);
        self.overwrite(&mut kinds);
        self.overwrite_bytes(&mut stretches);
        self.overwrite(&mut others);
    }

    // Restores the old values of places. Places that were absent have been removed before.
    fn overwrite(&mut self, rest: &mut Changes<'_>)
        requires origin { (s : Machine) × Overwrites s self.old rest.old }
        requires once { NamesOnce rest.old }
        ensures { Overwritten self.old self.new rest.old }
    {
        while let Some((place, number)) = rest.next_number() {
            self.put_number(place, number);
        }
        while let Some(change) = rest.next() {
            if change.old.is_some() {
                self.put(change.place, change.old);
            }
        }
    }

    // Restores bytes, one contiguous range at a time.
    fn overwrite_bytes(&mut self, rest: &mut Stretches<'_>)
        requires origin { (s : Machine) × Overwrites s self.old rest.old.left }
        requires once { NamesOnce rest.old.left }
        ensures { Overwritten self.old self.new rest.old.left }
    {
        while let Some(stretch) = rest.next() {
            self.world.put_back(stretch);
        }
    }
}
