//! The instructions of threads, except Enter and Close (io_uring(7)).
ghost use Rattle.std.specs.Prelude.{◌≡◌, OnOk, None, Some, slice_get};
ghost use Rattle.places.specs.View.{Keeps};
ghost use Rattle.machine.specs.Steps.{executed, instruction_refusal, next_of};
ghost use Rattle.machine.specs.Whole.{view, everywhere, Grows, WellFormed};
ghost use Rattle.scenario.specs.declared.setup.Instruction.TheVariants.{Put, Push, Reap};

use crate::whole::Machine;
use entries::Sqe;
use places::{At, Place, Recorder};
use std::alloc::AllocError;

impl Machine {
    /// Writes an entry into a slot of the submission queue.
    pub(crate) fn put_entry(
        &mut self,
        t: u32,
        slot: u32,
        entry: Sqe,
        notes: &mut Recorder,
    ) -> Result<(), AllocError>
        requires next { next_of (slice_get self.old.threads t) ≡ Some (Put slot entry) }
        requires formed { WellFormed self.old }
        ensures ok { OnOk result (self.new ≡ executed self.old t (Some (Put slot entry))) }
        ensures grows { Grows self.old self.new }
        ensures keeps { Keeps everywhere (view self.old)
            (view self.new) notes.old.made notes.new.made }
    {
        let place = Place::Slot(slot);
        notes.note(place, self.submissions.at(place))?;
        self.submissions.put_entry(slot, entry);
        self.threads.advance(t, notes)
    }

    /// Writes the index of an entry at the submission tail, and advances the tail.
    pub(crate) fn push(
        &mut self,
        t: u32,
        index: u32,
        notes: &mut Recorder,
    ) -> Result<(), AllocError>
        requires next { next_of (slice_get self.old.threads t) ≡ Some (Push index) }
        requires accepted { instruction_refusal self.old (Push index) ≡ None }
        requires formed { WellFormed self.old }
        ensures ok { OnOk result (self.new ≡ executed self.old t (Some (Push index))) }
        ensures grows { Grows self.old self.new }
        ensures keeps { Keeps everywhere (view self.old)
            (view self.new) notes.old.made notes.new.made }
    {
        notes.room_for_numbers(3)?;
        self.submissions.push(index, notes);
        self.threads.advance(t, notes)
    }

    /// Takes the oldest completion from the ring.
    pub(crate) fn reap(&mut self, t: u32, notes: &mut Recorder) -> Result<(), AllocError>
        requires next { next_of (slice_get self.old.threads t) ≡ Some Reap }
        requires accepted { instruction_refusal self.old Reap ≡ None }
        requires formed { WellFormed self.old }
        ensures ok { OnOk result (self.new ≡ executed self.old t (Some Reap)) }
        ensures grows { Grows self.old self.new }
        ensures keeps { Keeps everywhere (view self.old)
            (view self.new) notes.old.made notes.new.made }
    {
        notes.room_for_numbers(2)?;
        let completion = self.completions.reap(notes);
        self.threads.deliver(t, completion, notes)
    }
}
