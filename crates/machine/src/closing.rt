//! A thread closes a descriptor (close(2)).
ghost use Rattle.std.specs.Prelude.{◌≡◌, OnOk, Some, slice_get};
ghost use Rattle.places.specs.View.{Keeps};
ghost use Rattle.machine.specs.Steps.{closed, is_open, next_of};
ghost use Rattle.machine.specs.Whole.{view, everywhere, Grows, WellFormed};
ghost use Rattle.scenario.specs.declared.setup.Instruction.TheVariants.{Close};

use crate::whole::Machine;
use entries::EBADF;
use model_files::DescriptorState;
use places::Recorder;
use std::alloc::AllocError;

impl Machine {
    /// Closes a descriptor for a thread, or returns -EBADF to it if the descriptor isn't open.
    /// Requests that hold the descriptor are not affected.
    pub(crate) fn close(&mut self, t: u32, fd: i32, notes: &mut Recorder) -> Result<(), AllocError>
        requires next { next_of (slice_get self.old.threads t) ≡ Some (Close fd) }
        requires formed { WellFormed self.old }
        ensures ok { OnOk result (self.new ≡ closed self.old t fd) }
        ensures grows { Grows self.old self.new }
        ensures keeps { Keeps everywhere (view self.old)
            (view self.new) notes.old.made notes.new.made }
    {
        if !is_open(self.world.descriptor_at(fd)) {
            return self.threads.answer(t, -i64::from(EBADF), notes);
        }
        self.world.close(fd as u32, notes)?;
        self.threads.answer(t, 0, notes)
    }
}

// Whether there is a descriptor, and it is open.
fn is_open(descriptor: Option<DescriptorState>) -> bool
    ensures { result ≡ is_open descriptor }
{
    match descriptor {
        Some(descriptor) => descriptor.is_open,
        None => false,
    }
}
