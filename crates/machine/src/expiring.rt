//! Expires timers (io_uring_enter(2), IORING_OP_TIMEOUT and IORING_OP_LINK_TIMEOUT).
ghost use Rattle.std.specs.Prelude.{◌≡◌, OnOk, None};
ghost use Rattle.places.specs.View.{Keeps};
ghost use Rattle.machine.specs.Steps.{after, refusal, waiting_target, waits_at};
ghost use Rattle.machine.specs.Whole.{view, everywhere, Grows, WellFormed};
ghost use Rattle.scenario.specs.declared.event.Event.TheVariants.{Expire};

use crate::whole::Machine;
use entries::{ECANCELED, ETIME, Row};
use links_drains::{is_guard, is_issued};
use opcodes::is_running;
use places::Recorder;
use std::alloc::AllocError;

impl Machine {
    /// Completes a timer with -ETIME. If it is a linked timeout and its target waits, cancels the
    /// target.
    pub(crate) fn expire(&mut self, r: u32, notes: &mut Recorder) -> Result<(), AllocError>
        requires accepted { refusal self.old (Expire r) ≡ None }
        requires formed { WellFormed self.old }
        ensures ok { OnOk result (self.new ≡ after self.old (Expire r)) }
        ensures grows { Grows self.old self.new }
        ensures keeps { Keeps everywhere (view self.old)
            (view self.new) notes.old.made notes.new.made }
    {
        match self.waiting_target(self.table.row_ref(r)) {
            Some(target) => self.cascade(&[(target, -ECANCELED), (r, -ETIME)], notes),
            None => self.cascade(&[(r, -ETIME)], notes),
        }
    }

    // The target of a linked timeout, if it waits.
    fn waiting_target(&self, row: &Row) -> Option<u32>
        ensures { result ≡ waiting_target self.now.table self.now.world row.now row.now.target }
    {
        match row.target {
            Some(target) if is_guard(row) && self.waits(target) => Some(target),
            _ => None,
        }
    }

    fn waits(&self, r: u32) -> bool
        ensures { result ≡ waits_at self.now.table self.now.world r }
    {
        if r as usize >= self.table.len() {
            return false;
        }
        let row = self.table.row_ref(r);
        is_issued(row) && !is_running(&self.world, row)
    }
}
