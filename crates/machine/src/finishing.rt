//! Issues requests, and completes them with the outcome that the kernel chose (io_uring_enter(2)).
ghost use Rattle.std.specs.Prelude.{◌≡◌, ◌+◌, ◌<◌, OnOk, None, Some, false, true, slice_get, length};
ghost use Rattle.std.specs.Option.{option_map_or};
ghost use Rattle.places.specs.Lists.{updated};
ghost use Rattle.links_drains.specs.Holding.{is_held_by};
ghost use Rattle.opcodes.specs.Effects.{Decides};
ghost use Rattle.opcodes.specs.Outcomes.{outcome_of};
ghost use Rattle.places.specs.View.{Keeps, named};
ghost use Rattle.places.specs.declared.place.Place.{Place};
ghost use Rattle.machine.specs.Steps.{after, base_of, deadline_of, refusal, held_by, is_guard_of, number_in, lacks_descriptor, is_usable, started};
ghost use Rattle.machine.specs.Whole.{view, everywhere, Grows, IsTime, WellFormed};
ghost use Rattle.scenario.specs.declared.event.Event.TheVariants.{Issue};
ghost use Rattle.machine.specs.Plans.{CanDo, planned};
ghost use Rattle.machine.specs.declared.planning.Plan.TheVariants.{Complete};

use crate::whole::Machine;
use entries::{EBADF, IORING_TIMEOUT_ABS, Phase, Row};
use links_drains::is_guard;
use model_files::{DescriptorState, World};
use opcodes::{
    Choice, Effect, Op, Outcome, carry_out, fits_end, outcome_and_effect, uses_descriptor,
};
use places::Recorder;
use std::alloc::AllocError;

impl Machine {
    /// Issues a queued request, and with it its linked timeout. The request holds its descriptor
    /// until it completes. If the descriptor isn't usable, the request completes with -EBADF
    /// instead.
    pub(crate) fn issue(&mut self, r: u32, notes: &mut Recorder) -> Result<(), AllocError>
        requires accepted { refusal self.old (Issue r) ≡ None }
        requires formed { WellFormed self.old }
        ensures ok { OnOk result (self.new ≡ after self.old (Issue r)) }
        ensures grows { Grows self.old self.new }
        ensures keeps { Keeps everywhere (view self.old)
            (view self.new) notes.old.made notes.new.made }
    {
        let row = self.table.row_ref(r);
        if lacks_descriptor(&self.world, row) {
            return self.cascade(&[(r, -EBADF)], notes);
        }
        self.start(r, notes)?;
        if self.has_guard(r) {
            return self.start(r + 1, notes);
        }
        Ok(())
    }

    // Issues one request, without its linked timeout. A timer gets its deadline.
    fn start(&mut self, r: u32, notes: &mut Recorder) -> Result<(), AllocError>
        requires there { r < length self.old.table }
        requires time { (row : Row) → slice_get self.old.table r ≡ Some row → IsTime row.time }
        ensures ok { OnOk result (self.new
            ≡ record self.old {
              table = updated
                  (started self.old.clock self.old.counted) self.old.table r;
            }) }
        ensures grows { Grows self.old self.new }
        ensures keeps { Keeps everywhere (view self.old)
            (view self.new) notes.old.made notes.new.made }
    {
        let row = self.table.row_ref(r);
        let deadline = deadline_of(self.clock, row);
        let base = base_of(self.counted, row);
        let held = held_by(row);
        self.table.issue(r, held, deadline, base, notes)
    }

    // Whether the next request is the queued linked timeout of request r.
    fn has_guard(&self, r: u32) -> bool
        requires few { r < 65536 }
        ensures value { result
            ≡ option_map_or (is_guard_of r) (slice_get self.now.table (r + 1)) false }
        ensures there { result ≡ true → r + 1 < length self.now.table }
    {
        r as usize + 1 < self.table.len() && is_guard_of(r, self.table.row_ref(r + 1))
    }

    /// Completes an issued request with a result, after its effect, and its cascade.
    pub(crate) fn complete(
        &mut self,
        r: u32,
        res: i32,
        effect: Effect,
        notes: &mut Recorder,
    ) -> Result<(), AllocError>
        requires can { CanDo self.old (Complete r res effect) }
        requires formed { WellFormed self.old }
        requires fresh { (p : Place) → named notes.old.made p ≡ None }
        ensures ok { OnOk result (self.new ≡ planned self.old (Complete r res effect)) }
        ensures grows { Grows self.old self.new }
        ensures keeps { Keeps everywhere (view self.old)
            (view self.new) notes.old.made notes.new.made }
    {
        carry_out(&mut self.world, effect, notes)?;
        self.cascade(&[(r, res)], notes)
    }

    /// Returns the outcome of an issued request for a choice, and what the request does if it
    /// completes so.
    pub(crate) fn decide(&self, row: &Row, choice: Choice) -> (Outcome, Effect)
        ensures outcome { result.0
            ≡ outcome_of (is_held_by self.now.table) self.now.world row.now choice }
        ensures effect { Decides self.now.world row.now result.0 result.1 }
    {
        outcome_and_effect(&self.world, self.table.held(), row, choice)
    }
}

// The deadline of a request that is issued at time `clock`, in nanoseconds. A timeout is relative,
// unless it has IORING_TIMEOUT_ABS.
fn deadline_of(clock: u64, row: &Row) -> Option<u128>
    requires { IsTime row.now.time }
    ensures { result ≡ deadline_of clock row.now }
{
    match row.time {
        Some(time) if row.entry.operation_flags & IORING_TIMEOUT_ABS != 0 => Some(time),
        Some(time) => Some(time + u128::from(clock)),
        None => None,
    }
}

// The number of completions counted when a TIMEOUT is issued.
fn base_of(counted: u32, row: &Row) -> u32
    ensures { result ≡ base_of counted row.now }
{
    if row.entry.opcode == Op::Timeout as u8 {
        counted
    } else {
        row.base
    }
}

// Whether the request is the queued linked timeout of request r.
fn is_guard_of(r: u32, row: &Row) -> bool
    ensures { result ≡ is_guard_of r row.now }
{
    is_guard(row) && row.phase == Phase::Queued && row.target == Some(r)
}

// The descriptor that a request holds once it is issued.
fn held_by(row: &Row) -> Option<u32>
    ensures { result ≡ held_by row.now }
{
    if uses_descriptor(row.entry.opcode) {
        number_in(row.entry.fd)
    } else {
        None
    }
}

// The descriptor number, if it isn't negative.
fn number_in(fd: i32) -> Option<u32>
    ensures { result ≡ number_in fd }
{
    if fd < 0 {
        return None;
    }
    Some(fd as u32)
}

// Whether the request needs a descriptor that isn't usable.
fn lacks_descriptor(world: &World, row: &Row) -> bool
    ensures { result ≡ lacks_descriptor world.now row.now }
{
    uses_descriptor(row.entry.opcode) && !is_usable(row, world.descriptor_at(row.entry.fd))
}

// Whether the descriptor is open, and its end of the object fits the request.
fn is_usable(row: &Row, descriptor: Option<DescriptorState>) -> bool
    ensures { result ≡ is_usable row.now descriptor }
{
    match descriptor {
        Some(descriptor) => descriptor.is_open && fits_end(row.entry.opcode, descriptor.end),
        None => false,
    }
}
