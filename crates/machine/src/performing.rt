//! Carries out plans.
ghost use Rattle.std.specs.Prelude.{◌≡◌, OnOk, None};
ghost use Rattle.places.specs.View.{Keeps, named};
ghost use Rattle.places.specs.declared.place.Place.{Place};
ghost use Rattle.machine.specs.Steps.{after, refusal, submission_refusal, submitted};
ghost use Rattle.machine.specs.Plans.{CanDo, planned};
ghost use Rattle.machine.specs.Whole.{view, everywhere, Grows, WellFormed};
ghost use Rattle.machine.specs.declared.planning.Plan.TheVariants.{Execute};
ghost use Rattle.scenario.specs.declared.event.Event.TheVariants.{Tick};

use crate::planning::Plan;
use crate::whole::Machine;
use places::{Place, Recorder};
use scenario::Instruction;
use sqpoll::Poller;
use std::alloc::AllocError;

impl Machine {
    /// Carries out a plan. If an allocation fails, the machine may be half changed; undoing the
    /// notes restores it.
    pub(crate) fn perform(&mut self, plan: Plan, notes: &mut Recorder) -> Result<(), AllocError>
        requires can { CanDo self.old plan }
        requires formed { WellFormed self.old }
        requires fresh { (p : Place) → named notes.old.made p ≡ None }
        ensures ok { OnOk result (self.new ≡ planned self.old plan) }
        ensures grows { Grows self.old self.new }
        ensures keeps { Keeps everywhere (view self.old)
            (view self.new) notes.old.made notes.new.made }
    {
        match plan {
            Plan::Execute(t) => self.execute(t, notes),
            Plan::Return(t, n) => self.threads.answer(t, i64::from(n), notes),
            Plan::Submit(n) => self.submit_for_poller(n, notes),
            Plan::Rest => self.set_poller(Poller::Asleep, notes),
            Plan::Start(r) => self.issue(r, notes),
            Plan::Cancel(r) => self.cancel(r, notes),
            Plan::Complete(r, res, effect) => self.complete(r, res, effect, notes),
            Plan::TimeOut(r) => self.expire(r, notes),
            Plan::Advance(d) => self.tick(d, notes),
        }
    }

    // Advances the clock by d nanoseconds.
    fn tick(&mut self, d: u64, notes: &mut Recorder) -> Result<(), AllocError>
        requires { refusal self.old (Tick d) ≡ None }
        ensures ok { OnOk result (self.new ≡ after self.old (Tick d)) }
        ensures grows { Grows self.old self.new }
        ensures keeps { Keeps everywhere (view self.old)
            (view self.new) notes.old.made notes.new.made }
    {
        notes.note_number(Place::Clock, self.clock)?;
        self.clock += d;
        Ok(())
    }

    // Submits at most n entries, for the poller.
    fn submit_for_poller(&mut self, n: u32, notes: &mut Recorder) -> Result<(), AllocError>
        requires accepted { submission_refusal self.old n ≡ None }
        requires formed { WellFormed self.old }
        ensures ok { OnOk result (self.new ≡ submitted self.old n) }
        ensures grows { Grows self.old self.new }
        ensures keeps { Keeps everywhere (view self.old)
            (view self.new) notes.old.made notes.new.made }
    {
        self.submit(n, notes)?;
        Ok(())
    }

    // Carries out a thread's next instruction.
    fn execute(&mut self, t: u32, notes: &mut Recorder) -> Result<(), AllocError>
        requires can { CanDo self.old (Execute t) }
        requires formed { WellFormed self.old }
        requires fresh { (p : Place) → named notes.old.made p ≡ None }
        ensures ok { OnOk result (self.new ≡ planned self.old (Execute t)) }
        ensures grows { Grows self.old self.new }
        ensures keeps { Keeps everywhere (view self.old)
            (view self.new) notes.old.made notes.new.made }
    {
        match self.threads.instruction(t) {
            Instruction::Put(slot, entry) => {
                let (slot, entry) = (*slot, *entry);
                self.put_entry(t, slot, entry, notes)
            }
            Instruction::Push(index) => {
                let index = *index;
                self.push(t, index, notes)
            }
            Instruction::Enter {
                to_submit,
                min_complete,
                flags,
            } => {
                let (to_submit, min_complete, flags) = (*to_submit, *min_complete, *flags);
                self.enter(t, to_submit, min_complete, flags, notes)
            }
            Instruction::Reap => self.reap(t, notes),
            Instruction::Store(address, bytes) => {
                self.world.store(*address, bytes.as_slice(), notes)?;
                self.threads.advance(t, notes)
            }
            Instruction::Close(fd) => {
                let fd = *fd;
                self.close(t, fd, notes)
            }
        }
    }
}
