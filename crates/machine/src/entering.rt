//! The system call of a thread that submits and waits (io_uring_enter(2)).
ghost use Rattle.std.specs.Prelude.{◌≡◌, ◌<◌, ◌+◌, ◌^◌, OnOk, None, Some, true, is_some, slice_get, length};
ghost use Rattle.places.specs.View.{Keeps};
ghost use Rattle.machine.specs.Steps.{executed, instruction_refusal, alone_refusal, next_of, flushed, before_submission, woken, shown, awaited, entered_with_poller, entered_without_poller, with_poller};
ghost use Rattle.machine.specs.Threads.{ThreadState};
ghost use Rattle.machine.specs.Whole.{view, everywhere, Grows, WellFormed};
ghost use Rattle.scenario.specs.declared.setup.Instruction.TheVariants.{Enter};

use crate::whole::Machine;
use entries::{EBUSY, EINVAL, IORING_ENTER_GETEVENTS, IORING_ENTER_SQ_WAKEUP};
use overflow::flush;
use places::{Recorder, Stage};
use sqpoll::Poller;
use std::alloc::AllocError;

impl Machine {
    /// Enters the kernel for a thread. Unknown flags return -EINVAL.
    pub(crate) fn enter(
        &mut self,
        t: u32,
        to_submit: u32,
        min_complete: u32,
        flags: u32,
        notes: &mut Recorder,
    ) -> Result<(), AllocError>
        requires next { next_of (slice_get self.old.threads t)
            ≡ Some (Enter to_submit min_complete flags) }
        requires accepted { instruction_refusal self.old (Enter to_submit min_complete flags)
            ≡ None }
        requires formed { WellFormed self.old }
        ensures ok { OnOk result (self.new
            ≡ executed self.old t (Some (Enter to_submit min_complete flags))) }
        ensures grows { Grows self.old self.new }
        ensures keeps { Keeps everywhere (view self.old)
            (view self.new) notes.old.made notes.new.made }
    {
        if flags > IORING_ENTER_GETEVENTS | IORING_ENTER_SQ_WAKEUP {
            return self.threads.answer(t, -i64::from(EINVAL), notes);
        }
        if self.poller.is_some() {
            self.enter_with_poller(t, to_submit, min_complete, flags, notes)
        } else {
            self.enter_without_poller(t, to_submit, min_complete, flags, notes)
        }
    }

    // Without a poller, the thread submits. It fails with -EBUSY while completions overflow the
    // ring.
    fn enter_without_poller(
        &mut self,
        t: u32,
        to_submit: u32,
        min_complete: u32,
        flags: u32,
        notes: &mut Recorder,
    ) -> Result<(), AllocError>
        requires next { next_of (slice_get self.old.threads t)
            ≡ Some (Enter to_submit min_complete flags) }
        requires accepted { alone_refusal self.old to_submit flags ≡ None }
        requires formed { WellFormed self.old }
        ensures ok { OnOk result (self.new
            ≡ entered_without_poller self.old t to_submit min_complete flags) }
        ensures grows { Grows self.old self.new }
        ensures keeps { Keeps everywhere (view self.old)
            (view self.new) notes.old.made notes.new.made }
    {
        self.make_way(to_submit, flags, notes)?;
        if to_submit > 0 && !self.backlog.is_empty() {
            return self.threads.answer(t, -i64::from(EBUSY), notes);
        }
        let taken = self.submit(to_submit, notes)?;
        self.answer_or_wait(t, taken, to_submit, min_complete, flags, notes)
    }

    // Moves overflowed completions into the ring, if the caller waits for completions or submits
    // entries.
    fn make_way(
        &mut self,
        to_submit: u32,
        flags: u32,
        notes: &mut Recorder,
    ) -> Result<(), AllocError>
        requires formed { WellFormed self.old }
        ensures ok { OnOk result (self.new ≡ before_submission self.old to_submit flags) }
        ensures grows { Grows self.old self.new }
        ensures keeps { Keeps everywhere (view self.old)
            (view self.new) notes.old.made notes.new.made }
    {
        if flags & IORING_ENTER_GETEVENTS == 0 && to_submit == 0 {
            return Ok(());
        }
        self.flush(notes)
    }

    // With a poller, the thread only wakes it and moves overflowed completions, as its flags say.
    fn enter_with_poller(
        &mut self,
        t: u32,
        to_submit: u32,
        min_complete: u32,
        flags: u32,
        notes: &mut Recorder,
    ) -> Result<(), AllocError>
        requires next { next_of (slice_get self.old.threads t)
            ≡ Some (Enter to_submit min_complete flags) }
        requires poller { is_some self.old.poller ≡ true }
        requires formed { WellFormed self.old }
        ensures ok { OnOk result (self.new
            ≡ entered_with_poller self.old t to_submit min_complete flags) }
        ensures grows { Grows self.old self.new }
        ensures keeps { Keeps everywhere (view self.old)
            (view self.new) notes.old.made notes.new.made }
    {
        self.wake(flags, notes)?;
        self.flush_on_getevents(flags, notes)?;
        self.answer_or_wait(t, to_submit, to_submit, min_complete, flags, notes)
    }

    // Wakes the poller, if the flags say so.
    fn wake(&mut self, flags: u32, notes: &mut Recorder) -> Result<(), AllocError>
        requires poller { is_some self.old.poller ≡ true }
        ensures ok { OnOk result (self.new ≡ woken self.old flags) }
        ensures grows { Grows self.old self.new }
        ensures keeps { Keeps everywhere (view self.old)
            (view self.new) notes.old.made notes.new.made }
    {
        if flags & IORING_ENTER_SQ_WAKEUP == 0 {
            return Ok(());
        }
        self.set_poller(Poller::Awake, notes)
    }

    // Moves overflowed completions into the ring, if the caller waits for completions.
    fn flush_on_getevents(&mut self, flags: u32, notes: &mut Recorder) -> Result<(), AllocError>
        requires formed { WellFormed self.old }
        ensures ok { OnOk result (self.new ≡ shown self.old flags) }
        ensures grows { Grows self.old self.new }
        ensures keeps { Keeps everywhere (view self.old)
            (view self.new) notes.old.made notes.new.made }
    {
        if flags & IORING_ENTER_GETEVENTS == 0 {
            return Ok(());
        }
        self.flush(notes)
    }

    // Lets the thread wait, if it submitted all `to_submit` entries and too few completions are
    // ready; else returns `taken` to it.
    fn answer_or_wait(
        &mut self,
        t: u32,
        taken: u32,
        to_submit: u32,
        min_complete: u32,
        flags: u32,
        notes: &mut Recorder,
    ) -> Result<(), AllocError>
        requires there { t < length self.old.threads }
        requires can_advance { (x : ThreadState) → slice_get self.old.threads t ≡ Some x
            → x.counter + 1 < 2 ^ 32 }
        ensures ok { OnOk result (self.new
            ≡ awaited self.old t taken to_submit min_complete flags) }
        ensures grows { Grows self.old self.new }
        ensures keeps { Keeps everywhere (view self.old)
            (view self.new) notes.old.made notes.new.made }
    {
        let needed = min_complete.min(self.completions.size());
        if flags & IORING_ENTER_GETEVENTS != 0
            && taken == to_submit
            && self.completions.waiting() < needed
        {
            return self
                .threads
                .set_stage(t, Stage::Waiting(taken, needed), notes);
        }
        self.threads.answer(t, i64::from(taken), notes)
    }

    // Moves overflowed completions into the ring, as many as fit.
    fn flush(&mut self, notes: &mut Recorder) -> Result<(), AllocError>
        requires formed { WellFormed self.old }
        ensures ok { OnOk result (self.new ≡ flushed self.old) }
        ensures grows { Grows self.old self.new }
        ensures keeps { Keeps everywhere (view self.old)
            (view self.new) notes.old.made notes.new.made }
    {
        flush(
            &mut self.submissions,
            &mut self.completions,
            &mut self.backlog,
            notes,
        )
    }

    /// Puts the poller to sleep, or wakes it.
    pub(crate) fn set_poller(
        &mut self,
        stage: Poller,
        notes: &mut Recorder,
    ) -> Result<(), AllocError>
        requires poller { is_some self.old.poller ≡ true }
        ensures ok { OnOk result (self.new ≡ with_poller self.old stage) }
        ensures grows { Grows self.old self.new }
        ensures keeps { Keeps everywhere (view self.old)
            (view self.new) notes.old.made notes.new.made }
    {
        notes.room(1)?;
        if let Some(poller) = &mut self.poller {
            match stage {
                Poller::Asleep => poller.sleep(&mut self.submissions, notes),
                Poller::Awake => poller.wake(&mut self.submissions, notes),
            }
        }
        Ok(())
    }
}
