//! Decides whether an event is possible in the current state.
ghost use Rattle.std.specs.Prelude.{◌≡◌, ℕ, Some, slice_get, length, min};
ghost use Rattle.ring_words.specs.Rings.{sub_list};
ghost use Rattle.machine.specs.Steps.{refusal, next_refusal, instruction_refusal, enter_refusal, alone_refusal, submission_refusal, take_refusal, sleep_refusal, issue_refusal, expire_refusal, full_refusal, is_busy, flushed};
ghost use Rattle.machine.specs.Submission.{offered};
ghost use Rattle.machine.specs.Whole.{WellFormed};
ghost use Rattle.places.specs.declared.value.Stage.TheVariants.{Waiting};
ghost use Rattle.scenario.specs.declared.setup.Instruction.{Instruction};
ghost use Rattle.scenario.specs.declared.event.Event.TheVariants.{Tick};

use crate::whole::Machine;
use entries::{Phase, Row};
use links_drains::is_issued;
use opcodes::{Choice, is_timer};
use scenario::{Event, Instruction, Refusal};
use sqpoll::Poller;
use timeouts_cancel::due;

impl Machine {
    /// Returns why an event is refused, if it is. Doesn't allocate.
    pub fn refuses(&self, event: Event) -> Option<Refusal>
        requires formed { WellFormed self.now }
        ensures { result ≡ refusal self.now event }
    {
        self.plan(event).err()
    }

    pub(crate) fn refuses_tick(&self, d: u64) -> Option<Refusal>
        ensures { result ≡ refusal self.now (Tick d) }
    {
        if d > u64::MAX - self.clock {
            Some(Refusal::ClockFull)
        } else {
            None
        }
    }

    // A thread that waits for completions continues when this many are in the ring.
    pub(crate) fn refuses_wait(&self, needed: u32) -> Option<Refusal>
        ensures { (n : ℕ) (i : Instruction) → result
            ≡ next_refusal self.now (Waiting n needed) (Some i) }
    {
        if self.completions.waiting() < needed {
            Some(Refusal::StillWaiting)
        } else {
            None
        }
    }

    pub(crate) fn refuses_take(&self, n: u32) -> Option<Refusal>
        ensures { result ≡ take_refusal self.now self.now.poller n }
    {
        match self.poller {
            None => Some(Refusal::NoPoller),
            Some(Poller::Asleep) => Some(Refusal::Asleep),
            Some(Poller::Awake) => self.refuses_submission(n),
        }
    }

    pub(crate) fn refuses_sleep(&self) -> Option<Refusal>
        ensures { result ≡ sleep_refusal self.now self.now.poller }
    {
        match self.poller {
            None => Some(Refusal::NoPoller),
            Some(Poller::Asleep) => Some(Refusal::Asleep),
            Some(Poller::Awake) => {
                if self.submissions.is_empty() {
                    None
                } else {
                    Some(Refusal::NotIdle)
                }
            }
        }
    }

    pub(crate) fn refuses_instruction(&self, instruction: &Instruction) -> Option<Refusal>
        requires formed { WellFormed self.now }
        ensures { result ≡ instruction_refusal self.now instruction.now }
    {
        match instruction {
            Instruction::Push(_) => {
                if self.submissions.is_full() {
                    Some(Refusal::SqFull)
                } else {
                    None
                }
            }
            Instruction::Enter {
                to_submit,
                min_complete: _,
                flags,
            } => self.refuses_enter(*to_submit, *flags),
            Instruction::Reap => {
                if self.completions.is_empty() {
                    Some(Refusal::NothingToReap)
                } else {
                    None
                }
            }
            _ => None,
        }
    }

    fn refuses_submission(&self, to_submit: u32) -> Option<Refusal>
        ensures { result ≡ submission_refusal self.now to_submit }
    {
        let count = self.offered(to_submit);
        if self.table.len() + count as usize > 65536 {
            Some(Refusal::RequestsFull)
        } else {
            None
        }
    }

    // With a poller, an Enter submits nothing, so it isn't refused.
    fn refuses_enter(&self, to_submit: u32, flags: u32) -> Option<Refusal>
        ensures { result ≡ enter_refusal self.now self.now.poller to_submit flags }
    {
        match self.poller {
            None if flags <= 3 => self.refuses_alone(to_submit),
            _ => None,
        }
    }

    // An Enter that returns -EBUSY submits nothing either.
    fn refuses_alone(&self, to_submit: u32) -> Option<Refusal>
        ensures { (flags : ℕ) → result ≡ alone_refusal self.now to_submit flags }
    {
        if self.stays_busy(to_submit) {
            None
        } else {
            self.refuses_submission(to_submit)
        }
    }

    // Whether completions would still overflow after as many as fit moved into the ring.
    fn stays_busy(&self, to_submit: u32) -> bool
        ensures { result ≡ is_busy (flushed self.now) to_submit }
    {
        let free = self
            .completions
            .size()
            .saturating_sub(self.completions.waiting());
        to_submit > 0 && self.backlog.kept() > free as usize
    }

    /// Returns how many index words a submission of at most `to_submit` entries can read.
    pub(crate) fn offered(&self, to_submit: u32) -> u32
        ensures offered { result ≡ length (offered self.now.submissions to_submit) }
        ensures least { result ≡ min to_submit (length (sub_list self.now.submissions)) }
    {
        to_submit.min(self.submissions.waiting())
    }

    pub(crate) fn refuses_issue(&self, r: u32) -> Option<Refusal>
        requires formed { WellFormed self.now }
        ensures { result ≡ issue_refusal self.now.table r (slice_get self.now.table r) }
    {
        match self.table.phase(r) {
            None => Some(Refusal::NoSuchRequest),
            Some(Phase::Queued) => {
                if self.table.eligible(r) {
                    None
                } else {
                    Some(Refusal::NotEligible)
                }
            }
            Some(_) => Some(Refusal::WrongPhase),
        }
    }

    pub(crate) fn refuses_expire(&self, r: u32) -> Option<Refusal>
        ensures { result ≡ expire_refusal self.now.clock (slice_get self.now.table r) }
    {
        if r as usize >= self.table.len() {
            return Some(Refusal::NoSuchRequest);
        }
        refuses_expiry(self.clock, self.table.row_ref(r))
    }
}

// Only issued timers expire, and not before their deadline.
fn refuses_expiry(clock: u64, row: &Row) -> Option<Refusal>
    ensures { result ≡ expire_refusal clock (Some row.now) }
{
    if !is_timer(row.entry.opcode) || !is_issued(row) {
        return Some(Refusal::WrongPhase);
    }
    if due(row, clock) {
        None
    } else {
        Some(Refusal::NotDue)
    }
}

// A cancellation or a removal can only complete in full.
pub(crate) fn refuses_a_part(choice: Choice) -> Option<Refusal>
    ensures { result ≡ full_refusal choice }
{
    match choice {
        Choice::Full => None,
        Choice::Short(_) | Choice::Eio => Some(Refusal::BadChoice),
    }
}
