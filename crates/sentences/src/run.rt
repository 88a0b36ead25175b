//! A complete run with its findings, and look-ups in its history.
ghost use Rattle.std.specs.Prelude.{◌≡◌};

use crate::names::RowName;
use entries::{ECANCELED, Phase, Row};
use finding_kinds::{
    EndedKind, Finding, History, Kind, MOST_ROWS, Retry, Times, descriptor_number, instruction_at,
    number_at,
};
use machine::{Event, Instruction, Setup, State};
use places::Place;
use std::alloc::{AllocError, Global};
use std::fmt;

/// A text, unless an allocation fails.
pub(crate) type Text = Result<String, AllocError>;

/// A run, with its history and its findings.
#[derive(Clone, Copy)]
pub struct Run<'a> {
    pub setup: &'a Setup,
    /// The state at the end.
    pub state: &'a State,
    pub events: &'a [Event],
    pub history: &'a History,
    /// In order: by moment, then by kind, then by subject.
    pub found: &'a [Finding],
}

/// A step of a thread: the thread, and the index of the instruction that it executed.
#[derive(Clone, Copy)]
pub struct ThreadStep {
    pub thread: u32,
    pub instruction: u32,
}

impl fmt::Display for ThreadStep {
    fn fmt<W: fmt::Write>(&self, f: &mut fmt::Formatter<W>) -> fmt::Result {
        let (thread, instruction) = (self.thread, self.instruction);
        write!(f, "thread {thread}, instruction {instruction}")
    }
}

impl Run<'_> {
    pub(crate) fn alloc(&self) -> Global {
        *self.history.rows.allocator()
    }

    /// Returns a row as it is at the end, if there is one with this number.
    pub(crate) fn row(&self, number: u32) -> Option<Row> {
        self.state.row(number)
    }

    /// Returns the number in a place at the end: a ring word, a counter or a flag word. Returns 0
    /// if the place holds no number.
    pub(crate) fn number(&self, place: Place) -> u64 {
        number_at(self.state, place).unwrap_or(0)
    }

    /// Returns how many rows there are.
    pub(crate) fn row_count(&self) -> u32 {
        self.history.rows.len().min(MOST_ROWS as usize) as u32
    }

    pub(crate) fn name(&self, number: u32) -> Option<RowName> {
        let row = self.row(number)?;
        Some(RowName::new(number, &row))
    }

    /// Returns the name of a row, if there is a number.
    pub(crate) fn name_if_any(&self, number: Option<u32>) -> Option<RowName> {
        self.name(number?)
    }

    /// Returns the result of a row that has completed.
    pub(crate) fn result(&self, number: u32) -> Option<i32> {
        match self.row(number)?.phase {
            Phase::Ended(res) => Some(res),
            Phase::Queued | Phase::Issued => None,
        }
    }

    pub(crate) fn times_of(&self, number: u32) -> Option<Times> {
        self.history.rows.get(number as usize).copied()
    }

    /// Returns the moment before the event that completed a row, if it has completed.
    pub(crate) fn ended(&self, number: u32) -> Option<u32> {
        self.times_of(number)?.ended
    }

    pub(crate) fn event(&self, moment: u32) -> Option<Event> {
        self.events.get(moment as usize).copied()
    }

    /// Returns the index of the instruction that the event at a moment executed, if it was a step
    /// of a thread.
    pub(crate) fn counter(&self, moment: u32) -> Option<u32> {
        self.history.counters.get(moment as usize).copied()?
    }

    /// Returns the instruction that the event at a moment executed, if it was a step of a thread.
    pub(crate) fn instruction(&self, moment: u32) -> Option<&Instruction> {
        let counter = self.counter(moment)?;
        instruction_at(self.setup, self.event(moment)?, Some(u64::from(counter)))
    }

    /// Returns the step of a thread that the event at a moment was, if it was one.
    pub(crate) fn thread_step(&self, moment: u32) -> Option<ThreadStep> {
        match self.event(moment)? {
            Event::Step(thread) => Some(ThreadStep {
                thread,
                instruction: self.counter(moment)?,
            }),
            _ => None,
        }
    }

    /// Returns the moment of the last put into a slot before another moment.
    pub(crate) fn last_put(&self, slot: u32, moment: u32) -> Option<u32> {
        let puts = self.history.puts.get(slot as usize)?;
        let count = puts.partition_point(|put| *put < moment);
        puts.get(count.checked_sub(1)?).copied()
    }

    /// Returns the put that wrote the entry of a row. None if no thread put an entry into the slot
    /// from which the row was submitted.
    pub fn put_of(&self, number: u32) -> Option<ThreadStep> {
        let slot = self.history.origins.get(number as usize).copied()?;
        let queued = self.times_of(number)?.queued;
        self.thread_step(self.last_put(slot, queued)?)
    }

    /// Returns the put of the first WRITE whose bytes of a file aren't durable at the end. None if
    /// no thread put its entry.
    pub fn lost_put(&self, file: u32) -> Option<ThreadStep> {
        let mut lost = self.history.lost.iter();
        let write = lost.find(|lost| lost.file == file)?;
        self.put_of(write.row)
    }

    /// Returns the step that a thread does next at the end, or in which it waits.
    pub fn next_step(&self, thread: u32) -> ThreadStep
        ensures { result.thread ≡ thread }
    {
        let counter = self.number(Place::ProgramCounter(thread));
        ThreadStep {
            thread,
            instruction: counter.min(u64::from(u32::MAX)) as u32,
        }
    }

    /// Returns the moment before the event that closed a descriptor of the setup.
    pub(crate) fn close_of(&self, fd: i32) -> Option<u32> {
        let descriptor = descriptor_number(fd)?;
        let mut closes = self.history.closes.iter();
        let close = closes.find(|closed| closed.descriptor == descriptor)?;
        Some(close.moment)
    }

    /// Returns what the history says about an FSYNC that completed at a moment, if earlier ones of
    /// its file had failed.
    pub(crate) fn retried_at(&self, moment: u32) -> Option<&Retry> {
        let list = &self.history.retries;
        let index = list.partition_point(|retry| retry.moment < moment);
        match list.get(index) {
            Some(retry) if retry.moment == moment => Some(retry),
            _ => None,
        }
    }

    /// Returns the first slot whose entry names a descriptor that the event at a moment closed.
    pub(crate) fn slot(&self, moment: u32) -> Option<u32> {
        let slots = &self.history.slots;
        let index = slots.partition_point(|met| met.moment < moment);
        match slots.get(index) {
            Some(met) if met.moment == moment => Some(met.slot),
            _ => None,
        }
    }

    /// Returns the first moment after one at which the backlog was empty again.
    pub(crate) fn emptied_after(&self, moment: u32) -> Option<u32> {
        let emptied = &self.history.emptied;
        let passed = emptied.partition_point(|emptied| *emptied <= moment);
        emptied.get(passed).copied()
    }

    /// Returns how many indexes the event at a moment dropped.
    pub(crate) fn dropped_at(&self, moment: u32) -> u32 {
        let dropped = &self.history.dropped;
        let index = dropped.partition_point(|(at, _)| *at < moment);
        let before = match dropped[..index].last() {
            Some((_, count)) => *count,
            None => 0,
        };
        match dropped.get(index) {
            Some((at, count)) if *at == moment => count.saturating_sub(before),
            _ => 0,
        }
    }

    /// Returns whether a row completed by the event at a moment.
    pub(crate) fn ends_at(&self, number: u32, moment: u32) -> bool {
        self.ended(number) == Some(moment)
    }

    /// Returns whether a row completed by the event at a moment, or by a later one.
    pub(crate) fn ends_since(&self, number: u32, moment: u32) -> bool {
        matches!(
            self.times_of(number),
            Some(times) if times.ended.is_some() && !times.has_ended_at(moment)
        )
    }

    /// Returns whether a row completed with ECANCELED by the event at a moment.
    pub(crate) fn is_canceled_at(&self, number: u32, moment: u32) -> bool {
        self.ends_at(number, moment) && self.result(number) == Some(-ECANCELED)
    }

    /// Returns whether two rows belong to one chain.
    pub(crate) fn are_of_one_chain(&self, first: u32, second: u32) -> bool {
        match (self.row(first), self.row(second)) {
            (Some(one), Some(other)) => one.unit == other.unit,
            _ => false,
        }
    }

    /// Returns the last row of another's chain that failed at a moment, by the findings before an
    /// index of their list.
    pub(crate) fn failing(&self, index: usize, number: u32, moment: u32) -> Option<u32> {
        for finding in self.found[..index.min(self.found.len())].iter().rev() {
            if finding.moment != moment {
                return None;
            }
            if finding.kind == Kind::Ended(EndedKind::Failed)
                && self.are_of_one_chain(finding.subject, number)
            {
                return Some(finding.subject);
            }
        }
        None
    }
}
