//! The machine, made of its parts.
ghost use Rattle.std.specs.Prelude.{◌≡◌, OnSome, Some, length, map};
ghost use Rattle.places.specs.declared.value.Value.TheVariants.{Number};
ghost use Rattle.links_drains.specs.Rows.{fixed_of};
ghost use Rattle.machine.specs.Owners.{Owns};
ghost use Rattle.machine.specs.declared.whole.Owner.TheVariants.{Rest};
ghost use Rattle.places.specs.View.{put_at};
ghost use Rattle.places.specs.declared.place.Place.{Place};

use crate::threads::Threads;
use entries::{Cqe, Row};
use links_drains::Table;
use model_files::World;
use overflow::Backlog;
use places::{At, Part, Place, Region, Value};
use ring_words::{ComRing, SubRing};
use sqpoll::Poller;

/// The machine. Each place belongs to one of its parts.
#[derive(Drop)]
pub struct Machine {
    pub submissions: SubRing,
    pub completions: ComRing,
    pub backlog: Backlog,
    pub world: World,
    pub table: Table,
    pub poller: Option<Poller>,
    /// Whether a submission continues after an invalid entry (io_uring_setup(2),
    /// IORING_SETUP_SUBMIT_ALL).
    pub submit_all: bool,
    pub threads: Threads,
    pub clock: u64,
    pub counted: u32,
}

impl At for Machine {
    ghost use Rattle.machine.specs.Whole.{view};

    ghost seen = { view };

    #[inline(always)]
    fn at(&self, place: Place) -> Option<Value> {
        match place {
            Place::SubmissionHead
            | Place::SubmissionTail
            | Place::SubmissionFlags
            | Place::SubmissionDropped
            | Place::Array(_)
            | Place::Slot(_) => self.submissions.at(place),
            Place::CompletionHead | Place::CompletionTail | Place::Completion(_) => {
                self.completions.at(place)
            }
            Place::MemoryByte(_)
            | Place::FileByte(_, _)
            | Place::DurableByte(_, _)
            | Place::FileLength(_)
            | Place::DurableLength(_)
            | Place::Position(_)
            | Place::OpenMark(_)
            | Place::PipeByte(_, _)
            | Place::PutCount(_)
            | Place::TakenCount(_)
            | Place::EventCount(_) => self.world.at(place),
            Place::Request(_) => self.table.at(place),
            Place::Backlog(_) | Place::BacklogFront => self.backlog.at(place),
            Place::PollerStage => match &self.poller {
                Some(poller) => poller.at(place),
                None => None,
            },
            Place::ProgramCounter(_) | Place::ThreadStage(_) | Place::Last(_) | Place::Got(_) => {
                self.threads.at(place)
            }
            Place::Clock => Some(Value::Number(self.clock)),
            Place::Counted => Some(Value::Number(self.counted as u64)),
        }
    }

    fn bytes_in(&self, region: Region) -> Option<&[u8]> {
        self.world.bytes_in(region)
    }

    fn number_at(&self, place: Place) -> Option<u64> {
        match place {
            Place::SubmissionHead
            | Place::SubmissionTail
            | Place::SubmissionFlags
            | Place::SubmissionDropped
            | Place::Array(_) => self.submissions.number_at(place),
            Place::CompletionHead | Place::CompletionTail => self.completions.number_at(place),
            Place::BacklogFront => self.backlog.number_at(place),
            Place::ProgramCounter(_) => self.threads.number_at(place),
            Place::Clock => Some(self.clock),
            Place::Counted => Some(self.counted as u64),
            _ => None,
        }
    }

    fn completion_at(&self, slot: u32) -> Option<&Cqe> {
        self.completions.completion_at(slot)
    }

    fn row_at(&self, row: u32) -> Option<&Row> {
        self.table.row_at(row)
    }
}

impl Part for Machine {
    ghost use Rattle.machine.specs.Whole.{view, everywhere, can_put, OneSetup};

    ghost owns = { everywhere };

    ghost can_put = { can_put };

    fn put(&mut self, place: Place, value: Option<Value>)
        requires { can_put self.old place value }
        ensures put { (q : Place) → view self.new q ≡ put_at (view self.old) place value q }
        ensures setup { OneSetup self.old self.new }
        ensures rows { OnSome value (map fixed_of self.new.table ≡ map fixed_of self.old.table) }
        ensures backlog { OnSome value (length self.new.backlog.items
            ≡ length self.old.backlog.items) }
    {
        match owner_of(place) {
            Owner::Submissions => self.submissions.put(place, value),
            Owner::Completions => self.completions.put(place, value),
            Owner::World => self.world.put(place, value),
            Owner::Table => self.table.put(place, value),
            Owner::Backlog => self.backlog.put(place, value),
            Owner::Threads => self.threads.put(place, value),
            Owner::Rest => self.put_other(place, value),
        }
    }
}

impl Machine {
    ghost use Rattle.machine.specs.Whole.{view, can_put, OneSetup};

    /// Writes a number into a place.
    pub(crate) fn put_number(&mut self, place: Place, number: u64)
        requires { can_put self.old place (Some (Number number)) }
        ensures put { (q : Place)
            → view self.new q ≡ put_at (view self.old) place (Some (Number number)) q }
        ensures setup { OneSetup self.old self.new }
        ensures rows { map fixed_of self.new.table ≡ map fixed_of self.old.table }
        ensures backlog { length self.new.backlog.items ≡ length self.old.backlog.items }
    {
        match place {
            Place::Clock => self.clock = number,
            Place::Counted => self.counted = number as u32,
            Place::ProgramCounter(t) => self.threads.put_counter(t, number),
            _ => self.put(place, Some(Value::Number(number))),
        }
    }

    // Writes a place that belongs to no part: a number, or the poller's stage.
    fn put_other(&mut self, place: Place, value: Option<Value>)
        requires can { can_put self.old place value }
        requires rest { Owns Rest place }
        ensures put { (q : Place) → view self.new q ≡ put_at (view self.old) place value q }
        ensures setup { OneSetup self.old self.new }
        ensures rows { map fixed_of self.new.table ≡ map fixed_of self.old.table }
        ensures backlog { length self.new.backlog.items ≡ length self.old.backlog.items }
    {
        match (place, value) {
            (Place::Clock, Some(Value::Number(n))) => self.clock = n,
            (Place::Counted, Some(Value::Number(n))) => self.counted = n as u32,
            (Place::PollerStage, Some(Value::Awake(_))) => {
                if let Some(poller) = &mut self.poller {
                    poller.put(place, value);
                }
            }
            // `can_put` allows no other place, and any would be left alone.
            _ => {}
        }
    }
}

// The part that a place belongs to. `Rest` is the machine's own numbers and the poller's stage.
#[derive(Clone, Copy)]
enum Owner {
    Submissions,
    Completions,
    World,
    Table,
    Backlog,
    Threads,
    Rest,
}

fn owner_of(place: Place) -> Owner
    ensures { Owns result place }
{
    match place {
        Place::SubmissionHead
        | Place::SubmissionTail
        | Place::SubmissionFlags
        | Place::SubmissionDropped
        | Place::Array(_)
        | Place::Slot(_) => Owner::Submissions,
        Place::CompletionHead | Place::CompletionTail | Place::Completion(_) => Owner::Completions,
        Place::MemoryByte(_)
        | Place::FileByte(_, _)
        | Place::DurableByte(_, _)
        | Place::FileLength(_)
        | Place::DurableLength(_)
        | Place::Position(_)
        | Place::OpenMark(_)
        | Place::PipeByte(_, _)
        | Place::PutCount(_)
        | Place::TakenCount(_)
        | Place::EventCount(_) => Owner::World,
        Place::Request(_) => Owner::Table,
        Place::Backlog(_) | Place::BacklogFront => Owner::Backlog,
        Place::ProgramCounter(_) | Place::ThreadStage(_) | Place::Last(_) | Place::Got(_) => {
            Owner::Threads
        }
        Place::Clock | Place::Counted | Place::PollerStage => Owner::Rest,
    }
}
