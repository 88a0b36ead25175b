//! The places of a state.
ghost use Rattle.std.specs.Prelude.{◌≡◌};
ghost use Rattle.places.specs.Places.{kind_of, index_of, second_of, same_place, is_number, is_other};

/// A named location of the state. Objects and threads are numbered from 0 in the setup's order,
/// descriptors by their own numbers.
#[derive(Clone, Copy)]
pub enum Place {
    SubmissionHead,
    SubmissionTail,
    SubmissionFlags,
    SubmissionDropped,
    CompletionHead,
    CompletionTail,
    /// An element of the submission queue's index array (io_uring(7)).
    Array(u32),
    /// A slot for a submission entry.
    Slot(u32),
    /// A slot of the completion ring.
    Completion(u32),
    /// A byte of memory, by its address.
    MemoryByte(u32),
    /// A byte of a file: object, offset.
    FileByte(u32, u32),
    /// A byte of a file's durable contents, which an fsync updates: object, offset.
    DurableByte(u32, u32),
    FileLength(u32),
    DurableLength(u32),
    /// The file position of a descriptor.
    Position(u32),
    /// Whether a descriptor is open: 0 or 1.
    OpenMark(u32),
    /// A byte of a pipe's ring buffer: object, index.
    PipeByte(u32, u32),
    /// How many bytes have been written to a pipe.
    PutCount(u32),
    /// How many bytes have been read from a pipe.
    TakenCount(u32),
    /// The counter of an eventfd.
    EventCount(u32),
    /// A request.
    Request(u32),
    /// An overflowed completion: one that did not fit into the ring when it was posted. They are
    /// numbered over the whole run.
    Backlog(u32),
    /// The number of the first overflowed completion that is still pending.
    BacklogFront,
    Clock,
    /// How many requests other than TIMEOUT and LINK_TIMEOUT have completed.
    Counted,
    /// Whether the submission queue poller is awake (io_uring_setup(2), IORING_SETUP_SQPOLL).
    PollerStage,
    /// The index of a thread's next instruction.
    ProgramCounter(u32),
    ThreadStage(u32),
    /// The result of a thread's last Enter or Close.
    Last(u32),
    /// The completion that a thread reaped last.
    Got(u32),
}

impl Place {
    /// Returns whether two places are equal.
    #[tactic(auto, unfolding(crate::specs::Places::same_place))]
    pub fn equals(&self, other: &Place) -> bool
        ensures { result ≡ same_place self.now other.now }
    {
        self.kind() == other.kind()
            && (self.index() == other.index() && self.second() == other.second())
    }

    /// Returns the number of the place's kind, from 0 to 29.
    pub fn kind(&self) -> u8
        ensures { result ≡ kind_of self.now }
    {
        match self {
            Place::SubmissionHead => 0,
            Place::SubmissionTail => 1,
            Place::SubmissionFlags => 2,
            Place::SubmissionDropped => 3,
            Place::CompletionHead => 4,
            Place::CompletionTail => 5,
            Place::Array(_) => 6,
            Place::Slot(_) => 7,
            Place::Completion(_) => 8,
            Place::MemoryByte(_) => 9,
            Place::FileByte(_, _) => 10,
            Place::DurableByte(_, _) => 11,
            Place::FileLength(_) => 12,
            Place::DurableLength(_) => 13,
            Place::Position(_) => 14,
            Place::OpenMark(_) => 15,
            Place::PipeByte(_, _) => 16,
            Place::PutCount(_) => 17,
            Place::TakenCount(_) => 18,
            Place::EventCount(_) => 19,
            Place::Request(_) => 20,
            Place::Backlog(_) => 21,
            Place::BacklogFront => 22,
            Place::Clock => 23,
            Place::Counted => 24,
            Place::PollerStage => 25,
            Place::ProgramCounter(_) => 26,
            Place::ThreadStage(_) => 27,
            Place::Last(_) => 28,
            Place::Got(_) => 29,
        }
    }

    /// Returns the number of the place's object, descriptor, thread, slot or memory address, or 0.
    pub fn index(&self) -> u32
        ensures { result ≡ index_of self.now }
    {
        match self {
            Place::Array(i)
            | Place::Slot(i)
            | Place::Completion(i)
            | Place::MemoryByte(i)
            | Place::FileLength(i)
            | Place::DurableLength(i)
            | Place::Position(i)
            | Place::OpenMark(i)
            | Place::PutCount(i)
            | Place::TakenCount(i)
            | Place::EventCount(i)
            | Place::Request(i)
            | Place::Backlog(i)
            | Place::ProgramCounter(i)
            | Place::ThreadStage(i)
            | Place::Last(i)
            | Place::Got(i) => *i,
            Place::FileByte(i, _) | Place::DurableByte(i, _) | Place::PipeByte(i, _) => *i,
            _ => 0,
        }
    }

    /// Returns the index of a byte within its object, or 0.
    pub fn second(&self) -> u32
        ensures { result ≡ second_of self.now }
    {
        match self {
            Place::FileByte(_, j) | Place::DurableByte(_, j) | Place::PipeByte(_, j) => *j,
            _ => 0,
        }
    }

    /// Returns whether the place holds an unsigned number: a ring word, a counter, a length, a
    /// position or an open mark.
    pub fn is_number(&self) -> bool
        ensures { result ≡ is_number self.now }
    {
        !matches!(
            self,
            Place::Slot(_)
                | Place::Completion(_)
                | Place::MemoryByte(_)
                | Place::FileByte(_, _)
                | Place::DurableByte(_, _)
                | Place::PipeByte(_, _)
                | Place::Request(_)
                | Place::Backlog(_)
                | Place::PollerStage
                | Place::ThreadStage(_)
                | Place::Last(_)
                | Place::Got(_)
        )
    }

    /// Returns whether the place holds neither a number, a byte, a request nor
    /// a completion of the ring.
    pub fn is_other(&self) -> bool
        ensures { result ≡ is_other self.now }
    {
        matches!(
            self,
            Place::Slot(_)
                | Place::Backlog(_)
                | Place::PollerStage
                | Place::ThreadStage(_)
                | Place::Last(_)
                | Place::Got(_)
        )
    }
}
