//! The faults of a script, and their positions.

/// A key of a script, in the order in which the keys are checked.
#[derive(Clone, Copy, Debug, PartialEq, Eq)]
pub enum Key {
    /// The whole text.
    Document,
    Entries,
    Cq,
    Sqpoll,
    SubmitAll,
    Base,
    Memory,
    Objects,
    Fds,
    Threads,
    Schedule,
}

/// A position in a script: a key, and up to two indexes.
#[derive(Clone, Copy, Debug, PartialEq, Eq)]
pub struct Path {
    pub key: Key,
    pub item: Option<u32>,
    /// An instruction's index in its thread.
    pub inner: Option<u32>,
}

/// The first fault of a script, in the order of its keys.
#[derive(Clone, Copy, Debug, PartialEq, Eq)]
pub enum ScriptFault {
    /// The text isn't valid JSON, or it is nested too deeply.
    NotJson,
    /// A value doesn't have the shape that its key or item requires.
    Shape(Path),
    /// A number is out of its range, or a name or a descriptor is invalid.
    Range(Path),
    /// There are too many items or bytes.
    Limit(Path),
    /// An allocation failed.
    Memory,
}

impl ScriptFault {
    ghost use Rattle.std.specs.Prelude.{◌≡◌};
    ghost use Rattle.script.specs.Faults.{number_of};

    /// Returns the fault's number, 1 to 5.
    pub fn number(&self) -> u32
        ensures { result ≡ number_of self.now }
    {
        match self {
            ScriptFault::NotJson => 1,
            ScriptFault::Shape(_) => 2,
            ScriptFault::Range(_) => 3,
            ScriptFault::Limit(_) => 4,
            ScriptFault::Memory => 5,
        }
    }
}
