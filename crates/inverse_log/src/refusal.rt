//! Errors of a walker.
ghost use Rattle.std.specs.Prelude.{◌≡◌};
ghost use Rattle.inverse_log.specs.Refusals.{number_of};

use machine::Refusal;

/// Why events could not be appended to a trace. The trace is unchanged.
#[derive(Clone, Copy, Debug)]
pub enum ExtendRefusal {
    /// The trace would exceed 1,048,576 events.
    TraceFull,
    /// The index of the first event that was refused, counted from the
    /// first one to append, and why.
    Refused(u32, Refusal),
}

/// Why a walker could not go to a moment. Its position is unchanged.
#[derive(Clone, Copy, Debug)]
pub enum WalkRefusal {
    /// The run has fewer events than that.
    NoSuchMoment = 1,
    /// An allocation failed.
    Memory = 2,
}

const _: () = prove!(WalkRefusal::NoSuchMoment as u32 == 1 && WalkRefusal::Memory as u32 == 2);

impl ExtendRefusal {
    /// Returns the number of the refusal: 1 or 2.
    pub fn number(&self) -> u32
        ensures { result ≡ number_of self.now }
    {
        match self {
            ExtendRefusal::TraceFull => 1,
            ExtendRefusal::Refused(_, _) => 2,
        }
    }
}
