//! Why a search has no goals or no conclusion.

use commands::CommandFault;
use rewriting::RewriteFault;
use std::alloc::AllocError;

/// Why texts have no goals.
#[derive(Clone, Copy)]
pub enum UntilFault {
    /// The command `break` refuses a text.
    Command(CommandFault),
    /// An earlier text gives the place of the text at this index another value.
    Twice(usize),
}

/// Why a search has no conclusion.
#[derive(Clone, Copy)]
pub enum ConclusionFault {
    /// An allocation failed.
    Memory,
    /// The script can't have the schedule that was found.
    Rewrite(RewriteFault),
}

impl From<AllocError> for ConclusionFault {
    ghost use Rattle.std.specs.Prelude.{◌≡◌};
    ghost use Rattle.conclusions.specs.declared.fault.ConclusionFault.TheVariants.{Memory};

    ghost from_gives = { λ _ e. e ≡ Memory };

    fn from(_e: AllocError) -> ConclusionFault {
        ConclusionFault::Memory
    }
}

impl From<RewriteFault> for ConclusionFault {
    ghost use Rattle.std.specs.Prelude.{◌≡◌};
    ghost use Rattle.conclusions.specs.declared.fault.ConclusionFault.TheVariants.{Rewrite};

    ghost from_gives = { λ fault e. e ≡ Rewrite fault };

    fn from(fault: RewriteFault) -> ConclusionFault {
        ConclusionFault::Rewrite(fault)
    }
}
