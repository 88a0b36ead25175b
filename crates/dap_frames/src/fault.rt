//! Why a stream isn't decoded, or a body isn't framed.
ghost use Rattle.std.specs.Prelude.{◌≡◌};
ghost use Rattle.dap_frames.specs.declared.fault.WriteFault.TheVariants.{Memory};

use std::alloc::AllocError;

/// Why a stream isn't decoded.
#[derive(Clone, Copy)]
pub enum FrameFault {
    /// An allocation failed.
    Memory,
    /// A header has more than 1,024 bytes.
    HeaderTooLong,
    /// A header has a carriage return without a line feed, or a line feed alone.
    BareLineEnd,
    /// No field has the length.
    LengthMissing,
    /// Two fields have the length.
    LengthRepeated,
    /// The length isn't a decimal number up to 1,048,576.
    LengthInvalid,
}

/// Why a body isn't framed.
#[derive(Clone, Copy)]
pub enum WriteFault {
    /// An allocation failed.
    Memory,
    /// The body has more than 16,777,216 bytes.
    BodyTooLong,
}

impl From<AllocError> for WriteFault {
    ghost from_gives = { λ _ e. e ≡ Memory };

    fn from(_e: AllocError) -> WriteFault {
        WriteFault::Memory
    }
}
