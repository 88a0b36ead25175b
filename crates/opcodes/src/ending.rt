//! Possible outcomes of a request.
ghost use Rattle.std.specs.Prelude.{◌≡◌};
ghost use Rattle.opcodes.specs.Outcomes.{count_in};

/// The outcome of an issued request for one choice of the kernel.
#[derive(Clone, Copy)]
pub enum Outcome {
    /// It completes with this result: a number of bytes, an opcode's own number, or a negated error
    /// number.
    Res(i32),
    /// It can't complete yet, whatever the choice, since its object isn't ready.
    Waits,
    /// The kernel can't make this choice for the request.
    BadChoice,
}

impl Outcome {
    /// Returns the result, if it is no error.
    pub fn count(self) -> Option<u32>
        ensures { result ≡ count_in self }
    {
        match self {
            Outcome::Res(res) if res >= 0 => Some(res as u32),
            _ => None,
        }
    }
}
