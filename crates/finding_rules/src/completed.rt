//! The requests that an event completes, as far as they sever their chain or are canceled
//! (io_uring_enter(2), IOSQE_IO_LINK).
ghost use Rattle.std.specs.Prelude.{◌≡◌, [], false};

use std::alloc::Global;

/// The number of a request, and of its chain.
#[derive(Clone, Copy)]
pub struct Member {
    pub number: u32,
    /// The number of the chain's first request.
    pub unit: u32,
}

/// The requests that an event completes, as far as they can name others or be named. The lists are
/// empty until they are known.
#[derive(Drop)]
pub struct Completed {
    pub is_known: bool,
    /// Soft-linked requests that failed or were short themselves, whose chain has a later request.
    pub severing: Vec<Member>,
    /// Requests that complete with ECANCELED, except linked timeouts.
    pub canceled: Vec<Member>,
}

impl Completed {
    /// Returns lists that aren't known yet.
    pub fn unknown(alloc: Global) -> Completed
        ensures unknown { result.is_known ≡ false }
        ensures severing { result.severing.items ≡ [] }
        ensures canceled { result.canceled.items ≡ [] }
    {
        Completed {
            is_known: false,
            severing: Vec::new(alloc),
            canceled: Vec::new(alloc),
        }
    }
}
