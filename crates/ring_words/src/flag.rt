//! Flags of the submission ring (io_uring_setup(2)).
ghost use Rattle.std.specs.Prelude.{◌≡◌};
ghost use Rattle.ring_words.specs.Rings.{bit_of};

use entries::{IORING_SQ_CQ_OVERFLOW, IORING_SQ_NEED_WAKEUP};

/// A bit of the submission ring's flags word.
#[derive(Clone, Copy)]
pub enum RingFlag {
    /// IORING_SQ_NEED_WAKEUP: the poller sleeps until it is woken.
    NeedWakeup = 1,
    /// IORING_SQ_CQ_OVERFLOW: completions that did not fit into the ring are pending.
    CqOverflow = 2,
}

impl RingFlag {
    /// Returns the bit.
    pub fn bit(self) -> u32
        ensures { result ≡ bit_of self }
    {
        match self {
            RingFlag::NeedWakeup => IORING_SQ_NEED_WAKEUP,
            RingFlag::CqOverflow => IORING_SQ_CQ_OVERFLOW,
        }
    }
}
