//! The errors of creating a ring.

/// Why a ring can't be created.
#[derive(Clone, Copy)]
pub enum RingRefusal {
    /// The number of entries is 0 or too large.
    Size = 1,
    Memory = 2,
}

const _: () = prove!(RingRefusal::Size as u32 == 1);

const _: () = prove!(RingRefusal::Memory as u32 == 2);
