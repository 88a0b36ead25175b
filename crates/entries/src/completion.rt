//! Completion queue entries (io_uring_enter(2)).
ghost use Rattle.std.specs.Prelude.{◌≡◌, ◌↔◌, IsTrue};

use crate::fields::{i32_at, put_i32, put_u32, put_u64, u32_at, u64_at};

/// A completion queue entry: the fields of `struct io_uring_cqe`.
#[derive(Clone, Copy, PartialEq, Eq)]
pub struct Cqe {
    pub user_data: u64,
    /// The result of the request: a count, a poll mask or 0; or a negated errno.
    pub res: i32,
    pub flags: u32,
}

impl Cqe {
    ghost use Rattle.entries.specs.Layout.{CompletionLayout};

    /// Returns whether two completions are equal in every field.
    pub fn equals(&self, other: &Cqe) -> bool
        ensures { IsTrue result ↔ (self.now ≡ other.now) }
    {
        self == other
    }

    /// Decodes the 16 bytes of a completion. Every list of 16 bytes is a completion.
    pub fn read(bytes: &[u8; 16]) -> Cqe
        ensures { CompletionLayout result bytes.now }
    {
        Cqe {
            user_data: u64_at(bytes, 0),
            res: i32_at(bytes, 8),
            flags: u32_at(bytes, 12),
        }
    }

    /// Encodes the completion as 16 bytes, little-endian.
    pub fn write(&self) -> [u8; 16]
        ensures { CompletionLayout self.now result }
    {
        let mut bytes = [0; 16];
        put_u64(&mut bytes, 0, self.user_data);
        put_i32(&mut bytes, 8, self.res);
        put_u32(&mut bytes, 12, self.flags);
        bytes
    }
}
