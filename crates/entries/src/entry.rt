//! Submission queue entries (io_uring_enter(2)).
ghost use Rattle.std.specs.Prelude.{◌≡◌, ◌↔◌, IsTrue};

use crate::fields::{i32_at, put_i32, put_u8, put_u16, put_u32, put_u64, u16_at, u32_at, u64_at};

/// A submission queue entry: the fields of `struct io_uring_sqe`.
#[derive(Clone, Copy, PartialEq, Eq)]
pub struct Sqe {
    pub opcode: u8,
    pub flags: u8,
    pub ioprio: u16,
    pub fd: i32,
    pub off: u64,
    pub addr: u64,
    pub len: u32,
    /// The flags of the operation: rw_flags, fsync_flags, poll events,
    /// timeout_flags or cancel_flags.
    pub operation_flags: u32,
    pub user_data: u64,
    pub buf_index: u16,
    pub personality: u16,
    pub splice_fd_in: i32,
    /// Bytes 48 to 63, which this model carries along and does not interpret.
    pub rest: [u8; 16],
}

impl Sqe {
    ghost use Rattle.entries.specs.Layout.{EntryLayout};

    /// Returns whether two entries are equal in every field.
    pub fn equals(&self, other: &Sqe) -> bool
        ensures { IsTrue result ↔ (self.now ≡ other.now) }
    {
        self == other
    }

    /// Decodes the 64 bytes of an entry. Every list of 64 bytes is an entry.
    pub fn read(bytes: &[u8; 64]) -> Sqe
        ensures { EntryLayout result bytes.now }
    {
        let mut rest = [0; 16];
        rest.copy_from_slice(&bytes[48..]);
        Sqe {
            opcode: bytes[0],
            flags: bytes[1],
            ioprio: u16_at(bytes, 2),
            fd: i32_at(bytes, 4),
            off: u64_at(bytes, 8),
            addr: u64_at(bytes, 16),
            len: u32_at(bytes, 24),
            operation_flags: u32_at(bytes, 28),
            user_data: u64_at(bytes, 32),
            buf_index: u16_at(bytes, 40),
            personality: u16_at(bytes, 42),
            splice_fd_in: i32_at(bytes, 44),
            rest,
        }
    }

    /// Encodes the entry as 64 bytes, little-endian.
    pub fn write(&self) -> [u8; 64]
        ensures { EntryLayout self.now result }
    {
        let mut bytes = [0; 64];
        put_u8(&mut bytes, 0, self.opcode);
        put_u8(&mut bytes, 1, self.flags);
        put_u16(&mut bytes, 2, self.ioprio);
        put_i32(&mut bytes, 4, self.fd);
        put_u64(&mut bytes, 8, self.off);
        put_u64(&mut bytes, 16, self.addr);
        put_u32(&mut bytes, 24, self.len);
        put_u32(&mut bytes, 28, self.operation_flags);
        put_u64(&mut bytes, 32, self.user_data);
        put_u16(&mut bytes, 40, self.buf_index);
        put_u16(&mut bytes, 42, self.personality);
        put_i32(&mut bytes, 44, self.splice_fd_in);
        bytes[48..].copy_from_slice(&self.rest);
        bytes
    }
}
