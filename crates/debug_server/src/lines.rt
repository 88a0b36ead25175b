//! A buffer for the line that is being read.
ghost use Rattle.std.specs.Prelude.{◌≡◌, ◌==◌, [], false};

use commands::LIMIT;
use std::marker::Model;

// An incomplete line. It stores at most 257 bytes, one more than the limit of a command.
#[derive(Drop)]
pub(crate) struct Line {
    bytes: [u8; 257],
    len: usize,
}

impl Model for Line {
    ghost use Rattle.std.specs.Prelude.{List, ℕ, take, ◌≤◌};
    ghost use Rattle.debug_server.specs.Pending.{IsPending};

    ghost Value = { List ℕ };

    ghost view = { λ l. take l.len l.bytes };

    ghost invariant = { λ l. (l.len ≤ 257) × IsPending (take l.len l.bytes) };
}

impl Line {
    ghost use Rattle.debug_server.specs.Pending.{IsPending, grown};

    pub(crate) fn new() -> Line
        ensures { result ≡ [] }
    {
        Line {
            bytes: [0; 257],
            len: 0,
        }
    }

    pub(crate) fn as_slice(&self) -> &[u8]
        ensures value { result.now ≡ self.now }
        ensures pending { IsPending self.now }
    {
        &self.bytes[..self.len]
    }

    pub(crate) fn clear(&mut self)
        ensures { self.new ≡ [] }
    {
        self.len = 0;
    }

    // Appends a byte, unless the buffer is full.
    pub(crate) fn push(&mut self, byte: u8)
        requires { (byte == 10) ≡ false }
        ensures grown { self.new ≡ grown self.old byte }
        ensures pending { IsPending self.old }
    {
        if self.len <= LIMIT {
            self.bytes[self.len] = byte;
            self.len += 1;
        }
    }
}
