//! A list of bytes that is in the value itself if it is short.
ghost use Rattle.std.specs.Prelude.{◌≡◌, [], IfOk};

use std::alloc::{AllocError, Global};
use std::marker::Model;

/// The most bytes in the value itself, which takes 32 bytes.
const SHORT: usize = 30;

/// The bytes: their number and an array that they begin, or a list of their own.
#[derive(Drop)]
pub enum Held {
    Short(u8, [u8; SHORT]),
    Long(Vec<u8>),
}

/// A list of bytes. Up to 30 need no allocation.
#[derive(Drop)]
pub struct ShortBytes {
    held: Held,
}

impl Model for ShortBytes {
    ghost use Rattle.std.specs.Prelude.{ℕ, List};
    ghost use Rattle.places.specs.HeldBytes.{bytes_of};

    ghost Value = { List ℕ };

    ghost view = { λ a. bytes_of a.held };
}

impl ShortBytes {
    /// Returns no bytes.
    pub fn new() -> ShortBytes
        ensures { result ≡ [] }
    {
        ShortBytes {
            held: Held::Short(0, [0; SHORT]),
        }
    }

    /// Copies bytes. Fails only if an allocation fails.
    #[inline(always)]
    pub fn from_slice(alloc: Global, bytes: &[u8]) -> Result<ShortBytes, AllocError>
        ensures { IfOk result (λ copy. copy ≡ bytes.now) }
    {
        let len = bytes.len();
        if len > SHORT {
            let long = Vec::from_slice(alloc, bytes)?;
            return Ok(ShortBytes {
                held: Held::Long(long),
            });
        }
        let mut short = [0; SHORT];
        short[..len].copy_from_slice(bytes);
        Ok(ShortBytes {
            held: Held::Short(len as u8, short),
        })
    }

    /// Returns the bytes as a slice.
    pub fn as_slice(&self) -> &[u8]
        ensures { result.now ≡ self.now }
    {
        match &self.held {
            Held::Short(len, short) => {
                let len = usize::from(*len);
                if len < SHORT { &short[..len] } else { short }
            }
            Held::Long(long) => long,
        }
    }

    /// Returns how many bytes of memory the list takes, besides this struct.
    pub fn kept_bytes(&self) -> usize {
        match &self.held {
            Held::Short(_, _) => 0,
            Held::Long(long) => long.capacity(),
        }
    }
}
