//! Descriptor numbers of entries.
ghost use Rattle.std.specs.Prelude.{◌≡◌};
ghost use Rattle.machine.specs.Steps.{number_in};

/// The lowest descriptor of a setup: 0 to 2 are the standard streams (stdin(3)).
pub const FIRST_DESCRIPTOR: u32 = 3;

/// Returns the descriptor of an entry, or None for a negative one.
pub fn descriptor_number(fd: i32) -> Option<u32>
    ensures { result ≡ number_in fd }
{
    if fd < 0 {
        return None;
    }
    Some(fd as u32)
}
