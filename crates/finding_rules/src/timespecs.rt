//! Timespecs that an event overwrites before the kernel reads them (io_uring_enter(2)).
ghost use Rattle.std.specs.Prelude.{◌≡◌};
ghost use Rattle.finding_rules.specs.{read_into, written_by, has_timespec_in, is_over_slot};

use crate::conflicts::{meet, moved};
use crate::effect::Effect;
use entries::{Row, Sqe};
use opcodes::{Op, is_timer};
use ring_words::SubRing;

/// The size of a timespec: seconds and nanoseconds, 8 bytes each (timespec(3)).
const TIMESPEC_BYTES: u64 = 16;

// Returns the bytes that a completed READ wrote to memory; none for another request.
fn read_into(row: &Row) -> (u64, u64)
    ensures { result ≡ read_into row.now }
{
    if row.entry.opcode == Op::Read as u8 {
        (row.entry.addr, moved(row.phase))
    } else {
        (0, 0)
    }
}

/// Returns the bytes that an event wrote to memory: the first address, and how many.
pub fn written_by(effect: &Effect) -> (u64, u64)
    ensures { result ≡ written_by effect.now }
{
    match effect {
        Effect::Nothing => (0, 0),
        Effect::Stored(address, count) => (*address, *count),
        Effect::Finished(_, row) => read_into(row),
    }
}

fn has_timespec_in(range: (u64, u64), entry: &Sqe) -> bool
    ensures { result ≡ has_timespec_in range entry.now }
{
    is_timer(entry.opcode) && meet(range.0, range.1, entry.addr, TIMESPEC_BYTES)
}

/// Returns whether the timespec of the entry in a slot overlaps a range of memory.
pub fn is_over_slot(ring: &SubRing, range: (u64, u64), slot: u32) -> bool
    ensures { result ≡ is_over_slot ring.now.slots range slot }
{
    matches!(ring.entry(slot), Some(entry) if has_timespec_in(range, &entry))
}
