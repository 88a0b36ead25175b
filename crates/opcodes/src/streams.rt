//! The results of reading and writing pipes and eventfds (pipe(7), eventfd(2)).
ghost use Rattle.std.specs.Prelude.{◌≡◌, ◌≤◌, ℕ, min, pos};
ghost use Rattle.opcodes.specs.Outcomes.{pipe_read, pipe_written, waits_for_room, event_read, event_written};

use crate::ending::Outcome;
use crate::results::fixed;
use entries::{Choice, EINVAL, EPIPE};

/// PIPE_BUF: writes of up to this many bytes are atomic, if the pipe's capacity isn't smaller.
const AT_ONCE: u64 = 4096;

/// Returns the outcome of a READ of a pipe. It waits while the pipe is empty and has a writer.
pub(crate) fn pipe_read(len: u32, writer: bool, filled: u64, choice: Choice) -> Outcome
    requires { len ≤ 65536 }
    ensures { result ≡ pipe_read len writer filled choice }
{
    if len == 0 {
        return fixed(0, choice);
    }
    if filled == 0 {
        return if writer {
            Outcome::Waits
        } else {
            fixed(0, choice)
        };
    }
    fixed(least(len, filled), choice)
}

/// Returns the outcome of a WRITE to a pipe. An atomic one waits until all its bytes fit, a longer
/// one until any byte fits.
pub(crate) fn pipe_written(
    len: u32,
    reader: bool,
    filled: u64,
    capacity: u64,
    choice: Choice,
) -> Outcome
    requires { len ≤ 65536 }
    ensures { result ≡ pipe_written len reader filled capacity choice }
{
    if len == 0 {
        return fixed(0, choice);
    }
    if !reader {
        return fixed(-EPIPE, choice);
    }
    let room = capacity.saturating_sub(filled);
    if waits_for_room(len, room, capacity) {
        return Outcome::Waits;
    }
    fixed(least(len, room), choice)
}

fn waits_for_room(len: u32, room: u64, capacity: u64) -> bool
    ensures { result ≡ waits_for_room len room capacity }
{
    if u64::from(len) <= AT_ONCE.min(capacity) {
        room < u64::from(len)
    } else {
        room == 0
    }
}

fn least(len: u32, count: u64) -> i32
    requires { len ≤ 65536 }
    ensures { result ≡ pos (min len count) }
{
    u64::from(len).min(count) as i32
}

/// Returns the outcome of a READ of an eventfd. It waits while the counter is 0.
pub(crate) fn event_read(len: u32, counter: u64, choice: Choice) -> Outcome
    ensures { result ≡ event_read len counter choice }
{
    if len < 8 {
        return fixed(-EINVAL, choice);
    }
    if counter == 0 {
        return Outcome::Waits;
    }
    fixed(8, choice)
}

/// Returns the outcome of a WRITE of at least 8 bytes to an eventfd. It waits while the sum would
/// exceed 2^64 - 2.
pub(crate) fn event_written(counter: u64, number: u64, choice: Choice) -> Outcome
    ensures { (len : ℕ) → 8 ≤ len → result ≡ event_written len counter number choice }
{
    if number == u64::MAX {
        return fixed(-EINVAL, choice);
    }
    if u128::from(counter) + u128::from(number) > u128::from(u64::MAX - 1) {
        return Outcome::Waits;
    }
    fixed(8, choice)
}
