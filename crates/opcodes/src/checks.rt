//! The checks of an entry at submission.
ghost use Rattle.std.specs.Prelude.{◌≡◌, ◌+◌, ◌≤◌, ◌&&◌, is_ok, if◌then◌else◌};
ghost use Rattle.opcodes.specs.Check.{can_guard, check_of, has_time, tested, timed, time_at, time_of};

use crate::op::Op;
use entries::{EFAULT, EINVAL, IOSQE_ASYNC, IOSQE_IO_DRAIN, IOSQE_IO_HARDLINK, IOSQE_IO_LINK, Sqe};
use model_files::World;

/// The supported entry flags: IOSQE_IO_DRAIN, IOSQE_IO_LINK, IOSQE_IO_HARDLINK, and IOSQE_ASYNC,
/// which has no effect in the model.
const ALLOWED_FLAGS: u8 = IOSQE_IO_DRAIN | IOSQE_IO_LINK | IOSQE_IO_HARDLINK | IOSQE_ASYNC;

/// Nanoseconds in a second.
const SECOND: u128 = 1_000_000_000;

/// What the checks need besides the entry.
#[derive(Clone, Copy)]
pub struct Context<'a> {
    /// The opcode of the previous entry in the chain; `None` for the first one.
    pub previous: Option<u8>,
    /// The memory that has the time of a timeout.
    pub world: &'a World,
}

/// Checks an entry and returns its opcode. The error is the result of its completion, a negated
/// error number (io_uring_enter(2)).
pub fn check(entry: &Sqe, context: Context) -> Result<Op, i32>
    ensures { result ≡ check_of context.entry.world.now context.entry.previous entry.now }
{
    check_timed(entry, context).0
}

/// Returns the time of a TIMEOUT or LINK_TIMEOUT in nanoseconds; `None` for another opcode, or if a
/// check fails.
pub fn time_of(entry: &Sqe, context: Context) -> Option<u128>
    ensures { result ≡ time_of context.entry.world.now context.entry.previous entry.now }
{
    check_timed(entry, context).1
}

/// Returns the results of `check` and `time_of`, and reads the time once.
#[tactic(auto, using(crate::proofs::Timing::has_time_is))]
pub fn check_timed(entry: &Sqe, context: Context) -> (Result<Op, i32>, Option<u128>)
    ensures op { result.0 ≡ check_of context.entry.world.now context.entry.previous entry.now }
    ensures time { result.1 ≡ time_of context.entry.world.now context.entry.previous entry.now }
{
    if entry.flags & !ALLOWED_FLAGS != 0 {
        return (Err(-EINVAL), None);
    }
    match Op::from_opcode(entry.opcode) {
        Some(op) => test(entry, context, op),
        None => (Err(-EINVAL), None),
    }
}

// Checks what the opcode requires, and reads its time if it has one.
fn test(entry: &Sqe, context: Context, op: Op) -> (Result<Op, i32>, Option<u128>)
    ensures op { result.0 ≡ tested context.entry.world.now context.entry.previous entry.now op }
    ensures time { result.1 ≡ (if has_time op && is_ok result.0
        then time_at context.entry.world.now entry.now.addr else None) }
{
    let passes = match op {
        Op::Nop => true,
        Op::Fsync => entry.operation_flags <= 1,
        Op::PollAdd => entry.len == 0,
        Op::PollRemove => entry.len == 0 && entry.operation_flags == 0,
        Op::AsyncCancel => entry.operation_flags <= 3,
        Op::TimeoutRemove | Op::Read | Op::Write => entry.operation_flags == 0,
        Op::Timeout => return test_time(entry, context.world, op),
        Op::LinkTimeout if can_guard(context.previous) && entry.off == 0 => {
            return test_time(entry, context.world, op);
        }
        Op::LinkTimeout => false,
    };
    if passes {
        (Ok(op), None)
    } else {
        (Err(-EINVAL), None)
    }
}

// Checks a TIMEOUT or LINK_TIMEOUT.
fn test_time(entry: &Sqe, world: &World, op: Op) -> (Result<Op, i32>, Option<u128>)
    ensures op { result.0 ≡ timed world.now entry.now op }
    ensures time { result.1
        ≡ (if is_ok result.0 then time_at world.now entry.now.addr else None) }
{
    if entry.len != 1 || entry.operation_flags > 1 {
        return (Err(-EINVAL), None);
    }
    if entry.addr > 65520 {
        return (Err(-EFAULT), None);
    }
    match time_at(world, entry.addr as u32) {
        Some(time) => (Ok(op), Some(time)),
        None => (Err(-EINVAL), None),
    }
}

// Returns the time at an address in nanoseconds, unless one of its numbers is negative.
fn time_at(world: &World, address: u32) -> Option<u128>
    requires within { address + 16 ≤ 65536 }
    ensures { result ≡ time_at world.now address }
{
    let (seconds, nanoseconds) = (world.number_at(address), world.number_at(address + 8));
    if seconds >= 1 << 63 || nanoseconds >= 1 << 63 {
        return None;
    }
    Some(u128::from(seconds) * SECOND + u128::from(nanoseconds))
}

// Returns whether a LINK_TIMEOUT can follow an entry with this opcode in its chain. It can neither
// follow another LINK_TIMEOUT nor be first.
fn can_guard(previous: Option<u8>) -> bool
    ensures { result ≡ can_guard previous }
{
    match previous {
        Some(opcode) => opcode != Op::LinkTimeout as u8,
        None => false,
    }
}
