//! The supported opcodes (io_uring_enter(2)).
ghost use Rattle.std.specs.Prelude.{◌≡◌};
ghost use Rattle.opcodes.specs.Check.{op_of};
ghost use Rattle.opcodes.specs.Opcodes.{is_timer as is_timer_number, is_cancel as is_cancel_number, uses_descriptor as uses_number, fits_end as fits_end_of};

use entries::{
    IORING_OP_ASYNC_CANCEL, IORING_OP_FSYNC, IORING_OP_LINK_TIMEOUT, IORING_OP_NOP,
    IORING_OP_POLL_ADD, IORING_OP_POLL_REMOVE, IORING_OP_READ, IORING_OP_TIMEOUT,
    IORING_OP_TIMEOUT_REMOVE, IORING_OP_WRITE,
};
use places::End;

/// A supported opcode.
#[derive(Clone, Copy)]
pub enum Op {
    Nop = 0,
    Fsync = 3,
    PollAdd = 6,
    PollRemove = 7,
    Timeout = 11,
    TimeoutRemove = 12,
    AsyncCancel = 14,
    LinkTimeout = 15,
    Read = 22,
    Write = 23,
}

const _: () = prove!(
    Op::Nop as u8 == IORING_OP_NOP
        && Op::Fsync as u8 == IORING_OP_FSYNC
        && Op::PollAdd as u8 == IORING_OP_POLL_ADD
        && Op::PollRemove as u8 == IORING_OP_POLL_REMOVE
        && Op::Timeout as u8 == IORING_OP_TIMEOUT
        && Op::TimeoutRemove as u8 == IORING_OP_TIMEOUT_REMOVE
        && Op::AsyncCancel as u8 == IORING_OP_ASYNC_CANCEL
        && Op::LinkTimeout as u8 == IORING_OP_LINK_TIMEOUT
        && Op::Read as u8 == IORING_OP_READ
        && Op::Write as u8 == IORING_OP_WRITE
);

impl Op {
    /// Returns the opcode with a number, if it is supported.
    pub fn from_opcode(opcode: u8) -> Option<Op>
        ensures { result ≡ op_of opcode }
    {
        match opcode {
            IORING_OP_NOP => Some(Op::Nop),
            IORING_OP_FSYNC => Some(Op::Fsync),
            IORING_OP_POLL_ADD => Some(Op::PollAdd),
            IORING_OP_POLL_REMOVE => Some(Op::PollRemove),
            IORING_OP_TIMEOUT => Some(Op::Timeout),
            IORING_OP_TIMEOUT_REMOVE => Some(Op::TimeoutRemove),
            IORING_OP_ASYNC_CANCEL => Some(Op::AsyncCancel),
            IORING_OP_LINK_TIMEOUT => Some(Op::LinkTimeout),
            IORING_OP_READ => Some(Op::Read),
            IORING_OP_WRITE => Some(Op::Write),
            _ => None,
        }
    }
}

/// Returns whether an opcode is TIMEOUT or LINK_TIMEOUT. Their completions don't count for the
/// TIMEOUTs that wait for a number of completions.
pub fn is_timer(opcode: u8) -> bool
    ensures { result ≡ is_timer_number opcode }
{
    opcode == IORING_OP_TIMEOUT || opcode == IORING_OP_LINK_TIMEOUT
}

/// Returns whether an opcode is POLL_REMOVE, TIMEOUT_REMOVE or ASYNC_CANCEL. Their results, and
/// which requests they complete, depend on the other requests.
pub fn is_cancel(opcode: u8) -> bool
    ensures { result ≡ is_cancel_number opcode }
{
    opcode == IORING_OP_POLL_REMOVE
        || opcode == IORING_OP_TIMEOUT_REMOVE
        || opcode == IORING_OP_ASYNC_CANCEL
}

/// Returns whether a request with this opcode holds its descriptor from its issue to its
/// completion.
pub fn uses_descriptor(opcode: u8) -> bool
    ensures { result ≡ uses_number opcode }
{
    opcode == IORING_OP_FSYNC
        || opcode == IORING_OP_POLL_ADD
        || opcode == IORING_OP_READ
        || opcode == IORING_OP_WRITE
}

/// Returns whether a request can use this end of its object: a pipe's write end can't be read, nor
/// its read end written (pipe(7)).
pub fn fits_end(opcode: u8, end: End) -> bool
    ensures { result ≡ fits_end_of opcode end }
{
    match end {
        End::Whole => true,
        End::Read => opcode != IORING_OP_WRITE,
        End::Write => opcode != IORING_OP_READ,
    }
}
