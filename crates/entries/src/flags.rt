//! Flags and opcodes of io_uring, and events of poll(2), by the kernel's names.

/// Runs after all requests submitted earlier, and before all submitted later (io_uring_enter(2)).
pub const IOSQE_IO_DRAIN: u8 = 2;

/// The next entry of the submission starts after this one, and is canceled where this one fails.
pub const IOSQE_IO_LINK: u8 = 4;

/// As IOSQE_IO_LINK, but the next entry starts whatever this one completes with.
pub const IOSQE_IO_HARDLINK: u8 = 8;

/// Runs asynchronously from the start.
pub const IOSQE_ASYNC: u8 = 16;

/// The poller sleeps until an enter has IORING_ENTER_SQ_WAKEUP (io_uring_setup(2)).
pub const IORING_SQ_NEED_WAKEUP: u32 = 1;

/// The backlog has completions that did not fit into the ring.
pub const IORING_SQ_CQ_OVERFLOW: u32 = 2;

/// Waits for completions (io_uring_enter(2)).
pub const IORING_ENTER_GETEVENTS: u32 = 1;

/// Wakes the poller.
pub const IORING_ENTER_SQ_WAKEUP: u32 = 2;

/// The time of a TIMEOUT or a LINK_TIMEOUT is a time of the clock, and not from its issue on.
pub const IORING_TIMEOUT_ABS: u32 = 1;

/// Cancels all requests that match.
pub const IORING_ASYNC_CANCEL_ALL: u32 = 1;

/// Cancels by the descriptor, and not by user_data.
pub const IORING_ASYNC_CANCEL_FD: u32 = 2;

pub const IORING_OP_NOP: u8 = 0;

pub const IORING_OP_FSYNC: u8 = 3;

pub const IORING_OP_POLL_ADD: u8 = 6;

pub const IORING_OP_POLL_REMOVE: u8 = 7;

pub const IORING_OP_TIMEOUT: u8 = 11;

pub const IORING_OP_TIMEOUT_REMOVE: u8 = 12;

pub const IORING_OP_ASYNC_CANCEL: u8 = 14;

pub const IORING_OP_LINK_TIMEOUT: u8 = 15;

pub const IORING_OP_READ: u8 = 22;

pub const IORING_OP_WRITE: u8 = 23;

/// There is something to read (poll(2)).
pub const POLLIN: u32 = 1;

/// There is room to write.
pub const POLLOUT: u32 = 4;

/// The read end of a pipe is closed.
pub const POLLERR: u32 = 8;

/// The write end of a pipe is closed.
pub const POLLHUP: u32 = 16;
