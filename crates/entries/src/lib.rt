//! Submission entries, completions, and requests (rows): the values that every other crate works
//! with, and the byte layouts of the two ring entries.
#![tactic(auto)]

pub mod choice;
pub mod completion;
pub mod entry;
pub mod errno;
mod fields;
pub mod flags;
pub mod laws;
pub mod row;

pub use choice::Choice;
pub use completion::Cqe;
pub use entry::Sqe;
pub use errno::{
    EALREADY, EBADF, EBUSY, ECANCELED, EFAULT, EFBIG, EINVAL, EIO, ENOENT, EPIPE, ETIME,
};
pub use flags::{
    IORING_ASYNC_CANCEL_ALL, IORING_ASYNC_CANCEL_FD, IORING_ENTER_GETEVENTS,
    IORING_ENTER_SQ_WAKEUP, IORING_OP_ASYNC_CANCEL, IORING_OP_FSYNC, IORING_OP_LINK_TIMEOUT,
    IORING_OP_NOP, IORING_OP_POLL_ADD, IORING_OP_POLL_REMOVE, IORING_OP_READ, IORING_OP_TIMEOUT,
    IORING_OP_TIMEOUT_REMOVE, IORING_OP_WRITE, IORING_SQ_CQ_OVERFLOW, IORING_SQ_NEED_WAKEUP,
    IORING_TIMEOUT_ABS, IOSQE_ASYNC, IOSQE_IO_DRAIN, IOSQE_IO_HARDLINK, IOSQE_IO_LINK, POLLERR,
    POLLHUP, POLLIN, POLLOUT,
};
pub use row::{Phase, Row};
