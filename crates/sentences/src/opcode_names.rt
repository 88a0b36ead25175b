//! The kernel's names of opcodes, including those that are not modelled.

use opcodes::Op;
use std::fmt;

/// The opcodes of Linux 6.16 in their order, without the prefix IORING_OP_ (linux/io_uring.h).
const NAMES: [&str; 63] = [
    "NOP",
    "READV",
    "WRITEV",
    "FSYNC",
    "READ_FIXED",
    "WRITE_FIXED",
    "POLL_ADD",
    "POLL_REMOVE",
    "SYNC_FILE_RANGE",
    "SENDMSG",
    "RECVMSG",
    "TIMEOUT",
    "TIMEOUT_REMOVE",
    "ACCEPT",
    "ASYNC_CANCEL",
    "LINK_TIMEOUT",
    "CONNECT",
    "FALLOCATE",
    "OPENAT",
    "CLOSE",
    "FILES_UPDATE",
    "STATX",
    "READ",
    "WRITE",
    "FADVISE",
    "MADVISE",
    "SEND",
    "RECV",
    "OPENAT2",
    "EPOLL_CTL",
    "SPLICE",
    "PROVIDE_BUFFERS",
    "REMOVE_BUFFERS",
    "TEE",
    "SHUTDOWN",
    "RENAMEAT",
    "UNLINKAT",
    "MKDIRAT",
    "SYMLINKAT",
    "LINKAT",
    "MSG_RING",
    "FSETXATTR",
    "SETXATTR",
    "FGETXATTR",
    "GETXATTR",
    "SOCKET",
    "URING_CMD",
    "SEND_ZC",
    "SENDMSG_ZC",
    "READ_MULTISHOT",
    "WAITID",
    "FUTEX_WAIT",
    "FUTEX_WAKE",
    "FUTEX_WAITV",
    "FIXED_FD_INSTALL",
    "FTRUNCATE",
    "BIND",
    "LISTEN",
    "RECV_ZC",
    "EPOLL_WAIT",
    "READV_FIXED",
    "WRITEV_FIXED",
    "PIPE",
];

/// Returns the kernel's name of an opcode, without its prefix.
pub fn opcode_name(opcode: u8) -> Option<&'static str> {
    NAMES.get(opcode as usize).copied()
}

/// Returns the opcode of a name, in upper or lower case, with or without the prefix IORING_OP_.
pub fn opcode_of_name(name: &str) -> Option<u8> {
    let upper = name.strip_prefix("IORING_OP_").unwrap_or(name);
    let bare = upper.strip_prefix("ioring_op_").unwrap_or(upper);
    let number = NAMES
        .iter()
        .position(|known| known.eq_ignore_ascii_case(bare))?;
    u8::try_from(number).ok()
}

/// An opcode, which prints as its name, or as its number if it has none.
#[derive(Clone, Copy)]
pub(crate) struct OpcodeName(pub u8);

impl fmt::Display for OpcodeName {
    fn fmt<W: fmt::Write>(&self, f: &mut fmt::Formatter<W>) -> fmt::Result {
        let OpcodeName(opcode) = self;
        match opcode_name(*opcode) {
            Some(name) => f.write_str(name),
            None => write!(f, "opcode {opcode}"),
        }
    }
}

/// Returns whether requests of an opcode are modelled. Others fail with EINVAL as submitted.
pub fn is_modelled(opcode: u8) -> bool {
    Op::from_opcode(opcode).is_some()
}

/// An opcode that isn't modelled, which prints as the clause that says so. Its requests complete
/// with EINVAL.
#[derive(Clone, Copy)]
pub struct Unmodelled(pub u8);

impl fmt::Display for Unmodelled {
    fn fmt<W: fmt::Write>(&self, f: &mut fmt::Formatter<W>) -> fmt::Result {
        let Unmodelled(opcode) = self;
        write!(f, "opcode {opcode}")?;
        if let Some(name) = opcode_name(*opcode) {
            write!(f, " ({name})")?;
        }
        f.write_str(" isn't modelled")
    }
}
