//! Manual pages that several sentences cite.

/// The page on soft links.
pub(crate) const LINK_RULE: &str = "(io_uring_enter(2), IOSQE_IO_LINK)";

/// The page on requests that complete with an error.
pub(crate) const ERROR_RULE: &str = "(io_uring_enter(2), CQE ERRORS)";

/// The page on TIMEOUTs.
pub(crate) const TIMEOUT_RULE: &str = "(io_uring_enter(2), IORING_OP_TIMEOUT)";

/// The page on LINK_TIMEOUTs.
pub(crate) const LINK_TIMEOUT_RULE: &str = "(io_uring_enter(2), IORING_OP_LINK_TIMEOUT)";
