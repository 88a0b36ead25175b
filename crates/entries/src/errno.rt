//! Error numbers (errno(3)). Results of completions are negated error numbers.

/// No such entry.
pub const ENOENT: i32 = 2;

/// Input/output error.
pub const EIO: i32 = 5;

/// Bad file descriptor.
pub const EBADF: i32 = 9;

/// Bad address.
pub const EFAULT: i32 = 14;

/// Device or resource busy.
pub const EBUSY: i32 = 16;

/// Invalid argument.
pub const EINVAL: i32 = 22;

/// File too large.
pub const EFBIG: i32 = 27;

/// Broken pipe.
pub const EPIPE: i32 = 32;

/// Timer expired.
pub const ETIME: i32 = 62;

/// Operation already in progress.
pub const EALREADY: i32 = 114;

/// Operation canceled.
pub const ECANCELED: i32 = 125;
