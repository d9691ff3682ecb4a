//! The error numbers that calls answer in x10: the names of POSIX.1-2017, `errno.h`, with Linux's values.

/// The operation is not permitted: the mutex is not the caller's.
pub const EPERM: u32 = 1;

/// There is no such thread.
pub const ESRCH: u32 = 3;

/// No room is left.
pub const EAGAIN: u32 = 11;

/// The object is in use.
pub const EBUSY: u32 = 16;

/// An argument is invalid.
pub const EINVAL: u32 = 22;

/// The call would wait for its own thread.
pub const EDEADLK: u32 = 35;

/// There is no such call.
pub const ENOSYS: u32 = 38;

/// The deadline came first.
pub const ETIMEDOUT: u32 = 110;
