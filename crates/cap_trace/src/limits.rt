//! The numbers of a line, and the limits of a line and of its numbers.

/// The number of a process, from 1 to [`LARGEST_PID`].
pub type Pid = u32;

/// A descriptor, from 0 to [`LARGEST_FD`].
pub type Fd = u32;

/// A line has at most this many bytes, without a line feed.
pub const LONGEST_LINE: usize = 1024;

/// Pids go from 1 to this.
pub const LARGEST_PID: Pid = 99_999;

/// Descriptors go from 0 to this.
pub const LARGEST_FD: Fd = 1_048_575;

/// Errnos go from 1 to this.
pub(crate) const LARGEST_ERRNO: u64 = 65_535;
